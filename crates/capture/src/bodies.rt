// The run of a capture's bodies, in order, on a unit and a copy that are lent.
ghost use Rattle.std.specs.Prelude.{◌≡◌, true, ◌*◌, ◌/◌, ◌≤◌, length};
ghost use Rattle.lists.specs.Calls.{run};
ghost use Rattle.lists.specs.Ours.{ours};
ghost use Rattle.printing.specs.Steps.{Adds, HasRoom};
ghost use Rattle.capture_check.specs.Contents.{contents, shaped};
ghost use Rattle.capture_body.specs.Steps.{lent_state};
ghost use Rattle.capture_calls.specs.Steps.{calls_of, copy_prints};

use capture_body::{Held, run_body};
use capture_check::contents::{Entry, body_words, triples};
use printing::Lines;

// The bodies of a capture whose form is right, in order; what is held afterwards.
pub(crate) fn run_bodies(
    words: &[u32],
    file: &mut [u32],
    tables: &mut [u32],
    block: &mut [u32],
    copied: &mut [u32],
    held: Held,
    lines: &mut Lines<'_>,
) -> Held
    requires formed { shaped words.now ≡ true }
    requires words_in_bounds { HasRoom lines.old (32 * (length words.now / 23)) }
    ensures state { lent_state file.new tables.new block.new copied.new result ≡ run ours (lent_state file.old tables.old block.old copied.old held) (calls_of words.now (contents words.now)) }
    ensures text { Adds lines.old lines.new (copy_prints words.now (contents words.now) (lent_state file.old tables.old block.old copied.old held)) }
{
    let mut held = held;
    for triple in triples(words) {
        let entry = Entry::from(*triple);
        let body = body_words(words, entry);
        held = run_body(entry.kind, body, file, tables, block, copied, held, lines);
    }
    held
}
