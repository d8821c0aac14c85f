// The run of a capture that was checked, on a fresh unit and a fresh copy.
ghost use Rattle.std.specs.Prelude.{◌≡◌, ◌≤◌, length};
ghost use Rattle.lists.specs.Plain.{zero_machine};
ghost use Rattle.printing.specs.Steps.{Adds, HasRoom};
ghost use Rattle.capture_check.specs.Contents.{contents, capture_words_refusal};
ghost use Rattle.capture_calls.specs.Capture.{machine_prints, largest_output};

use crate::bodies::run_bodies;
use capture_body::Held;
use printing::Lines;

// A capture whose words were checked, on a fresh unit and a fresh copy.
pub(crate) fn run_fresh(words: &[u32], lines: &mut Lines<'_>)
    requires { (length words.now ≤ 16384) × (capture_words_refusal words.now ≡ 0) × HasRoom lines.old largest_output }
    ensures { Adds lines.old lines.new (machine_prints words.now (contents words.now) zero_machine) }
{
    let mut file = [0u32; 474];
    let mut tables = [0u32; 12288];
    let mut block = [0u32; 328];
    let mut copied = [0u32; 12288];
    let held = Held {
        generation: 0,
        cache: unit::fresh_cache(),
        age: 0,
    };
    run_bodies(
        words,
        &mut file,
        &mut tables,
        &mut block,
        &mut copied,
        held,
        lines,
    );
}
