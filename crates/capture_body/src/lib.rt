// The run of one body of a capture on a unit and a copy that are lent; `writes` has those that write. What is held beside their slices goes by value.
#![tactic(auto)]

mod writes;

ghost use Rattle.std.specs.Prelude.{◌≡◌, ◌+◌, ◌*◌, ◌/◌, ◌≤◌, length};
ghost use Rattle.printing.specs.Steps.{Adds, HasRoom};
ghost use Rattle.lists.specs.Calls.{step};
ghost use Rattle.lists.specs.Ours.{ours};
ghost use Rattle.capture_calls.specs.Capture.{hand_over_call};
ghost use Rattle.capture_calls.specs.Steps.{after_body, after_lines};
ghost use Rattle.capture_body.specs.Steps.{lent_state};

use crate::writes::{restore_body, write_pairs};
use capture_check::contents::BodyKind;
use capture_lines::print_fragments;
use printing::Lines;
use unit::Cache;

// What a unit and its copy hold beside their slices: the unit's generation and cache, and the copy's generation.
#[derive(Clone, Copy)]
pub struct Held {
    pub generation: u64,
    pub cache: Cache,
    pub age: u64,
}

// The hand-over before a kind 2 body's fragments; what is held afterwards. Refused, it stays.
#[tactic(auto, unfolding(lists::specs::Calls::step))]
fn hand_over(
    file: &[u32],
    tables: &[u32],
    block: &mut [u32],
    copied: &mut [u32],
    held: Held,
) -> Held
    ensures { lent_state file.now tables.now block.new copied.new result ≡ step ours (lent_state file.now tables.now block.old copied.old held) hand_over_call }
{
    let Held {
        generation,
        mut cache,
        mut age,
    } = held;
    // refused, it leaves the cache and the copy
    let _ = unit::handing_over::hand_over(
        file, tables, generation, &mut cache, block, copied, &mut age,
    );
    Held {
        generation,
        cache,
        age,
    }
}

// One body, by its kind: `copied` are the copy's tables. The kind is the number that the definitions and a capture's words have, of which any is taken.
// The slices go one by one: of a struct with four of them each contract would have to say four times that it holds the same slice as before.
// Asks: room for the lines: a capture's run has made it.
pub fn run_body(
    kind: u32,
    body: &[u32],
    file: &mut [u32],
    tables: &mut [u32],
    block: &mut [u32],
    copied: &mut [u32],
    held: Held,
    lines: &mut Lines<'_>,
) -> Held
    requires { HasRoom lines.old (32 * (length body.now / 23)) }
    ensures state { lent_state file.new tables.new block.new copied.new result ≡ after_body (lent_state file.old tables.old block.old copied.old held) kind body.now }
    ensures text { Adds lines.old lines.new (after_lines (after_body (lent_state file.old tables.old block.old copied.old held) kind body.now) kind body.now) }
    ensures room { lines.new.len ≤ lines.old.len + 32 * (length body.now / 23) }
{
    match BodyKind::from_number(kind) {
        Some(BodyKind::Writes) => {
            let generation = write_pairs(file, tables, held.generation, body);
            Held { generation, ..held }
        }
        Some(BodyKind::Fragments) => {
            let held = hand_over(file, tables, block, copied, held);
            print_fragments(block, copied, body, lines);
            held
        }
        Some(BodyKind::Restore) => {
            let generation = restore_body(tables, held.generation, body);
            Held { generation, ..held }
        }
        None => held,
    }
}
