// The bodies of a capture that write: register writes and a restore, on the slices of a unit.
ghost use Rattle.std.specs.Prelude.{◌≡◌, List, ℕ};
ghost use Rattle.unit.specs.declared.Cache.{Cache};
ghost use Rattle.lists.specs.States.{CopyState, unit_state, state};
ghost use Rattle.lists.specs.Calls.{step, run};
ghost use Rattle.lists.specs.Calls.Call.{Write};
ghost use Rattle.lists.specs.Calls.Lent.{own};
ghost use Rattle.lists.specs.Ours.{ours};
ghost use Rattle.capture_calls.specs.Capture.{pair_calls, restore_call};

// One register write; the unit's generation afterwards. Whatever cache and copy stand beside the unit's slices stay.
#[tactic(auto, unfolding(lists::specs::Calls::step), using(crate::proofs::writes::Answered::after_write))]
fn write_one(
    file: &mut [u32],
    tables: &mut [u32],
    generation: u64,
    register: u32,
    value: u32,
) -> u64
    ensures { (c : Cache) (k : CopyState) → state (unit_state file.new tables.new result c) k ≡ step ours (state (unit_state file.old tables.old generation c) k) (Write own own register value) }
{
    tables::registers::write(file, tables, generation, register, value).unwrap_or(generation)
}

// A kind 1 body. Not `tables::lists::write_each`, which stops at a write that is refused: the calls of a body go on after one.
#[tactic(auto, using(crate::proofs::writes::NextPair::pairs_none))]
pub(crate) fn write_pairs(
    file: &mut [u32],
    tables: &mut [u32],
    generation: u64,
    pairs: &[u32],
) -> u64
    ensures { (c : Cache) (k : CopyState) → state (unit_state file.new tables.new result c) k ≡ run ours (state (unit_state file.old tables.old generation c) k) (pair_calls pairs.now) }
{
    let mut g = generation;
    for [register, value] in pairs.as_chunks::<2>().0 {
        g = write_one(file, tables, g, *register, *value);
    }
    g
}

// A kind 3 body.
#[tactic(auto, unfolding(lists::specs::Calls::step), using(crate::proofs::writes::Answered::after_restore))]
pub(crate) fn restore_body(tables: &mut [u32], generation: u64, saved: &[u32]) -> u64
    ensures { (f : List ℕ) (c : Cache) (k : CopyState) → state (unit_state f tables.new result c) k ≡ step ours (state (unit_state f tables.old generation c) k) (restore_call saved.now) }
{
    tables::copies::restore(tables, generation, saved).unwrap_or(generation)
}
