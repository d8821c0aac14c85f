// Words of a block that must be zero, put together by OR. The words come as words or as bytes.
ghost use Rattle.std.specs.Prelude.{◌≡◌, ◌-◌, ◌*◌, ◌≤◌, eqb, length, map};
ghost use Rattle.block.specs.Block.{words, slot_at, zeros};
ghost use Rattle.lighting.specs.Lighting.{slot_of};

use crate::lanes::Lanes;
use crate::slots::slots_of;
use crate::word_tests::{WordTest, together};
use sources::words::Word;

pub(crate) struct Zero;

impl WordTest for Zero {
    ghost passes = { λ n. eqb n 0 };

    fn bits(n: u32) -> u32 {
        n
    }
}

// Whether each word of a part is zero.
#[tactic(auto, unfolding(block::specs::Block::zeros), using(crate::proofs::Parts::every_same))]
pub(crate) fn are_zero<W: Word>(part: &[W]) -> bool
    ensures { result ≡ zeros (words (map W.value part.now)) 0 (length part.now) }
{
    together::<W, Zero>(part) == 0
}

// Whether the words of the slots beyond the count are zero.
#[tactic(auto, using(crate::proofs::Parts::part_length, crate::proofs::Parts::part_item))]
pub(crate) fn unused_are_zero<W: Word>(block: &[W; 328], count: usize) -> bool
    requires { count ≤ 8 }
    ensures { result ≡ zeros (words (map W.value block.now)) (slot_at (slot_of count)) (36 * (8 - count)) }
{
    let mut lanes = Lanes::none();
    for slot in &slots_of(block)[count..] {
        lanes = lanes.with_rows::<W, Zero>(slot);
    }
    lanes.are_clear()
}
