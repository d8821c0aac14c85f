// The block of a lighting: its words, which blocks are well formed, and what a block reads as. The definitions are specs/Block.antt, and their laws stand in specs/ beside
// it and in proofs/. Here are the answers of the check and of the reader, and what packing, the check, the reader and shading ask of a part.
#![tactic(auto)]

pub mod accepted;

ghost use Rattle.std.specs.Prelude.{◌≡◌, ◌<◌};
ghost use Rattle.block.specs.Block.{slot_at, scale_formed};

use lighting::Slot;

// What a block's words are. In a NanFree block no word is a NaN's pattern.
#[derive(Clone, Copy)]
pub enum BlockForm {
    Off,
    NotWellFormed,
    NanFree,
    WithNan,
}

// Where a slot's words begin.
// Asks: one of the eight slots, since the place of a far one would not fit.
pub fn slot_at(slot: Slot) -> usize
    requires { slot.0 < 8 }
    ensures { result ≡ slot_at slot }
{
    40 + 36 * slot.0
}

// Whether it is the word of a scale code's float: 0, or a power of 2 from 0.25 to 8.
#[tactic(auto, using(crate::specs::WordLaws::scale_is))]
pub fn scale_formed(n: u32) -> bool
    ensures { result ≡ scale_formed n }
{
    (n == 0) | ((n % 0x80_0000 == 0) & (125 <= n / 0x80_0000) & (n / 0x80_0000 <= 130))
}
