// A light of a block, read where it stands.
ghost use Rattle.std.specs.Prelude.{◌≡◌, ◌+◌, ◌<◌, ◌≤◌, map};
ghost use Rattle.block.specs.Block.{words, from, slot_at, block_distance, block_light};

use crate::lit::MarkedBlock;
use binary32::float_of;
use block::slot_at;
use lighting::{Distance, Light, LightNumber, Slot};
use sources::words::Word;

// The distance of the light whose words start at `at`.
#[inline(always)]
#[tactic(auto, unfolding(block::specs::Block::block_distance))]
fn distance_of<W: Word>(block: MarkedBlock<'_, W>, at: usize) -> Option<Distance>
    requires { at + 36 ≤ 328 }
    ensures { result ≡ block_distance (from (words (map W.value block.entry.words.now)) at) }
{
    if block.word(at + 32) / 16 % 2 == 1 {
        Some(Distance {
            bias: float_of(block.word(at + 28)),
            scale: float_of(block.word(at + 29)),
        })
    } else {
        None
    }
}

#[inline(always)]
fn light_number(word: u32) -> LightNumber
    ensures { result ≡ record { 0 = word } }
{
    LightNumber(word as usize)
}

// The light of a slot's 36 words.
// Asks: one of the eight slots.
#[inline(always)]
pub fn light_of<W: Word>(block: MarkedBlock<'_, W>, slot: Slot) -> Light
    requires { slot.0 < 8 }
    ensures { result ≡ block_light (from (words (map W.value block.entry.words.now)) (slot_at slot)) }
{
    let at = slot_at(slot);
    let flags = block.word(at + 32);
    Light {
        specular0: block.vector(at),
        specular1: block.vector(at + 4),
        diffuse: block.vector(at + 8),
        ambient: block.vector(at + 12),
        position: block.vector(at + 16),
        direction: block.vector(at + 20),
        spot: block.vector(at + 24),
        directional: flags % 2 == 1,
        two_sided: flags / 2 % 2 == 1,
        geometric0: flags / 4 % 2 == 1,
        geometric1: flags / 8 % 2 == 1,
        distance: distance_of(block, at),
        spotlight: flags / 32 % 2 == 1,
        shadowed: flags / 64 % 2 == 1,
        number: light_number(block.word(at + 33)),
    }
}
