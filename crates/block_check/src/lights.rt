// The lit slots of a block: each light's padding, flags, number, the words of a missing distance, and its NaNs. What the words of all of them say is put
// together by OR, with no branch for a light.
ghost use Rattle.std.specs.Prelude.{◌≡◌, true, ◌&&◌, ◌||◌, ◌+◌, ◌*◌, ◌≤◌, eqb, map};
ghost use Rattle.block.specs.Block.{words, is_number, bit_at};
ghost use Rattle.lighting.specs.Forms.{every};
ghost use Rattle.block_check.specs.Steps.{vectors_padded, light_padded, light_formed, lights_formed, clear, numbers, found_formed};

use crate::floats::Number;
use crate::lanes::Lanes;
use crate::slots::slots_of;
use sources::words::{Word, value_at};

// The fourth word of each of a light's vectors: 0 exactly if each is.
#[tactic(auto, unfolding(crate::specs::Steps::vectors_padded), using(crate::specs::OrLaws::or_more))]
fn vector_padding<W: Word>(light: &[W; 36]) -> u32
    ensures { eqb result 0 ≡ vectors_padded (words (map W.value light.now)) }
{
    value_at(light, 3)
        | value_at(light, 7)
        | value_at(light, 11)
        | value_at(light, 15)
        | value_at(light, 19)
        | value_at(light, 23)
        | value_at(light, 27)
}

// All of a light's padding: 0 exactly if each word is.
#[tactic(auto, unfolding(crate::specs::Steps::light_padded), using(crate::specs::OrLaws::or_more))]
fn padding<W: Word>(light: &[W; 36]) -> u32
    ensures { eqb result 0 ≡ light_padded (words (map W.value light.now)) }
{
    vector_padding(light)
        | value_at(light, 30)
        | value_at(light, 31)
        | value_at(light, 34)
        | value_at(light, 35)
}

// The words of a distance that the flags say is missing: 0 exactly if each is, or if there is a distance.
#[tactic(auto, using(crate::specs::OrLaws::or_more))]
fn missing<W: Word>(light: &[W; 36], flags: u32) -> u32
    ensures { eqb result 0 ≡ (bit_at flags 16 || (eqb (words (map W.value light.now) 28) 0 && eqb (words (map W.value light.now) 29) 0)) }
{
    let bits = value_at(light, 28) | value_at(light, 29);
    if flags / 16 % 2 == 1 { 0 } else { bits }
}

// What the words of the lit slots have: NaNs, in the lanes of their rows, bits of words that must be zero, flags, and light numbers.
#[derive(Clone, Copy)]
pub(crate) struct Found {
    pub nans: Lanes,
    pub zeros: u32,
    pub flags: u32,
    pub numbers: u32,
}

impl Found {
    // A light has floats in the first eight of its nine rows; the last has its flags and its number.
    #[tactic(auto, using(crate::proofs::Parts::front_length, crate::proofs::Parts::front_word, crate::proofs::lights::Lights::light_more))]
    fn with_light<W: Word>(self, light: &[W; 36]) -> Found
        ensures formed { found_formed result ≡ (found_formed self && light_formed (words (map W.value light.now))) }
        ensures nans { clear result.nans ≡ (clear self.nans && every 32 (λ k. is_number (words (map W.value light.now) k))) }
    {
        let nans = self.nans.with_rows::<W, Number>(&light[..32]);
        let flags = value_at(light, 32);
        Found {
            nans,
            zeros: self.zeros | padding(light) | missing(light, flags),
            flags: self.flags | flags,
            numbers: self.numbers | value_at(light, 33),
        }
    }

    #[tactic(auto, unfolding(crate::specs::Steps::found_formed))]
    pub(crate) fn are_formed(self) -> bool
        ensures { result ≡ found_formed self }
    {
        (self.zeros == 0) & (self.flags < 128) & (self.numbers < 8)
    }
}

// The lit slots, and the NaNs of the global ambient before them. By `take` the compiler takes a row of four words at once; of the part `[..count]` it takes four lights,
// 93 ns in place of 55 for eight.
#[tactic(auto, using(crate::proofs::Parts::part_length))]
pub(crate) fn lights_found<W: Word>(block: &[W; 328], count: usize) -> Found
    requires { count ≤ 8 }
    ensures formed { found_formed result ≡ lights_formed (words (map W.value block.now)) count }
    ensures nans { found_formed result ≡ true → clear result.nans ≡ numbers (words (map W.value block.now)) 36 (4 + 36 * count) }
{
    let nans = Lanes::none().with_rows::<W, Number>(&block.as_slice()[36..40]);
    let mut found = Found {
        nans,
        zeros: 0,
        flags: 0,
        numbers: 0,
    };
    for light in slots_of(block).iter().take(count) {
        found = found.with_light(light);
    }
    found
}
