// Words and 32-bit floats, each as the other, and what a place in a table is. `order` has magnitude, max, min and clamp, `whole_parts` floor and quantising,
// `places` the places themselves.
#![tactic(auto)]

pub mod order;
pub mod places;
pub mod whole_parts;

ghost use Rattle.std.specs.Prelude.{◌≡◌};
ghost use Rattle.binary32.specs.Binary32.{float_of, word_of};

// A place in a table of 256 entries: the entry, and how far past it the input lies.
#[derive(Clone, Copy)]
pub struct Place {
    pub entry: u8,
    pub delta: f32,
}

// The float with the bit pattern n. Any NaN pattern is NaN.
#[tactic(auto, using(crate::specs::NanLaws::none, crate::specs::NanLaws::at_most_infinity, crate::specs::NanLaws::above_infinity, crate::specs::WordsLaws::nan_pattern_is_nan))]
pub fn float_of(n: u32) -> f32
    ensures { result ≡ float_of n }
{
    if n % 0x8000_0000 <= 0x7f80_0000 {
        f32::from_bits(n)
    } else {
        0.0 / 0.0
    }
}

// The bit pattern of x, that of NaN being 7FC00000.
#[tactic(auto, using(crate::specs::NanLaws::itself, crate::specs::NanLaws::differs, crate::specs::WordsLaws::word_of_nan))]
pub fn word_of(x: f32) -> u32
    ensures { result ≡ word_of x }
{
    if x != x { 0x7fc0_0000 } else { f32::to_bits(x) }
}
