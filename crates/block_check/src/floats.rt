// A block's floats: NaNs are looked at closely only if there is one.
ghost use Rattle.std.specs.Prelude.{◌≡◌, ◌+◌, ◌*◌, ◌≤◌, length, map};
ghost use Rattle.block.specs.Block.{words, is_number, float_formed};
ghost use Rattle.lighting.specs.Forms.{every};

use crate::word_tests::{WordTest, together};
use sources::words::Word;

// No NaN.
pub(crate) struct Number;

impl WordTest for Number {
    ghost passes = { is_number };

    #[tactic(auto, using(crate::proofs::floats::Flags::nan_flag))]
    fn bits(n: u32) -> u32 {
        (0x7F80_0000 < n % 0x8000_0000) as u32
    }
}

// No NaN but 7FC00000.
struct FloatFormed;

impl WordTest for FloatFormed {
    ghost passes = { float_formed };

    #[tactic(auto, using(crate::proofs::floats::Flags::odd_flag))]
    fn bits(n: u32) -> u32 {
        ((0x7F80_0000 < n % 0x8000_0000) & (n != 0x7FC0_0000)) as u32
    }
}

// Whether no float is another NaN than 7FC00000; floats are only from the global ambient to the end of the lit slots.
pub(crate) fn floats_formed<W: Word>(block: &[W; 328], count: usize) -> bool
    requires { count ≤ 8 }
    ensures { result ≡ every (4 + 36 * count) (λ k. float_formed (words (map W.value block.now) (36 + k))) }
{
    together::<W, FloatFormed>(&block.as_slice()[36..40 + 36 * count]) == 0
}
