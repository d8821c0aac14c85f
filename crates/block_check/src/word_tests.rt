// Tests of words that answer in bits, 0 for a word that passes, so that the answers of many words are put together by OR, with no branch for a word.
ghost use Rattle.std.specs.Prelude.{◌≡◌, ℕ, Bool, eqb, length, map};
ghost use Rattle.block.specs.Block.{words};
ghost use Rattle.lighting.specs.Forms.{every};

use sources::words::Word;

pub(crate) trait WordTest {
    ghost passes: { ℕ → Bool };

    fn bits(n: u32) -> u32
        ensures { eqb result 0 ≡ passes n };
}

// The bits of a part's words, put together: 0 exactly if each word passes.
pub(crate) fn together<W: Word, T: WordTest>(part: &[W]) -> u32
    ensures { eqb result 0 ≡ every (length part.now) (λ k. T.passes (words (map W.value part.now) k)) }
{
    let mut bits = 0;
    for word in part {
        bits |= T::bits(word.value());
    }
    bits
}
