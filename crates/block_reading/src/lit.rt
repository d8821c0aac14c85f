// A block's words with their mark, and a block that the check found lit. The words come as words or as bytes, and are never copied: each part is read where it stands.
ghost use Rattle.std.specs.Prelude.{◌≡◌, true, ◌+◌, ◌<◌, ◌≤◌, cond, length, map, ⊤};
ghost use Rattle.block.specs.declared.BlockForm.TheVariants.{NanFree, WithNan};
ghost use Rattle.block.specs.Block.{words as words_of, well_formed, block_vector};
ghost use Rattle.block.specs.Steps.{nan_free as free_of_nan, block_form};
ghost use Rattle.block_reading.specs.Steps.{Found};

use binary32::float_of;
use block::BlockForm;
use refusals::Refusal;
use sources::words::{Word, value_at};
use std::alloc::AllocError;

// The words of a block, well formed or not. `nan_free` says that no word is a NaN's pattern, so that floats are taken from their words untested.
pub struct MarkedBlock<'a, W: Word> {
    pub words: &'a [W],
    pub nan_free: bool,
    pub ghost sized: { length words.now ≡ 328 },
    pub ghost plain: { nan_free ≡ true → free_of_nan (words_of (map W.value words.now)) ≡ true },
}

impl<'a, W: Word> Clone for MarkedBlock<'a, W> {
    ghost is_clone = { λ x y. y ≡ x };

    ghost is_infallible = { λ _. ⊤ };

    fn clone(&self) -> Result<MarkedBlock<'a, W>, AllocError> {
        Ok(*self)
    }
}

impl<'a, W: Word> Copy for MarkedBlock<'a, W> {}

impl<'a, W: Word> MarkedBlock<'a, W> {
    #[inline(always)]
    pub(crate) fn word(self, at: usize) -> u32
        requires { at < 328 }
        ensures { result ≡ words_of (map W.value self.entry.words.now) at }
    {
        value_at(self.words, at)
    }

    // The vector of the three words from `at` on.
    #[inline(always)]
    #[tactic(auto, using(crate::proofs::lit::Plain::plain_word), unfolding(block::specs::Block::block_vector))]
    pub(crate) fn vector(self, at: usize) -> [f32; 3]
        requires { at + 3 ≤ 328 }
        ensures { result ≡ block_vector (words_of (map W.value self.entry.words.now)) at }
    {
        if self.nan_free {
            [
                f32::from_bits(self.word(at)),
                f32::from_bits(self.word(at + 1)),
                f32::from_bits(self.word(at + 2)),
            ]
        } else {
            [
                float_of(self.word(at)),
                float_of(self.word(at + 1)),
                float_of(self.word(at + 2)),
            ]
        }
    }
}

// A well-formed block that isn't off.
pub struct LitBlock<'a, W: Word> {
    pub marked: MarkedBlock<'a, W>,
    pub ghost formed: { well_formed (words_of (map W.value marked.words.now)) ≡ true },
}

impl<'a, W: Word> Clone for LitBlock<'a, W> {
    ghost is_clone = { λ x y. y ≡ x };

    ghost is_infallible = { λ _. ⊤ };

    fn clone(&self) -> Result<LitBlock<'a, W>, AllocError> {
        Ok(*self)
    }
}

impl<'a, W: Word> Copy for LitBlock<'a, W> {}

// A block that was found lit, with its mark.
#[inline(always)]
#[tactic(auto, using(crate::specs::FormLaws::free_by_mark))]
fn lit<W: Word>(block: &[W; 328], nan_free: bool) -> LitBlock<'_, W>
    requires { block_form (map W.value block.now) ≡ cond nan_free NanFree WithNan }
    ensures { (result.marked.words.now ≡ block.now) × (result.marked.nan_free ≡ nan_free) }
{
    let marked = MarkedBlock {
        words: block,
        nan_free,
    };
    LitBlock { marked }
}

// What the check finds of a block: that it is lit, or off, or not well formed.
#[tactic(auto, unfolding(crate::specs::Steps::Found))]
pub fn checked<W: Word>(block: &[W; 328]) -> Result<Option<LitBlock<'_, W>>, Refusal>
    ensures { Found (map W.value block.now) (λ lit. map W.value lit.marked.words.now) (λ lit. lit.marked.nan_free) result }
{
    match block_check::form(block) {
        BlockForm::Off => Ok(None),
        BlockForm::NotWellFormed => Err(Refusal::NotWellFormed),
        BlockForm::NanFree => Ok(Some(lit(block, true))),
        BlockForm::WithNan => Ok(Some(lit(block, false))),
    }
}
