// The check of a capture, before anything of it is run: refusals 8 and 3. Its modules follow the data: `words` has the bytes as words, `contents` the size of an input and the place of a
// body, `form` the contents and bodies as a whole, `registers` those of kind 1 bodies.
#![tactic(auto)]

pub mod contents;
mod form;
mod registers;
pub mod words;

ghost use Rattle.std.specs.Prelude.{◌≡◌};
ghost use Rattle.refusals.specs.Refusals.{outcome_number};
ghost use Rattle.capture_check.specs.Contents.{capture_words_refusal};

use crate::contents::triples;
use crate::form::shaped;
use crate::registers::registers_right;
use refusals::Refusal;

// Refusals 8 and 3 of the words of an input whose size is right: every rule of form comes before any register.
pub fn check_words(words: &[u32]) -> Result<(), Refusal>
    ensures { outcome_number result ≡ capture_words_refusal words.now }
{
    if !shaped(words) {
        return Err(Refusal::BadCapture);
    }
    if !registers_right(words, triples(words)) {
        return Err(Refusal::HighRegister);
    }
    Ok(())
}
