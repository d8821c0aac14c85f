// What a block's words are: the check that runs at each call of the block shader. It goes over the words once, part by part, with no branch
// for a word. The words come as words or as bytes. `word_tests` tests words, `lanes` are four of them side by side, `slots` the slots, `zeros` has the words that must be
// zero, `options` and `head` the first 40, `floats` the NaNs, `lights` the lit slots.
#![tactic(auto)]

mod floats;
mod head;
mod lanes;
mod lights;
mod options;
mod slots;
mod word_tests;
mod zeros;

ghost use Rattle.std.specs.Prelude.{◌≡◌, ◌<◌, ◌≤◌, map};
ghost use Rattle.block.specs.Block.{words};
ghost use Rattle.block.specs.Steps.{form_of, block_form};

use crate::floats::floats_formed;
use crate::head::head_formed;
use crate::lights::lights_found;
use crate::zeros::{are_zero, unused_are_zero};
use block::BlockForm;
use sources::words::{Word, value_at};

// A block of another length is not well formed. The length is asked before the words are taken as an array: only where 328 are there is it known that as many fit.
#[tactic(auto, using(crate::proofs::FormByLength::of_length, crate::proofs::FormByLength::of_another_length))]
pub fn form<W: Word>(block: &[W]) -> BlockForm
    ensures { result ≡ block_form (map W.value block.now) }
{
    if block.len() != 328 {
        return BlockForm::NotWellFormed;
    }
    whole_form(block.as_array::<328>().unwrap())
}

#[tactic(auto, unfolding(block::specs::Block::all_zero), using(crate::proofs::Forms::all_zero_lem, crate::proofs::Forms::not_zero, crate::proofs::Forms::many))]
fn whole_form<W: Word>(block: &[W; 328]) -> BlockForm
    ensures { result ≡ form_of (words (map W.value block.now)) }
{
    let count = value_at(block, 1) as usize;
    if count == 0 {
        if are_zero(block) {
            return BlockForm::Off;
        }
        return BlockForm::NotWellFormed;
    }
    if 8 < count {
        return BlockForm::NotWellFormed;
    }
    lit_form(block, count)
}

// The form of a block with a count of 1 to 8. Block and count stay two parameters: of an array behind a struct's field it is not known that 328 words fit.
#[tactic(auto, using(crate::proofs::Forms::unused_words, crate::proofs::Forms::bad_head, crate::proofs::Forms::bad_lights))]
fn lit_form<W: Word>(block: &[W; 328], count: usize) -> BlockForm
    requires { (count ≡ words (map W.value block.now) 1) × (0 < count) × (count ≤ 8) }
    ensures { result ≡ form_of (words (map W.value block.now)) }
{
    if !unused_are_zero(block, count) {
        return BlockForm::NotWellFormed;
    }
    if !head_formed(block) {
        return BlockForm::NotWellFormed;
    }
    let found = lights_found(block, count);
    if !found.are_formed() {
        return BlockForm::NotWellFormed;
    }
    if found.nans.are_clear() {
        return BlockForm::NanFree;
    }
    if floats_formed(block, count) {
        return BlockForm::WithNan;
    }
    BlockForm::NotWellFormed
}
