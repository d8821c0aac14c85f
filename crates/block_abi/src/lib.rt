// Decoding with packing, and the check of a block, under plain names, for the host's comparisons, which block_abi_c exports: a library for tests alone.
// Each call returns document 01's number, as C takes it: 0 where it is done and 100 where the lighting is off.
#![tactic(auto)]

ghost use Rattle.std.specs.Prelude.{◌≡◌};
ghost use Rattle.block.specs.Block.{packing as packing_as};
ghost use Rattle.block_abi.specs.PackFile.{pack_file};
ghost use Rattle.block_abi.specs.FormNumber.{number_of_form, form_number};

use block::BlockForm;
use refusals::{Refusal, Switch};

// The number of a well-formed block with a NaN, which no call but this check tells from one without.
const WITH_NAN: u32 = 1;

// The block of a register file's lighting.
#[tactic(auto, using(crate::proofs::PackFileLaws::read_off, crate::proofs::PackFileLaws::read_on, crate::proofs::PackFileLaws::read_refused))]
pub fn block_pack(file: &[u32], words: &mut [u32]) -> u32
    ensures { packing_as result words.new ≡ pack_file file.now words.old }
{
    match decoding::read(file) {
        Ok(None) => refusals::switch_number(Ok(Switch::Off)),
        Ok(Some(lighting)) => refusals::outcome_number(packing::pack(lighting, words)),
        Err(refusal) => u32::from(refusal),
    }
}

// A form's number: 100 where the block is off and 7 as reading refuses it, and of a well-formed one 0 if no word is a NaN's pattern, else 1.
fn number_of_form(form: BlockForm) -> u32
    ensures { result ≡ number_of_form form }
{
    match form {
        BlockForm::Off => refusals::switch_number(Ok(Switch::Off)),
        BlockForm::NotWellFormed => u32::from(Refusal::NotWellFormed),
        BlockForm::NanFree => refusals::switch_number(Ok(Switch::On)),
        BlockForm::WithNan => WITH_NAN,
    }
}

// What the check finds of a block, 6 for one of another length.
#[tactic(auto, unfolding(refusals::specs::Refusals::block_refusal), using(sources::proofs::WordsLaws::word_values))]
pub fn block_form(words: &[u32]) -> u32
    ensures { result ≡ form_number words.now }
{
    if words.len() != 328 {
        return u32::from(Refusal::WrongBlock);
    }
    number_of_form(block_check::form(words))
}
