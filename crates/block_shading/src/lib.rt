// Block shading: fragments shaded from a block and the tables alone, as a renderer that has only the copy does it. `fragments` has a fragment's 23 words, `slots` the
// shading itself, a light at a time.
#![tactic(auto)]

pub mod fragments;
pub mod slots;

ghost use Rattle.std.specs.Prelude.{◌≡◌, ◌*◌, ◌/◌, ◌%◌, ◌<◌, [], length, slice_index_or};
ghost use Rattle.refusals.specs.Refusals.{switch_number};
ghost use Rattle.shading.specs.Shade.{shaded};
ghost use Rattle.surface.specs.Steps.{unit_quaternion};
ghost use Rattle.block_shading.specs.BlockShading.{quaternion_of, block_shading, shade_fragments};

use block_reading::lit::checked;
use refusals::{Refusal, Switch};

// The first fragment's unit quaternion, where there is a fragment.
#[tactic(auto, using(sources::proofs::WordsLaws::word_values))]
fn first_unit_quaternion(fragments: &[[u32; 23]]) -> [f32; 4]
    ensures { 0 < length fragments.now → result ≡ unit_quaternion (quaternion_of (slice_index_or fragments.now 0 [])) }
{
    match fragments.first() {
        Some(fragment) => slots::unit_quaternion_of(fragment),
        None => [0.0, 0.0, 0.0, 1.0],
    }
}

// What the check of the block leaves: the channels of each fragment, or off or a refusal and the answers as they were.
#[tactic(auto, using(sources::proofs::WordsLaws::word_values, crate::proofs::AnswersLaws::whole_fragments, crate::proofs::AnswersLaws::off_by_form, crate::proofs::AnswersLaws::bad_by_form), unfolding(block_reading::specs::Steps::Found))]
fn shade_checked(
    block: &[u32; 328],
    tables: &[u32; 12288],
    fragments: &[u32],
    answers: &mut [u32],
) -> Result<Switch, Refusal>
    requires { (length fragments.now % 23 ≡ 0) × (length answers.old ≡ 8 * (length fragments.now / 23)) }
    ensures { shaded (switch_number result) answers.new ≡ shade_fragments block.now tables.now fragments.now answers.old }
{
    let (fragments, _) = fragments.as_chunks::<23>();
    let first = first_unit_quaternion(fragments);
    match checked(block)? {
        None => Ok(Switch::Off),
        Some(block) => {
            slots::shade_each(block, tables, fragments, first, answers);
            Ok(Switch::On)
        }
    }
}

// The eight channels of a fragment, 0 to 255, in the printed order.
#[tactic(auto, using(crate::proofs::AnswersLaws::wrong_block, crate::proofs::AnswersLaws::wrong_tables, crate::proofs::AnswersLaws::wrong_fragment, crate::proofs::AnswersLaws::wrong_answer, crate::proofs::AnswersLaws::one_fragment))]
pub fn shade_block(
    block: &[u32],
    tables: &[u32],
    fragment: &[u32],
    answer: &mut [u32],
) -> Result<Switch, Refusal>
    ensures { shaded (switch_number result) answer.new ≡ block_shading block.now tables.now fragment.now answer.old }
{
    let Ok(block) = <&[u32; 328]>::try_from(block) else {
        return Err(Refusal::WrongBlock);
    };
    let Ok(tables) = <&[u32; 12288]>::try_from(tables) else {
        return Err(Refusal::WrongTables);
    };
    if fragment.len() != 23 {
        return Err(Refusal::WrongFragment);
    }
    if answer.len() != 8 {
        return Err(Refusal::WrongFragment);
    }
    shade_checked(block, tables, fragment, answer)
}

// The same of many fragments, 23 words each, with 8 words of the answers for each: the block is checked and its head is read once.
#[tactic(auto, using(crate::proofs::AnswersLaws::wrong_block_of_many, crate::proofs::AnswersLaws::wrong_tables_of_many, crate::proofs::AnswersLaws::not_whole, crate::proofs::AnswersLaws::not_8_for_each, crate::proofs::AnswersLaws::whole_fragments))]
pub fn shade_fragments(
    block: &[u32],
    tables: &[u32],
    fragments: &[u32],
    answers: &mut [u32],
) -> Result<Switch, Refusal>
    ensures { shaded (switch_number result) answers.new ≡ shade_fragments block.now tables.now fragments.now answers.old }
{
    let Ok(block) = <&[u32; 328]>::try_from(block) else {
        return Err(Refusal::WrongBlock);
    };
    let Ok(tables) = <&[u32; 12288]>::try_from(tables) else {
        return Err(Refusal::WrongTables);
    };
    if fragments.len() % 23 != 0 {
        return Err(Refusal::WrongFragment);
    }
    if answers.len() != 8 * (fragments.len() / 23) {
        return Err(Refusal::WrongFragment);
    }
    shade_checked(block, tables, fragments, answers)
}
