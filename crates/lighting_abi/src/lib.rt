// What a renderer links: document 01's calls for C and Rust, and those that document 02 adds, in one archive. include/lighting.h says each for those who call
// it; names, order of arguments and numbers are the ones that stand there. A call returns 0, the papers' number of a refusal, 100 where a lighting is off, or
// 101 for a slice of which the papers don't speak, and on a refusal nothing has changed. `answer_bytes` writes an answer's bytes; all else stands here.
#![tactic(auto)]

mod answer_bytes;

ghost use Rattle.std.specs.Prelude.{◌≡◌};
ghost use Rattle.tables.specs.Tables.{wrote, write as write_of, writes, restored, restore as restore_of, saved as saved_as, save as save_of};
ghost use Rattle.block.specs.Block.{packing};
ghost use Rattle.unit.specs.Unit.{cached_block, handed, read_packed};
ghost use Rattle.unit.specs.CacheWords.{cached_read_packed_words, hand_over_words};
ghost use Rattle.shading.specs.Shade.{shaded};
ghost use Rattle.block_shading.specs.BlockShading.{shade_fragments};
ghost use Rattle.capture_calls.specs.Capture.{captured, captures};
ghost use Rattle.refusals.specs.Refusals.{switch_number};
ghost use Rattle.lighting_abi.specs.Steps.{form_number};
ghost use Rattle.lighting_abi.specs.Boundary.{write_list, block_read_number, shade_bytes, censused, census_words};

use block::BlockForm;
use block_reading::lit::checked;
use refusals::{Refusal, Switch};
use sources::words::words_of;

// The number of a slice of which the papers do not speak.
const OTHER_SLICE: u32 = 101;

// A write to a register: table data goes into the tables, any other word into the file.
#[unsafe(no_mangle)]
pub extern "C" fn lighting_write(
    file: &mut [u32],
    tables: &mut [u32],
    generation: &mut u64,
    register: u32,
    value: u32,
) -> u32
    ensures { wrote result file.new tables.new generation.new ≡ write_of file.old tables.old generation.old register value }
{
    match tables::registers::write(file, tables, *generation, register, value) {
        Ok(raised) => {
            *generation = raised;
            0
        }
        Err(refusal) => u32::from(refusal),
    }
}

// Pairs of register and value, one after another, up to the first that is refused; `done` tells how many were made. 101 for half a pair, before any is made.
#[unsafe(no_mangle)]
pub extern "C" fn lighting_writes(
    file: &mut [u32],
    tables: &mut [u32],
    generation: &mut u64,
    pairs: &[u32],
    done: &mut u64,
) -> u32
    ensures { writes result done.new file.new tables.new generation.new ≡ write_list file.old tables.old generation.old pairs.now done.old }
{
    if file.len() < 474 {
        return u32::from(Refusal::ShortFile);
    }
    if tables.len() != 12288 {
        return u32::from(Refusal::WrongTables);
    }
    if pairs.len() % 2 != 0 {
        return OTHER_SLICE;
    }
    let written = tables::lists::write_each(file, tables, *generation, pairs);
    *done = written.done as u64;
    *generation = written.generation;
    refusals::outcome_number(written.outcome)
}

// Every entry of the tables from a saved state.
#[unsafe(no_mangle)]
pub extern "C" fn lighting_restore(tables: &mut [u32], generation: &mut u64, saved: &[u32]) -> u32
    ensures { restored result tables.new generation.new ≡ restore_of tables.old generation.old saved.now }
{
    match tables::copies::restore(tables, *generation, saved) {
        Ok(raised) => {
            *generation = raised;
            0
        }
        Err(refusal) => u32::from(refusal),
    }
}

// Every entry of the tables, for a saved state.
#[unsafe(no_mangle)]
pub extern "C" fn lighting_save(tables: &[u32], output: &mut [u32]) -> u32
    ensures { saved_as result output.new ≡ save_of tables.now output.old }
{
    refusals::outcome_number(tables::copies::save(tables, output))
}

// The lighting that is set up in the registers, as its block: all zero where it is off.
#[unsafe(no_mangle)]
pub extern "C" fn lighting_read(file: &[u32], block: &mut [u32]) -> u32
    ensures { packing result block.new ≡ read_packed file.now block.old }
{
    unit::lent::read_packed(file, block)
}

// The same through a cache, decoded again only where the registers that it comes from are others than the kept ones.
#[unsafe(no_mangle)]
pub extern "C" fn lighting_cached_read(file: &[u32], cache: &mut [u32], block: &mut [u32]) -> u32
    ensures { cached_block result cache.new block.new ≡ cached_read_packed_words file.now cache.old block.old }
{
    unit::lent::cached_read_packed(file, cache, block)
}

// A cached read, whose block the copy takes; and its tables and generation, where the copy's generation is another.
#[unsafe(no_mangle)]
pub extern "C" fn lighting_hand_over(
    file: &[u32],
    tables: &[u32],
    generation: u64,
    cache: &mut [u32],
    block: &mut [u32],
    copied: &mut [u32],
    age: &mut u64,
) -> u32
    ensures { handed result cache.new block.new copied.new age.new ≡ hand_over_words file.now tables.now generation cache.old block.old copied.old age.old }
{
    unit::lent::hand_over(file, tables, generation, cache, block, copied, age)
}

// What the form of a block of 328 words tells.
#[tactic(auto, unfolding(crate::specs::Steps::form_number))]
fn switch_of(form: BlockForm) -> Result<Switch, Refusal>
    ensures { switch_number result ≡ form_number form }
{
    match form {
        BlockForm::Off => Ok(Switch::Off),
        BlockForm::NotWellFormed => Err(Refusal::NotWellFormed),
        BlockForm::NanFree => Ok(Switch::On),
        BlockForm::WithNan => Ok(Switch::On),
    }
}

// Whether a block is lit, off, or refused.
#[unsafe(no_mangle)]
pub extern "C" fn lighting_read_block(block: &[u32]) -> u32
    ensures { result ≡ block_read_number block.now }
{
    if block.len() != 328 {
        return u32::from(Refusal::WrongBlock);
    }
    refusals::switch_number(switch_of(block_check::form(block)))
}

// The eight channels of a fragment, 0 to 255, in the printed order; a word, and each channel of the answer, is four bytes, the least first. It checks the
// block at each call: `lighting_shade_fragments` does so once for many fragments.
#[unsafe(no_mangle)]
pub extern "C" fn lighting_shade_block(
    block: &[u8],
    tables: &[u8],
    fragment: &[u8],
    answer: &mut [u8],
) -> u32
    ensures { shaded result answer.new ≡ shade_bytes block.now tables.now fragment.now answer.old }
{
    if block.len() != 1312 {
        return u32::from(Refusal::WrongBlock);
    }
    if tables.len() != 49152 {
        return u32::from(Refusal::WrongTables);
    }
    if fragment.len() != 92 {
        return u32::from(Refusal::WrongFragment);
    }
    if answer.len() != 32 {
        return u32::from(Refusal::WrongFragment);
    }
    let block = <&[[u8; 4]; 328]>::try_from(words_of(block)).unwrap();
    let tables = <&[[u8; 4]; 12288]>::try_from(words_of(tables)).unwrap();
    let fragment = <&[[u8; 4]; 23]>::try_from(words_of(fragment)).unwrap();
    let unit = block_shading::slots::unit_quaternion_of(fragment);
    match checked(block) {
        Ok(Some(block)) => {
            let channels = block_shading::slots::shade_alone(block, tables, fragment, unit);
            answer_bytes::put(answer, channels);
            0
        }
        Ok(None) => refusals::switch_number(Ok(Switch::Off)),
        Err(refusal) => refusals::switch_number(Err(refusal)),
    }
}

// The eight channels of each fragment, 23 words each, into its 8 words of the answers.
#[unsafe(no_mangle)]
pub extern "C" fn lighting_shade_fragments(
    block: &[u32],
    tables: &[u32],
    fragments: &[u32],
    answers: &mut [u32],
) -> u32
    ensures { shaded result answers.new ≡ shade_fragments block.now tables.now fragments.now answers.old }
{
    refusals::switch_number(block_shading::shade_fragments(block, tables, fragments, answers))
}

// What a capture prints, at the start of the output; `printed` is how many bytes.
#[unsafe(no_mangle)]
pub extern "C" fn lighting_capture(input: &[u8], output: &mut [u8], printed: &mut u64) -> u32
    ensures { captured result printed.new output.new ≡ captures input.now printed.old output.old }
{
    let before = *printed as usize;
    let answer = capture::run_capture(input, output);
    *printed = capture_calls::printed_size(answer, before) as u64;
    capture_calls::answer_number(answer)
}

// How many patterns of a short float end as zeros, infinities, NaNs and other numbers, in this order; four zeros for widths that are not counted. 101 for
// another place than four words.
#[unsafe(no_mangle)]
pub extern "C" fn lighting_census(mantissa: u32, exponent: u32, totals: &mut [u32]) -> u32
    ensures { censused result totals.new ≡ census_words mantissa exponent totals.old }
{
    if totals.len() != 4 {
        return OTHER_SLICE;
    }
    let found = short_float_census::census(mantissa, exponent);
    totals.copy_from_slice(&[found.zeros, found.infinities, found.nans, found.numbers]);
    0
}
