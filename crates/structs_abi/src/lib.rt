// Document 01's calls on the structs under plain names, for the host's comparisons with the Rust module: a library for tests alone. A lighting and a cache
// can't cross the C boundary, so each call here makes them, passes them on and gives words.
#![tactic(auto)]

ghost use Rattle.std.specs.Prelude.{◌≡◌};
ghost use Rattle.shading.specs.Shade.{shaded};
ghost use Rattle.block.specs.Block.{packing as packing_as};
ghost use Rattle.block_shading.specs.BlockShading.{block_shading};
ghost use Rattle.unit.specs.Unit.{fresh_cache, handed};
ghost use Rattle.structs_abi.specs.Composed.{shades_reading, shades_read, packs_if, shade_file, shade_reading, cached_reads};
ghost use Rattle.structs_abi.specs.HandOvers.{copied as copied_as, copy_of, hand_overs};

use block_shading::fragments;
use lighting::Lighting;
use refusals::{Refusal, Switch};

// A fragment shaded by a reading, or 100.
fn shade_reading(
    reading: Option<Lighting>,
    tables: &[u32],
    fragment: &[u32; 23],
    answer: &mut [u32],
) -> u32
    ensures { shaded result answer.new ≡ shades_reading reading tables.now fragment.now answer.old }
{
    match reading {
        Some(lighting) => {
            let quaternion = fragments::quaternion_of(fragment);
            let view = fragments::view_of(fragment);
            let texels = fragments::texels_of(fragment);
            refusals::outcome_number(shading::shade(
                lighting, tables, quaternion, view, texels, answer,
            ))
        }
        None => refusals::switch_number(Ok(Switch::Off)),
    }
}

// A fragment shaded by what a read answered. Returns 9 for a fragment of other than 23 words, then each call's own number, 100 where the lighting is off.
#[tactic(auto, using(crate::specs::ComposedLaws::short, crate::specs::ComposedLaws::done, crate::specs::ComposedLaws::refused))]
fn shade_read(
    read: Result<Option<Lighting>, Refusal>,
    tables: &[u32],
    fragment: &[u32],
    answer: &mut [u32],
) -> u32
    ensures { shaded result answer.new ≡ shades_read read tables.now fragment.now answer.old }
{
    let Ok(fragment) = <&[u32; 23]>::try_from(fragment) else {
        return u32::from(Refusal::WrongFragment);
    };
    match read {
        Ok(reading) => shade_reading(reading, tables, fragment, answer),
        Err(refusal) => u32::from(refusal),
    }
}

// `read` of a file, then `shade`.
#[tactic(auto, using(crate::specs::ComposedLaws::of_file))]
#[unsafe(no_mangle)]
pub extern "C" fn structs_shade_file(
    file: &[u32],
    tables: &[u32],
    fragment: &[u32],
    answer: &mut [u32],
) -> u32
    ensures { shaded result answer.new ≡ shade_file file.now tables.now fragment.now answer.old }
{
    shade_read(decoding::read(file), tables, fragment, answer)
}

// `read_block` of a block, then `shade`.
#[tactic(auto, using(crate::specs::ComposedLaws::of_block))]
#[unsafe(no_mangle)]
pub extern "C" fn structs_shade_reading(
    block: &[u32],
    tables: &[u32],
    fragment: &[u32],
    answer: &mut [u32],
) -> u32
    ensures { shaded result answer.new ≡ shade_reading block.now tables.now fragment.now answer.old }
{
    shade_read(block_reading::read_block(block), tables, fragment, answer)
}

// `shade_block` on words.
#[unsafe(no_mangle)]
pub extern "C" fn structs_shade_block(
    block: &[u32],
    tables: &[u32],
    fragment: &[u32],
    answer: &mut [u32],
) -> u32
    ensures { shaded result answer.new ≡ block_shading block.now tables.now fragment.now answer.old }
{
    refusals::switch_number(block_shading::shade_block(block, tables, fragment, answer))
}

// The block of a reading, or 100. Not `unit::taking::pack_reading`, which is done where a lighting is off, with a block of zeros: this leaves the block.
#[tactic(auto, unfolding(crate::specs::Composed::packs_if))]
fn pack_reading(reading: Option<Lighting>, block: &mut [u32]) -> u32
    ensures { packing_as result block.new ≡ packs_if 0 reading block.old }
{
    match reading {
        Some(lighting) => refusals::outcome_number(packing::pack(lighting, block)),
        None => refusals::switch_number(Ok(Switch::Off)),
    }
}

// `cached_read` of one file and then of the other, from an empty cache, and `pack` of the second's lighting, or 100.
#[tactic(auto, using(crate::specs::ComposedLaws::packs_done))]
#[unsafe(no_mangle)]
pub extern "C" fn structs_cached_reads(file: &[u32], other: &[u32], block: &mut [u32]) -> u32
    ensures { packing_as result block.new ≡ cached_reads file.now other.now block.old }
{
    let mut cache = unit::fresh_cache();
    // refused, it leaves the cache
    let _ = unit::reading::cached_read(file, &mut cache);
    match unit::reading::cached_read(other, &mut cache) {
        Ok(()) => pack_reading(cache.decoded, block),
        Err(refusal) => u32::from(refusal),
    }
}

// `pairs` times two hand-overs, from an empty cache: of `file` at the generation `first`, then of `other` at the generation `second`. Returns the
// number of the last; `age` is the copy's generation.
#[unsafe(no_mangle)]
pub extern "C" fn structs_hand_overs(
    file: &[u32],
    other: &[u32],
    tables: &[u32],
    first: u64,
    second: u64,
    block: &mut [u32],
    copied: &mut [u32],
    age: &mut u64,
    pairs: u32,
) -> u32
    ensures { copied_as result block.new copied.new age.new ≡ copy_of (hand_overs file.now other.now tables.now first second pairs (handed 0 fresh_cache block.old copied.old age.old)) }
{
    let mut cache = unit::fresh_cache();
    let mut last = Ok(());
    for _ in 0..pairs {
        // refused, it leaves all as it is, and its number is not asked for
        let _ = unit::handing_over::hand_over(file, tables, first, &mut cache, block, copied, age);
        last = unit::handing_over::hand_over(other, tables, second, &mut cache, block, copied, age);
    }
    refusals::outcome_number(last)
}
