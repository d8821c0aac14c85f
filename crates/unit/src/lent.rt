// The calls that cross the C boundary, where a lighting is its block and a cache is words lent by the caller: a flag, 0 for an empty cache, the 139 kept words, and
// the block of their lighting. Each returns document 01's number, 0 where it is done, 100 where a reading is off, and 101 for a cache of another length.
ghost use Rattle.std.specs.Prelude.{◌≡◌, true, ◌≤◌, length, Ok, if◌then◌else◌};
ghost use Rattle.refusals.specs.Refusals.{outcome_number, switch_number};
ghost use Rattle.decoding.specs.Read.{read};
ghost use Rattle.block.specs.Block.{packing as packing_as, packed_reading};
ghost use Rattle.unit.specs.declared.lent.LentRefusal.TheVariants.{Refused};
ghost use Rattle.unit.specs.Unit.{cached_block, handed, read_number, read_packed};
ghost use Rattle.unit.specs.Steps.{lent_refusal_number, lent_outcome_number, lent_switch_number};
ghost use Rattle.unit.specs.CacheWords.{cache_block, formed, current_words, anew_words, refreshed_words, block_number, cached_read_packed_words, hand_over_words};

use crate::lengths::{hand_over_lengths, read_lengths};
use block::BlockForm;
use decoding::registers_read::{are_kept, keep_registers};
use decoding::{RegisterFile, lit_registers, registers_on};
use packing::fill;
use refusals::{Refusal, Switch, switch_number};
use sources::words::copy;

const CACHE_WORDS: usize = 468;

// Where the block begins.
const CACHE_BLOCK: usize = 140;

// Why a call on lent words is refused: as a call on a cache that is a struct is, or for a cache of another length.
#[derive(Clone, Copy, PartialEq, Eq)]
enum LentRefusal {
    Refused(Refusal),
    WrongCache,
}

impl From<Refusal> for LentRefusal {
    ghost from_gives = { λ refusal lent. lent ≡ Refused refusal };

    fn from(refusal: Refusal) -> LentRefusal {
        LentRefusal::Refused(refusal)
    }
}

impl From<LentRefusal> for u32 {
    #[tactic(auto, unfolding(crate::specs::Steps::lent_refusal_number))]
    fn from(refusal: LentRefusal) -> u32
        ensures { result ≡ lent_refusal_number refusal }
    {
        match refusal {
            LentRefusal::Refused(refusal) => u32::from(refusal),
            LentRefusal::WrongCache => 101,
        }
    }
}

// Whether shading takes the block: it is off, or well formed.
fn is_formed(block: &[u32; 328]) -> bool
    ensures { result ≡ formed block.now }
{
    !matches!(block_check::form(block), BlockForm::NotWellFormed)
}

// The block of a file's lighting, all zero where it is off, and whether it is on. The block is a slice since a cache's is a part of its words, of which it is not known
// what it is once it was lent as an array.
fn put_reading(file: &RegisterFile, block: &mut [u32]) -> Switch
    requires { length block.old ≡ 328 }
    ensures { (block.new ≡ packed_reading (read file.now)) × (switch_number (Ok result) ≡ read_number (read file.now)) }
{
    if registers_on(file) {
        if let Some(block) = block.as_mut_array() {
            fill(block, lit_registers(file));
        }
        return Switch::On;
    }
    block.fill(0);
    Switch::Off
}

// Whether the cache is not empty, and its words are the file's.
#[tactic(auto, unfolding(crate::specs::CacheWords::current_words))]
fn is_current(file: &RegisterFile, cache: &[u32]) -> bool
    requires { length cache.now ≡ 468 }
    ensures { result ≡ current_words file.now cache.now }
{
    (cache[0] != 0) & are_kept(file, cache[1..CACHE_BLOCK].as_array().unwrap())
}

fn read_anew(file: &RegisterFile, cache: &mut [u32])
    requires { length cache.old ≡ 468 }
    ensures { cache.new ≡ anew_words file.now }
{
    cache[0] = 1;
    keep_registers(file, &mut cache[1..CACHE_BLOCK]);
    put_reading(file, &mut cache[CACHE_BLOCK..CACHE_WORDS]);
}

// The cached read, refused with 7 where shading does not take the block that it leaves: then the cache is as it was.
fn refresh(file: &RegisterFile, cache: &mut [u32]) -> Result<(), Refusal>
    requires { length cache.old ≡ 468 }
    ensures { (cache.new ≡ refreshed_words file.now cache.old) × (outcome_number result ≡ (if formed (cache_block (refreshed_words file.now cache.old)) then 0 else 7)) }
{
    if !is_current(file, cache) {
        read_anew(file, cache);
        return Ok(());
    }
    if !is_formed(cache[CACHE_BLOCK..CACHE_WORDS].as_array().unwrap()) {
        return Err(Refusal::NotWellFormed);
    }
    Ok(())
}

// The block that a cache keeps, and whether it is on. One that is off is cleared, which is quicker than to copy it: it has no light.
fn take_block(cache: &[u32], block: &mut [u32]) -> Switch
    requires { (length cache.now ≡ 468) × (length block.old ≡ 328) × (formed (cache_block cache.now) ≡ true) }
    ensures { (block.new ≡ cache_block cache.now) × (switch_number (Ok result) ≡ block_number (cache_block cache.now)) }
{
    if cache[CACHE_BLOCK + 1] == 0 {
        block.fill(0);
        return Switch::Off;
    }
    copy(block, &cache[CACHE_BLOCK..CACHE_WORDS]);
    Switch::On
}

fn try_read(file: &[u32], block: &mut [u32]) -> Result<Switch, Refusal>
    ensures { packing_as (switch_number result) block.new ≡ read_packed file.now block.old }
{
    let file = read_lengths(file, block.len())?;
    Ok(put_reading(file, block))
}

fn try_cached_read(
    file: &[u32],
    cache: &mut [u32],
    block: &mut [u32],
) -> Result<Switch, LentRefusal>
    ensures { cached_block (lent_switch_number result) cache.new block.new ≡ cached_read_packed_words file.now cache.old block.old }
{
    let file = read_lengths(file, block.len())?;
    if cache.len() != CACHE_WORDS {
        return Err(LentRefusal::WrongCache);
    }
    refresh(file, cache)?;
    Ok(take_block(cache, block))
}

fn try_hand_over(
    file: &[u32],
    tables: &[u32],
    generation: u64,
    cache: &mut [u32],
    block: &mut [u32],
    copied: &mut [u32],
    age: &mut u64,
) -> Result<(), LentRefusal>
    ensures { handed (lent_outcome_number result) cache.new block.new copied.new age.new ≡ hand_over_words file.now tables.now generation cache.old block.old copied.old age.old }
{
    let file = hand_over_lengths(file, tables.len(), copied.len(), block.len())?;
    if cache.len() != CACHE_WORDS {
        return Err(LentRefusal::WrongCache);
    }
    refresh(file, cache)?;
    take_block(cache, block);
    if generation != *age {
        copy(copied, tables);
        *age = generation;
    }
    Ok(())
}

// The reading of a file, and its block.
pub fn read_packed(file: &[u32], block: &mut [u32]) -> u32
    ensures { packing_as result block.new ≡ read_packed file.now block.old }
{
    switch_number(try_read(file, block))
}

// The cached read, and the block of its lighting.
pub fn cached_read_packed(file: &[u32], cache: &mut [u32], block: &mut [u32]) -> u32
    ensures { cached_block result cache.new block.new ≡ cached_read_packed_words file.now cache.old block.old }
{
    match try_cached_read(file, cache, block) {
        Ok(switch) => switch_number(Ok(switch)),
        Err(refusal) => u32::from(refusal),
    }
}

// A cached read, whose block the copy takes; the copy's tables and generation, `copied` and `age`, become the unit's where the generations differ.
pub fn hand_over(
    file: &[u32],
    tables: &[u32],
    generation: u64,
    cache: &mut [u32],
    block: &mut [u32],
    copied: &mut [u32],
    age: &mut u64,
) -> u32
    ensures { handed result cache.new block.new copied.new age.new ≡ hand_over_words file.now tables.now generation cache.old block.old copied.old age.old }
{
    match try_hand_over(file, tables, generation, cache, block, copied, age) {
        Ok(()) => 0,
        Err(refusal) => u32::from(refusal),
    }
}
