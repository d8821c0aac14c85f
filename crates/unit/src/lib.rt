// A unit's cache, fresh or read anew. `reading` is the cached read, `taking` what a copy takes, `handing_over` the hand-over, all three on a cache that is a struct; `lengths` the refusals by length; `lent` has the calls on a cache that is lent words, which a renderer links.
#![tactic(auto)]

pub mod handing_over;
mod lengths;
pub mod lent;
pub mod reading;
mod taking;

ghost use Rattle.std.specs.Prelude.{◌≡◌};
ghost use Rattle.unit.specs.Unit.{fresh_cache, read_anew, current as current_of};

use decoding::registers_read::{are_kept, kept_registers};
use decoding::{RegisterFile, decode_registers};
use lighting::Lighting;

// The registers that the last read took, which draws mostly keep, and what it decoded of them: to compare those costs less than to decode
// again. Where none are kept the cache is empty, and the lighting counts for nothing.
#[derive(Clone, Copy)]
pub struct Cache {
    pub kept: Option<[u32; 139]>,
    pub decoded: Option<Lighting>,
}

// An empty cache.
#[tactic(auto, unfolding(crate::specs::Unit::fresh_cache))]
pub fn fresh_cache() -> Cache
    ensures { result ≡ fresh_cache }
{
    Cache {
        kept: None,
        decoded: None,
    }
}

// The registers that decoding takes, and their lighting.
#[tactic(auto, unfolding(crate::specs::Unit::read_anew))]
pub(crate) fn read_anew(file: &RegisterFile) -> Cache
    ensures { result ≡ read_anew file.now }
{
    Cache {
        kept: Some(kept_registers(file)),
        decoded: decode_registers(file),
    }
}

// Whether the cache is not empty, and its words are the file's.
#[tactic(auto, unfolding(crate::specs::Unit::current, crate::specs::Unit::keeps))]
pub(crate) fn is_current(file: &RegisterFile, cache: &Cache) -> bool
    ensures { result ≡ current_of file.now cache.now }
{
    match &cache.kept {
        None => false,
        Some(kept) => are_kept(file, kept),
    }
}
