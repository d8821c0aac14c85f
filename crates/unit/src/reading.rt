// The read that goes through a unit's cache.
ghost use Rattle.std.specs.Prelude.{◌≡◌};
ghost use Rattle.refusals.specs.Refusals.{outcome_number};
ghost use Rattle.unit.specs.Unit.{cached, cached_read};

use crate::{Cache, is_current, read_anew};
use decoding::registers_of;
use refusals::Refusal;

// Leaves the lighting that is set up in the registers in the cache: it is decoded again only where the words that it comes from are others than the kept ones.
// Refused, the cache stays as it is.
pub fn cached_read(file: &[u32], cache: &mut Cache) -> Result<(), Refusal>
    ensures { cached (outcome_number result) cache.new ≡ cached_read file.now cache.old }
{
    let file = registers_of(file)?;
    if !is_current(file, cache) {
        *cache = read_anew(file);
    }
    Ok(())
}
