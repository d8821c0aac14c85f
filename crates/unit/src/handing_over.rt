// The hand-over from a unit to its copy, which a renderer reads.
ghost use Rattle.std.specs.Prelude.{◌≡◌};
ghost use Rattle.refusals.specs.Refusals.{outcome_number};
ghost use Rattle.unit.specs.Unit.{hand_over, handed};

use crate::lengths::hand_over_lengths;
use crate::taking::take;
use crate::{Cache, is_current, read_anew};
use refusals::Refusal;

// A cached read, packed into the copy's block; the copy's tables and generation, `copied` and `age`, become the unit's where the generations
// differ. Refused, the cache and the copy stay as they are: a lighting that was just decoded is never refused.
pub fn hand_over(
    file: &[u32],
    tables: &[u32],
    generation: u64,
    cache: &mut Cache,
    block: &mut [u32],
    copied: &mut [u32],
    age: &mut u64,
) -> Result<(), Refusal>
    ensures { handed (outcome_number result) cache.new block.new copied.new age.new ≡ hand_over file.now tables.now generation cache.old block.old copied.old age.old }
{
    let file = hand_over_lengths(file, tables.len(), copied.len(), block.len())?;
    if !is_current(file, cache) {
        *cache = read_anew(file);
    }
    take(cache.decoded, tables, generation, block, copied, *age)?;
    *age = generation;
    Ok(())
}
