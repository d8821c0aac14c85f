// What a copy takes of a unit, past the refusals by length: the block of its lighting, and its tables.
ghost use Rattle.std.specs.Prelude.{◌≡◌, length};
ghost use Rattle.refusals.specs.Refusals.{outcome_number};
ghost use Rattle.block.specs.Block.{packing};
ghost use Rattle.unit.specs.Steps.{packs_reading, took, takes};

use lighting::Lighting;
use packing::pack;
use refusals::Refusal;
use sources::words::copy;

// The block of a lighting, all zero where it is off. A lighting that can't be packed leaves the block.
fn pack_reading(decoded: Option<Lighting>, block: &mut [u32]) -> Result<(), Refusal>
    requires { length block.old ≡ 328 }
    ensures { packing (outcome_number result) block.new ≡ packs_reading decoded block.old }
{
    match decoded {
        None => {
            block.fill(0);
            Ok(())
        }
        Some(lighting) => pack(lighting, block),
    }
}

// The copy takes the block of a lighting and, if they are of another generation, the tables. Refused, it stays as it is.
pub(crate) fn take(
    decoded: Option<Lighting>,
    tables: &[u32],
    generation: u64,
    block: &mut [u32],
    copied: &mut [u32],
    age: u64,
) -> Result<(), Refusal>
    requires { (length tables.now ≡ 12288) × (length block.old ≡ 328) × (length copied.old ≡ 12288) }
    ensures { took (outcome_number result) block.new copied.new ≡ takes decoded tables.now generation block.old copied.old age }
{
    pack_reading(decoded, block)?;
    if generation != age {
        copy(copied, tables);
    }
    Ok(())
}
