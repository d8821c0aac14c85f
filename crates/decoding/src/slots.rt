// How many lights are on, and which light each slot holds.
ghost use Rattle.std.specs.Prelude.{◌≡◌, ◌<◌};
ghost use Rattle.decoding.specs.Read.{light_count, light_number};

use crate::RegisterFile;
use crate::registers::{REG_LIGHT_COUNT, REG_LIGHT_SLOTS, bits, register};
use lighting::{LightNumber, Slot};

#[tactic(auto, unfolding(crate::specs::Read::light_count))]
pub(crate) fn light_count(file: &RegisterFile) -> usize
    ensures { result ≡ light_count file.now }
{
    bits(register(file, REG_LIGHT_COUNT), 0, 3) as usize + 1
}

// Which light a slot holds.
#[tactic(auto, unfolding(crate::specs::Read::light_number))]
pub(crate) fn light_number(file: &RegisterFile, slot: Slot) -> LightNumber
    requires { slot.0 < 8 }
    ensures { result ≡ light_number file.now slot }
{
    LightNumber(bits(register(file, REG_LIGHT_SLOTS), slot.0 as u32 * 4, 3) as usize)
}
