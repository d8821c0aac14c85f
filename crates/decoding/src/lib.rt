// From a register file to the lighting of a draw, or off. To be read in the order of the data: `registers` has a file's words and their bits, `configuration` which tables
// there is room for, `slots` which light each slot holds, `light_fields` and `lights` a light, `table_lookups` how each table is read, `bump_shadow`, `needs` what half and
// view are needed for, `register_lighting` all of it; `registers_read` the words that are kept of a file.
#![tactic(auto)]

mod bump_shadow;
mod configuration;
mod light_fields;
mod lights;
mod needs;
mod register_lighting;
mod registers;
pub mod registers_read;
mod slots;
mod table_lookups;

ghost use Rattle.std.specs.Prelude.{◌≡◌, ◌≤◌, ◌<◌, length, take, IsSome, Some, is_some, MatchResult};
ghost use Rattle.refusals.specs.Refusals.{number_of, file_refusal};
ghost use Rattle.decoding.specs.Read.{read as read_of, file_read, file_read_of};

use crate::register_lighting::lighting;
use crate::registers::{REG_DISABLE, REG_ENABLE, flag, register};
use lighting::Lighting;
use refusals::Refusal;

// A register file's words as far as there are registers, those that are read being among them.
pub type RegisterFile = [u32; 474];

// The first words of a file, which must be as many as there are registers.
pub fn registers_of(file: &[u32]) -> Result<&RegisterFile, Refusal>
    ensures { MatchResult result (λ words. (474 ≤ length file.now) × (words.now ≡ take 474 file.now)) (λ refusal. (length file.now < 474) × (number_of refusal ≡ file_refusal (length file.now))) }
{
    file.first_chunk().ok_or(Refusal::ShortFile)
}

// Whether the registers set up a lighting.
pub fn registers_on(file: &RegisterFile) -> bool
    ensures { result ≡ is_some (read_of file.now) }
{
    flag(register(file, REG_ENABLE), 0) & !flag(register(file, REG_DISABLE), 0)
}

// The lighting of a register file that sets one up.
// Asks: that it does; whoever packs it at once has no use for an optional one.
pub fn lit_registers(file: &RegisterFile) -> Lighting
    requires { IsSome (read_of file.now) }
    ensures { read_of file.now ≡ Some result }
{
    lighting(file)
}

// The lighting of a register file, or none where it is off.
pub fn decode_registers(file: &RegisterFile) -> Option<Lighting>
    ensures { result ≡ read_of file.now }
{
    if registers_on(file) {
        Some(lighting(file))
    } else {
        None
    }
}

// The same of any words: a file too short to hold a register is taken to hold 0 there.
pub fn decode(file: &[u32]) -> Option<Lighting>
    ensures { result ≡ read_of file.now }
{
    if let Some(words) = file.first_chunk() {
        return decode_registers(words);
    }
    let mut words = [0; 474];
    words[..file.len()].copy_from_slice(file);
    decode_registers(&words)
}

pub fn read(file: &[u32]) -> Result<Option<Lighting>, Refusal>
    ensures { file_read_of result ≡ file_read file.now }
{
    Ok(decode_registers(registers_of(file)?))
}
