// How each table of a draw is read.
ghost use Rattle.std.specs.Prelude.{◌≡◌, ◌<◌};
ghost use Rattle.decoding.specs.Read.{scale_of, lookup as lookup_of, table as table_of};
ghost use Rattle.decoding.specs.Steps.{lookups_of};

use crate::RegisterFile;
use crate::configuration::{configuration, supported};
use crate::registers::{
    REG_CONFIG1, REG_TABLE_ABSOLUTE, REG_TABLE_INPUT, REG_TABLE_SCALE, bits, flag, register,
};
use lighting::tables::{
    DISTRIBUTION0, DISTRIBUTION1, FRESNEL, REFLECT_BLUE, REFLECT_GREEN, REFLECT_RED,
};
use lighting::{Lookup, TableLookups};

// What the scale codes mean.
const SCALES: [f32; 8] = [1.0, 2.0, 4.0, 8.0, 0.0, 0.0, 0.25, 0.5];

fn scale(code: u32) -> f32
    requires { code < 8 }
    ensures { result ≡ scale_of code }
{
    SCALES[code as usize]
}

// Each table's input, absolute bit and scale sit four bits apart; the absolute bit is a disable bit one above.
#[tactic(auto, unfolding(crate::specs::Read::lookup))]
fn lookup(file: &RegisterFile, field: u32) -> Lookup
    requires { field < 7 }
    ensures { result ≡ lookup_of file.now field }
{
    Lookup {
        input: bits(register(file, REG_TABLE_INPUT), field * 4, 3),
        absolute: !flag(register(file, REG_TABLE_ABSOLUTE), field * 4 + 1),
        scale: scale(bits(register(file, REG_TABLE_SCALE), field * 4, 3)),
    }
}

// The lookup of a table that its bit of 1C4 doesn't disable and the configuration has room for.
#[tactic(auto, unfolding(crate::specs::Read::table))]
fn table(file: &RegisterFile, table: u32, disabled: u32, field: u32) -> Option<Lookup>
    requires { field < 7 }
    ensures { result ≡ table_of file.now table disabled field }
{
    if !flag(register(file, REG_CONFIG1), disabled) & supported(configuration(file), table) {
        Some(lookup(file, field))
    } else {
        None
    }
}

// The tables of a draw.
#[tactic(auto, unfolding(crate::specs::Steps::lookups_of))]
pub(crate) fn lookups(file: &RegisterFile) -> TableLookups
    ensures { result ≡ lookups_of file.now }
{
    TableLookups {
        distribution0: table(file, DISTRIBUTION0, 16, 0),
        distribution1: table(file, DISTRIBUTION1, 17, 1),
        fresnel: table(file, FRESNEL, 19, 3),
        reflect_red: table(file, REFLECT_RED, 20, 6),
        reflect_green: table(file, REFLECT_GREEN, 21, 5),
        reflect_blue: table(file, REFLECT_BLUE, 22, 4),
        spotlight: lookup(file, 2),
    }
}
