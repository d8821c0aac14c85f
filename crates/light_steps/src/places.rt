// Where a lookup is read: the table, the entry, and how far past it.
ghost use Rattle.std.specs.Prelude.{◌≡◌, ◌≤◌};
ghost use Rattle.light_steps.specs.Steps.{place_of, input_of, table_for, reading_by, reading_if};

use crate::facing::facing_of;
use crate::types::Reading;
use binary32::Place;
use lighting::{LightNumber, Lookup};

#[inline(always)]
#[tactic(auto, unfolding(crate::specs::Steps::input_of))]
fn input_of(lookup: Lookup, inputs: [f32; 8]) -> f32
    ensures { result ≡ input_of lookup inputs }
{
    inputs.get(lookup.input as usize).copied().unwrap_or(0.0)
}

#[inline(always)]
#[tactic(auto, unfolding(crate::specs::Steps::place_of))]
fn place_of(absolute: bool, twosided: bool, x: f32) -> Place
    ensures { result ≡ place_of absolute twosided x }
{
    if absolute {
        binary32::places::unsigned_place(facing_of(twosided, x))
    } else {
        binary32::places::signed_place(x)
    }
}

// The table of a light's number, of eight tables from `first` on.
#[inline(always)]
#[tactic(auto, unfolding(crate::specs::Steps::table_for))]
pub(crate) fn table_for(first: u32, number: LightNumber) -> u32
    requires { first ≤ 16 }
    ensures { result ≡ table_for first number }
{
    first + (number.0 % 8) as u32
}

#[inline(always)]
#[tactic(auto, unfolding(crate::specs::Steps::reading_by))]
pub(crate) fn reading_by(table: u32, lookup: Lookup, twosided: bool, inputs: [f32; 8]) -> Reading
    ensures { result ≡ reading_by table lookup twosided inputs }
{
    Reading {
        table,
        place: place_of(lookup.absolute, twosided, input_of(lookup, inputs)),
    }
}

#[inline(always)]
#[tactic(auto, unfolding(crate::specs::Steps::reading_if))]
pub(crate) fn reading_if(
    table: u32,
    lookup: Option<Lookup>,
    twosided: bool,
    inputs: [f32; 8],
) -> Option<Reading>
    ensures { result ≡ reading_if table lookup twosided inputs }
{
    Some(reading_by(table, lookup?, twosided, inputs))
}
