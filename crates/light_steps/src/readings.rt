// Where one light reads its lookups. The reading itself is not here, since a caller may have the tables as words or as bytes.
ghost use Rattle.std.specs.Prelude.{◌≡◌};
ghost use Rattle.light_steps.specs.Steps.{spot_reading, fresnel_reading, readings_by, readings_of};

use crate::inputs;
use crate::places::{reading_by, reading_if, table_for};
use crate::types::{LightingLookups, Reading, Readings};
use lighting::tables::{
    DISTRIBUTION0, DISTRIBUTION1, FRESNEL, REFLECT_BLUE, REFLECT_GREEN, REFLECT_RED, SPOTLIGHT,
};
use lighting::{Light, Lookup, TableLookups};
use surface::{Directions, Frame};

#[inline(always)]
#[tactic(auto, unfolding(crate::specs::Steps::spot_reading))]
fn spot_reading(light: Light, lookup: Lookup, inputs: [f32; 8]) -> Option<Reading>
    ensures { result ≡ spot_reading light lookup inputs }
{
    if light.spotlight {
        let table = table_for(SPOTLIGHT, light.number);
        Some(reading_by(table, lookup, light.two_sided, inputs))
    } else {
        None
    }
}

// Only the last slot lit reads fresnel.
#[inline(always)]
#[tactic(auto, unfolding(crate::specs::Steps::fresnel_reading))]
fn fresnel_reading(
    last: bool,
    lookup: Option<Lookup>,
    twosided: bool,
    inputs: [f32; 8],
) -> Option<Reading>
    ensures { result ≡ fresnel_reading last lookup twosided inputs }
{
    if last {
        reading_if(FRESNEL, lookup, twosided, inputs)
    } else {
        None
    }
}

#[inline(always)]
#[tactic(auto, unfolding(crate::specs::Steps::readings_by))]
fn readings_by(lookups: TableLookups, light: Light, inputs: [f32; 8], last: bool) -> Readings
    ensures { result ≡ readings_by lookups light inputs last }
{
    let twosided = light.two_sided;
    Readings {
        spot: spot_reading(light, lookups.spotlight, inputs),
        distribution0: reading_if(DISTRIBUTION0, lookups.distribution0, twosided, inputs),
        red: reading_if(REFLECT_RED, lookups.reflect_red, twosided, inputs),
        green: reading_if(REFLECT_GREEN, lookups.reflect_green, twosided, inputs),
        blue: reading_if(REFLECT_BLUE, lookups.reflect_blue, twosided, inputs),
        distribution1: reading_if(DISTRIBUTION1, lookups.distribution1, twosided, inputs),
        fresnel: fresnel_reading(last, lookups.fresnel, twosided, inputs),
    }
}

#[inline(always)]
#[tactic(auto, unfolding(crate::specs::Steps::readings_of))]
pub(crate) fn readings_of(
    lookups: LightingLookups,
    frame: Frame,
    directions: Directions,
    light: Light,
    last: bool,
) -> Readings
    ensures { result ≡ readings_of lookups frame directions light last }
{
    let inputs = inputs::inputs_of(
        lookups.config,
        frame,
        directions,
        lookups.needs_half,
        light.spot,
    );
    readings_by(lookups.tables, light, inputs, last)
}
