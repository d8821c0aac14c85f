// Where a light's distance is read.
ghost use Rattle.std.specs.Prelude.{◌≡◌};
ghost use Rattle.light_steps.specs.Steps.{distance_place, distance_reading_by};

use crate::places::table_for;
use crate::types::Reading;
use binary32::Place;
use lighting::{Distance, Light};

#[inline(always)]
#[tactic(auto, unfolding(crate::specs::Steps::distance_place))]
fn distance_place(distance: Distance, norm: f32) -> Place
    ensures { result ≡ distance_place distance norm }
{
    binary32::places::unsigned_place(binary32::order::clamp(
        distance.scale * norm + distance.bias,
        0.0,
        1.0,
    ))
}

// Of a light whose ray has this norm.
#[inline(always)]
#[tactic(auto, unfolding(crate::specs::Steps::distance_reading_by))]
pub(crate) fn distance_reading(light: Light, norm: f32) -> Option<Reading>
    ensures { result ≡ distance_reading_by light.distance light.number norm }
{
    let place = distance_place(light.distance?, norm);
    Some(Reading {
        table: table_for(lighting::tables::DISTANCE, light.number),
        place,
    })
}
