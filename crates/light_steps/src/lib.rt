// What one light adds to a fragment's sums. To be read in the order of the data: `facing` is how much a surface faces the light, `inputs` has the dot products,
// `places` where one lookup is read, `distance` and `readings` where all are, `entries` what stands there; `values` makes of the entries what the lookups say, `terms` the light's terms of
// them, `contribution` the sums with these. `types` is what one step passes to the next.
#![tactic(auto)]

mod contribution;
mod distance;
mod entries;
mod facing;
mod inputs;
mod places;
mod readings;
mod terms;
pub mod types;
mod values;

ghost use Rattle.std.specs.Prelude.{◌≡◌, ◌<◌, map};
ghost use Rattle.light_steps.specs.Steps.{distance_reading_by, read_value, distance_reading, values_of, unread_directions, step_of};

use crate::types::{LightingLookups, Settings, Sums, Values};
use lighting::Light;
use sources::words::Word;
use surface::{Directions, Frame};

// What a light whose ray has this norm reads from its distance table.
#[inline(always)]
fn distance_of<W: Word>(tables: &[W; 12288], light: Light, norm: f32) -> f32
    ensures { result ≡ read_value (map W.value tables.now) (distance_reading_by light.distance light.number norm) }
{
    entries::read(tables, distance::distance_reading(light, norm))
}

// What a light reads from the tables, given its distance.
#[inline(always)]
#[tactic(auto, using(crate::specs::ReadingsLaws::read_in_steps))]
fn values_of<W: Word>(
    tables: &[W; 12288],
    lookups: LightingLookups,
    frame: Frame,
    directions: Directions,
    distance: f32,
    light: Light,
    last: bool,
) -> Values
    requires { (light.number.0 < 8) × (distance ≡ read_value (map W.value tables.now) (distance_reading light frame.view)) }
    ensures { result ≡ values_of (map W.value tables.now) lookups frame directions light last }
{
    let readings = readings::readings_of(lookups, frame, directions, light, last);
    let read = entries::read_all(tables, readings, distance);
    values::values_from(lookups.tables, light, read, last)
}

// The directions of a light without tables, of which only a geometric factor reads the half vector: made in that branch, it is worked out for such a light
// alone.
#[inline(always)]
#[tactic(auto, unfolding(crate::specs::Steps::unread_directions))]
fn unread_directions(light: Light, vector: [f32; 3], frame: Frame, needed: bool) -> Directions
    ensures { result ≡ unread_directions light vector frame needed }
{
    if light.geometric0 || light.geometric1 {
        surface::light::directions_of(vector, frame, needed)
    } else {
        Directions {
            light_vector: vector,
            half: [0.0, 0.0, 0.0],
        }
    }
}

// The sums with one light's contribution. `last` is the last slot lit, where fresnel is applied if there is its lookup.
// Asks: a light number below 8, which the caller has looked at once for all its lights and fragments.
#[inline(always)]
#[tactic(auto, using(crate::proofs::Rays::directions_is, crate::proofs::Rays::distance_is, crate::proofs::Rays::unread_is, crate::specs::ReadingsLaws::read_none, crate::specs::ReadingsLaws::none_applied), unfolding(crate::specs::Steps::step_of))]
pub fn step<W: Word>(
    tables: &[W; 12288],
    lookups: LightingLookups,
    frame: Frame,
    settings: Settings,
    last: bool,
    light: Light,
    sums: Sums,
) -> Sums
    requires { light.number.0 < 8 }
    ensures { result ≡ step_of (map W.value tables.now) lookups frame settings last light sums }
{
    let ray = surface::light::ray_to(light, frame.view);
    let distance = distance_of(tables, light, ray.norm);
    if values::reads_tables(lookups.tables, light) {
        let directions = surface::light::directions_of(ray.vector, frame, lookups.needs_half);
        let applied = values::applies_fresnel(lookups.tables, last);
        let values = values_of(tables, lookups, frame, directions, distance, light, last);
        contribution::with_values(
            sums,
            light,
            frame.normal,
            directions,
            values,
            settings,
            applied,
        )
    } else {
        let directions = unread_directions(light, ray.vector, frame, lookups.needs_half);
        contribution::with_unread(sums, light, frame.normal, directions, distance, settings)
    }
}
