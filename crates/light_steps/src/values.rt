// The values that a light takes from its lookups: whether it reads any table, and what is made of the entries that were read.
ghost use Rattle.std.specs.Prelude.{◌≡◌, ◌&&◌, is_some};
ghost use Rattle.light_steps.specs.Steps.{reads_tables, scaled_if, spot_scaled, fresnel_scaled, values_from, unread as unread_of};

use crate::types::Values;
use lighting::{Light, Lookup, TableLookups};

// Whether a light reads any table but its distance table.
#[inline(always)]
#[tactic(auto, unfolding(crate::specs::Steps::reads_tables))]
pub(crate) fn reads_tables(lookups: TableLookups, light: Light) -> bool
    ensures { result ≡ reads_tables lookups light }
{
    lookups.distribution0.is_some()
        || lookups.distribution1.is_some()
        || lookups.fresnel.is_some()
        || lookups.reflect_red.is_some()
        || lookups.reflect_green.is_some()
        || lookups.reflect_blue.is_some()
        || light.spotlight
}

// Whether fresnel is applied: in the last slot lit, if there is its lookup.
#[inline(always)]
pub(crate) fn applies_fresnel(lookups: TableLookups, last: bool) -> bool
    ensures { result ≡ (last && is_some lookups.fresnel) }
{
    last && lookups.fresnel.is_some()
}

#[inline(always)]
#[tactic(auto, unfolding(crate::specs::Steps::scaled_if))]
fn scaled_if(lookup: Option<Lookup>, x: f32, missing: f32) -> f32
    ensures { result ≡ scaled_if lookup x missing }
{
    lookup.map_or(missing, |lookup| lookup.scale * x)
}

#[inline(always)]
#[tactic(auto, unfolding(crate::specs::Steps::spot_scaled))]
fn spot_scaled(light: Light, lookup: Lookup, x: f32) -> f32
    ensures { result ≡ spot_scaled light lookup x }
{
    if light.spotlight {
        lookup.scale * x
    } else {
        1.0
    }
}

#[inline(always)]
#[tactic(auto, unfolding(crate::specs::Steps::fresnel_scaled))]
fn fresnel_scaled(last: bool, lookup: Option<Lookup>, x: f32) -> f32
    ensures { result ≡ fresnel_scaled last lookup x }
{
    if last { scaled_if(lookup, x, 1.0) } else { 1.0 }
}

// The values, from what the entries of the readings gave. Green and blue fall back to red.
#[inline(always)]
#[tactic(auto, unfolding(crate::specs::Steps::values_from))]
pub(crate) fn values_from(lookups: TableLookups, light: Light, read: Values, last: bool) -> Values
    ensures { result ≡ values_from lookups light read last }
{
    let red = scaled_if(lookups.reflect_red, read.red, 1.0);
    Values {
        distance: read.distance,
        spot: spot_scaled(light, lookups.spotlight, read.spot),
        distribution0: scaled_if(lookups.distribution0, read.distribution0, 1.0),
        red,
        green: scaled_if(lookups.reflect_green, read.green, red),
        blue: scaled_if(lookups.reflect_blue, read.blue, red),
        distribution1: scaled_if(lookups.distribution1, read.distribution1, 1.0),
        fresnel: fresnel_scaled(last, lookups.fresnel, read.fresnel),
    }
}

// The values of a light that reads no table but its distance table.
#[inline(always)]
#[tactic(auto, unfolding(crate::specs::Steps::unread))]
pub(crate) fn unread(distance: f32) -> Values
    ensures { result ≡ unread_of distance }
{
    Values {
        distance,
        spot: 1.0,
        distribution0: 1.0,
        red: 1.0,
        green: 1.0,
        blue: 1.0,
        distribution1: 1.0,
        fresnel: 1.0,
    }
}
