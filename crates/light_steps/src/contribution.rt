// A light's contribution to the sums of a fragment.
ghost use Rattle.std.specs.Prelude.{◌≡◌, false, cond};
ghost use Rattle.light_steps.specs.Steps.{unread, shadow_for, added_of, summed_of, with_terms, with_values};

use crate::facing::facing_of;
use crate::types::{Settings, Sums, Values};
use crate::{terms, values};
use lighting::Light;
use surface::Directions;

#[inline(always)]
#[tactic(auto, unfolding(crate::specs::Steps::shadow_for))]
fn shadow_for(shadowed: bool, shadow: [f32; 4]) -> [f32; 3]
    ensures { result ≡ shadow_for shadowed shadow }
{
    if shadowed {
        [shadow[0], shadow[1], shadow[2]]
    } else {
        [1.0, 1.0, 1.0]
    }
}

#[inline(always)]
#[tactic(auto, unfolding(crate::specs::Steps::added_of))]
fn added(sum: [f32; 4], terms: [f32; 3], shadow: [f32; 3], alpha: f32) -> [f32; 4]
    ensures { result ≡ added_of sum terms shadow alpha }
{
    [
        sum[0] + terms[0] * shadow[0],
        sum[1] + terms[1] * shadow[1],
        sum[2] + terms[2] * shadow[2],
        alpha,
    ]
}

// What an alpha is after a light. It is taken from two by its place: the compiler would branch on `applied`, which is another in the last slot alone.
#[inline(always)]
fn alpha_after(applied: bool, before: f32, fresnel: f32) -> f32
    ensures { result ≡ cond applied fresnel before }
{
    let alphas = [before, fresnel];
    alphas[applied as usize]
}

// A sum with a light's terms. Fresnel takes the place of alpha where it is applied.
#[inline(always)]
#[tactic(auto, unfolding(crate::specs::Steps::summed_of))]
fn summed(
    sum: [f32; 4],
    terms: [f32; 3],
    shadowed: bool,
    shadow: [f32; 4],
    applied: bool,
    fresnel: f32,
) -> [f32; 4]
    ensures { result ≡ summed_of sum terms shadowed shadow applied fresnel }
{
    let factors = shadow_for(shadowed, shadow);
    added(sum, terms, factors, alpha_after(applied, sum[3], fresnel))
}

// Both sums with a light's terms. `applied` says whether fresnel is. A light that no shadow falls on has a way of its own: its factors are the constant 1, and
// the compiler leaves the products out.
#[inline(always)]
fn with_terms(
    sums: Sums,
    diffuse: [f32; 3],
    specular: [f32; 3],
    shadowed: bool,
    settings: Settings,
    applied: bool,
    fresnel: f32,
) -> Sums
    ensures { result ≡ with_terms sums diffuse specular shadowed settings applied fresnel }
{
    let primary = settings.shadow_primary && shadowed;
    let secondary = settings.shadow_secondary && shadowed;
    let sets_primary = applied && settings.fresnel_primary;
    let sets_secondary = applied && settings.fresnel_secondary;
    if primary || secondary {
        return Sums {
            diffuse: summed(
                sums.diffuse,
                diffuse,
                primary,
                settings.shadow,
                sets_primary,
                fresnel,
            ),
            specular: summed(
                sums.specular,
                specular,
                secondary,
                settings.shadow,
                sets_secondary,
                fresnel,
            ),
        };
    }
    Sums {
        diffuse: summed(
            sums.diffuse,
            diffuse,
            false,
            settings.shadow,
            sets_primary,
            fresnel,
        ),
        specular: summed(
            sums.specular,
            specular,
            false,
            settings.shadow,
            sets_secondary,
            fresnel,
        ),
    }
}

// Both sums with a light's contribution, from its values.
#[inline(always)]
#[tactic(auto, unfolding(crate::specs::Steps::with_values, crate::specs::Steps::with_values_by))]
pub(crate) fn with_values(
    sums: Sums,
    light: Light,
    normal: [f32; 3],
    directions: Directions,
    values: Values,
    settings: Settings,
    applied: bool,
) -> Sums
    ensures { result ≡ with_values sums light normal directions values settings applied }
{
    let facing = facing_of(
        light.two_sided,
        vectors::dot(directions.light_vector, normal),
    );
    let diffuse = terms::diffuse(light, facing, values.distance, values.spot);
    let specular = terms::specular(
        light,
        directions.half,
        values,
        settings.clamp_highlights,
        facing,
    );
    with_terms(
        sums,
        diffuse,
        specular,
        light.shadowed,
        settings,
        applied,
        values.fresnel,
    )
}

// The same for a light that reads no table but its distance table: every other value is 1 and fresnel is not applied, and the compiler leaves the products and
// the alphas out. It would leave them in if this called `with_values`, which is too long to be inlined for two callers: so its lines stand twice.
#[inline(always)]
#[tactic(auto, unfolding(crate::specs::Steps::with_values, crate::specs::Steps::with_values_by))]
pub(crate) fn with_unread(
    sums: Sums,
    light: Light,
    normal: [f32; 3],
    directions: Directions,
    distance: f32,
    settings: Settings,
) -> Sums
    ensures { result ≡ with_values sums light normal directions (unread distance) settings false }
{
    let values = values::unread(distance);
    let facing = facing_of(
        light.two_sided,
        vectors::dot(directions.light_vector, normal),
    );
    let diffuse = terms::diffuse(light, facing, values.distance, values.spot);
    let specular = terms::specular(
        light,
        directions.half,
        values,
        settings.clamp_highlights,
        facing,
    );
    with_terms(
        sums,
        diffuse,
        specular,
        light.shadowed,
        settings,
        false,
        values.fresnel,
    )
}
