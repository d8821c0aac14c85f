// The terms of one light: what it adds to the diffuse and to the specular sum, before any shadow.
ghost use Rattle.std.specs.Prelude.{◌≡◌};
ghost use Rattle.light_steps.specs.Steps.{diffuse_of, times_if, reflected_of, specular_by, specular_of};

use crate::facing::{factor_by, highlights_of};
use crate::types::Values;
use lighting::Light;

#[inline(always)]
#[tactic(auto, unfolding(crate::specs::Steps::diffuse_of))]
pub(crate) fn diffuse(light: Light, facing: f32, distance: f32, spot: f32) -> [f32; 3]
    ensures { result ≡ diffuse_of light facing distance spot }
{
    [
        (light.diffuse[0] * facing + light.ambient[0]) * distance * spot,
        (light.diffuse[1] * facing + light.ambient[1]) * distance * spot,
        (light.diffuse[2] * facing + light.ambient[2]) * distance * spot,
    ]
}

#[inline(always)]
#[tactic(auto, unfolding(crate::specs::Steps::times_if))]
fn times_if(geometric: bool, v: [f32; 3], factor: f32) -> [f32; 3]
    ensures { result ≡ times_if geometric v factor }
{
    if geometric {
        vectors::times(v, factor)
    } else {
        v
    }
}

#[inline(always)]
#[tactic(auto, unfolding(crate::specs::Steps::reflected_of))]
fn reflected(specular: [f32; 3], values: Values) -> [f32; 3]
    ensures { result ≡ reflected_of specular values }
{
    [
        values.distribution1 * values.red * specular[0],
        values.distribution1 * values.green * specular[1],
        values.distribution1 * values.blue * specular[2],
    ]
}

#[inline(always)]
#[tactic(auto, unfolding(crate::specs::Steps::specular_by))]
fn specular_by(
    first: [f32; 3],
    second: [f32; 3],
    highlights: f32,
    distance: f32,
    spot: f32,
) -> [f32; 3]
    ensures { result ≡ specular_by first second highlights distance spot }
{
    [
        (first[0] + second[0]) * highlights * distance * spot,
        (first[1] + second[1]) * highlights * distance * spot,
        (first[2] + second[2]) * highlights * distance * spot,
    ]
}

// A light with neither geometric flag has a way of its own: so the compiler works out no factor and no product with it.
#[inline(always)]
#[tactic(auto, unfolding(crate::specs::Steps::specular_of, crate::specs::Steps::specular0_of, crate::specs::Steps::specular1_of, crate::specs::Steps::factor_of, crate::specs::Steps::times_if))]
pub(crate) fn specular(
    light: Light,
    half: [f32; 3],
    values: Values,
    clamp: bool,
    facing: f32,
) -> [f32; 3]
    ensures { result ≡ specular_of light half values clamp facing }
{
    let highlights = highlights_of(clamp, facing);
    let specular0 = vectors::times(light.specular0, values.distribution0);
    let specular1 = reflected(light.specular1, values);
    if light.geometric0 || light.geometric1 {
        let factor = factor_by(facing, vectors::dot(half, half));
        let specular0 = times_if(light.geometric0, specular0, factor);
        let specular1 = times_if(light.geometric1, specular1, factor);
        return specular_by(
            specular0,
            specular1,
            highlights,
            values.distance,
            values.spot,
        );
    }
    specular_by(
        specular0,
        specular1,
        highlights,
        values.distance,
        values.spot,
    )
}
