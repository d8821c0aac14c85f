// Which lightings are packed, and shaded: those in range whose words are well formed.
ghost use Rattle.std.specs.Prelude.{T, ◌≡◌, ◌≤◌};
ghost use Rattle.std.specs.Float.{binary32};
ghost use Rattle.std.specs.Float.Ieee.{fits};
ghost use Rattle.block.specs.Block.{accepted};
ghost use Rattle.lighting.specs.Lighting.{numbers_fit, in_range};
ghost use Rattle.lighting.specs.Claims.{LightFits, DistanceFits, LookupFits, LightsFit, LightingFits};
ghost use Rattle.block.specs.Steps.{lookup_acceptable, optional_lookup_acceptable};
ghost use Rattle.vectors.specs.Claims.{Vector};

use lighting::{Distance, Light, Lighting, Lookup, bump_unit, shadow_unit};

// Whether no lit light's number is above 7.
fn numbers_fit(l: Lighting) -> bool
    requires { l.light_count ≤ 8 }
    ensures { result ≡ numbers_fit l }
{
    l.lights[..l.light_count]
        .iter()
        .all(|light| light.number.0 <= 7)
}

#[tactic(auto, unfolding(lighting::specs::Lighting::in_range))]
fn in_range(l: Lighting) -> bool
    ensures { result ≡ in_range l }
{
    bump_unit(l.bump) <= 3
        && shadow_unit(l.shadow) <= 3
        && (1..=8).contains(&l.light_count)
        && numbers_fit(l)
}

#[tactic(auto, unfolding(crate::specs::Steps::lookup_acceptable))]
fn lookup_acceptable(l: Lookup) -> bool
    ensures { result ≡ lookup_acceptable l }
{
    (l.input < 8) & crate::scale_formed(binary32::word_of(l.scale))
}

#[tactic(auto, unfolding(crate::specs::Steps::optional_lookup_acceptable))]
fn optional_lookup_acceptable(lookup: Option<Lookup>) -> bool
    ensures { result ≡ optional_lookup_acceptable lookup }
{
    match lookup {
        None => true,
        Some(l) => lookup_acceptable(l),
    }
}

// Nothing is done by the next seven: they say what the types hold, which a proof has from no other place.

fn float_fits(_x: f32)
    ensures { T (fits binary32 _x) }
{}

#[tactic(auto, using(crate::proofs::accepted::Cases::vector_made))]
fn vector_fits(v: [f32; 3])
    ensures { Vector v }
{
    float_fits(v[0]);
    float_fits(v[1]);
    float_fits(v[2]);
}

fn distance_fits(distance: Option<Distance>)
    ensures { DistanceFits distance }
{
    match distance {
        None => {}
        Some(distance) => {
            float_fits(distance.bias);
            float_fits(distance.scale);
        }
    }
}

fn lookup_fits(lookup: Option<Lookup>)
    ensures { LookupFits lookup }
{
    match lookup {
        None => {}
        Some(l) => float_fits(l.scale),
    }
}

fn light_fits(l: Light)
    ensures { LightFits l }
{
    vector_fits(l.specular0);
    vector_fits(l.specular1);
    vector_fits(l.diffuse);
    vector_fits(l.ambient);
    vector_fits(l.position);
    vector_fits(l.direction);
    vector_fits(l.spot);
    distance_fits(l.distance);
}

fn lights_fit(l: Lighting)
    ensures { LightsFit l }
{
    for slot in 0..8 {
        light_fits(l.lights[slot]);
    }
}

fn lighting_fits(l: Lighting)
    ensures { LightingFits l }
{
    lights_fit(l);
    vector_fits(l.global_ambient);
    lookup_fits(l.distribution0);
    lookup_fits(l.distribution1);
    lookup_fits(l.fresnel);
    lookup_fits(l.reflect_red);
    lookup_fits(l.reflect_green);
    lookup_fits(l.reflect_blue);
}

// Whether a lighting is one that `pack` accepts: in range, and of words that would be well formed.
#[tactic(auto, using(crate::proofs::AcceptedLaws::accepted_is), unfolding(crate::specs::Steps::acceptable))]
pub fn acceptable(l: Lighting) -> bool
    ensures { result ≡ accepted l }
{
    lighting_fits(l);
    (l.config < 16)
        & optional_lookup_acceptable(l.distribution0)
        & optional_lookup_acceptable(l.distribution1)
        & optional_lookup_acceptable(l.fresnel)
        & optional_lookup_acceptable(l.reflect_red)
        & optional_lookup_acceptable(l.reflect_green)
        & optional_lookup_acceptable(l.reflect_blue)
        & lookup_acceptable(l.spotlight)
        & (!l.needs_half | l.needs_view)
        & in_range(l)
}
