// The ray to a light, and the directions that it gives: toward the light, and half between the light and the view.
ghost use Rattle.std.specs.Prelude.{◌≡◌};
ghost use Rattle.root.specs.Root.{root_of};
ghost use Rattle.vectors.specs.Vectors.{dot_of};
ghost use Rattle.surface.specs.Steps.{half_of, directions_by, ray_to};

use crate::{Directions, Frame, Ray};
use lighting::Light;

#[inline(always)]
fn norm(v: [f32; 3]) -> f32
    ensures { result ≡ root_of (dot_of v v) }
{
    root::root(vectors::dot(v, v))
}

// Each sum, root and quotient stands in the branch that needs it: so the compiler works none of them out for a directional light.
#[inline(always)]
#[tactic(auto, unfolding(crate::specs::Steps::ray_to, crate::specs::Steps::norm_if, crate::specs::Steps::light_vector, lighting::specs::Lighting::is_scaled, vectors::specs::Vectors::normalized_of))]
pub fn ray_to(light: Light, view: [f32; 3]) -> Ray
    ensures { result ≡ ray_to light view }
{
    if light.directional {
        let norm = if light.distance.is_some() {
            norm(vectors::plus(light.position, view))
        } else {
            0.0
        };
        return Ray {
            vector: light.direction,
            norm,
        };
    }
    let offset = vectors::plus(light.position, view);
    let norm = norm(offset);
    Ray {
        vector: vectors::over(offset, norm),
        norm,
    }
}

#[inline(always)]
#[tactic(auto, unfolding(crate::specs::Steps::half_of))]
fn half(needed: bool, view: [f32; 3], light: [f32; 3]) -> [f32; 3]
    ensures { result ≡ half_of needed view light }
{
    if needed {
        vectors::plus(view, light)
    } else {
        [0.0, 0.0, 0.0]
    }
}

#[inline(always)]
pub fn directions_of(vector: [f32; 3], frame: Frame, needed: bool) -> Directions
    ensures { result ≡ directions_by vector frame needed }
{
    Directions {
        light_vector: vector,
        half: half(needed, frame.norm_view, vector),
    }
}
