// The inputs of the lookups, by their numbers.
ghost use Rattle.std.specs.Prelude.{◌≡◌};
ghost use Rattle.light_steps.specs.Steps.{along_tangent, inputs_of};

use surface::{Directions, Frame};

#[inline(always)]
#[tactic(auto, unfolding(crate::specs::Steps::along_tangent))]
fn along_tangent(config: u32, normal: [f32; 3], tangent: [f32; 3], half: [f32; 3]) -> f32
    ensures { result ≡ along_tangent config normal tangent half }
{
    if config == 8 {
        let along = vectors::times(normal, vectors::dot(normal, half));
        vectors::dot(vectors::minus(half, along), tangent)
    } else {
        0.0
    }
}

#[inline(always)]
#[tactic(auto, unfolding(crate::specs::Steps::inputs_by, crate::specs::Steps::inputs_of))]
pub(crate) fn inputs_of(
    config: u32,
    frame: Frame,
    directions: Directions,
    needed: bool,
    spot: [f32; 3],
) -> [f32; 8]
    ensures { result ≡ inputs_of config frame directions needed spot }
{
    let half_unit = surface::unit_if(needed, directions.half);
    [
        vectors::dot(frame.normal, half_unit),
        vectors::dot(frame.norm_view, half_unit),
        vectors::dot(frame.normal, frame.norm_view),
        vectors::dot(directions.light_vector, frame.normal),
        vectors::dot(directions.light_vector, spot),
        along_tangent(config, frame.normal, frame.tangent, half_unit),
        0.0,
        0.0,
    ]
}
