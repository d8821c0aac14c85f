// What every light sees of a fragment: the normal and the tangent, turned by the quaternion, and the view. Before it `shadow` and `bump` have what a texel gives, after it `light` has
// the ray to a light.
#![tactic(auto)]

mod bump;
pub mod light;
pub mod shadow;

ghost use Rattle.std.specs.Prelude.{◌≡◌};
ghost use Rattle.surface.specs.Steps.{quaternion_norm, unit_quaternion, tangent_of, unit_if, frame_by};

use lighting::Bump;

// What every light sees of the fragment: the surface's normal and tangent, turned by the quaternion,
// and the view with its unit vector.
#[derive(Clone, Copy)]
pub struct Frame {
    pub normal: [f32; 3],
    pub tangent: [f32; 3],
    pub view: [f32; 3],
    pub norm_view: [f32; 3],
}

// The ray from the fragment to a light: its unit vector, or a directional light's direction, and its norm where something reads that. The two share one root.
#[derive(Clone, Copy)]
pub struct Ray {
    pub vector: [f32; 3],
    pub norm: f32,
}

// The vector toward a light, and the half vector between it and the view.
#[derive(Clone, Copy)]
pub struct Directions {
    pub light_vector: [f32; 3],
    pub half: [f32; 3],
}

#[inline(always)]
#[tactic(auto, unfolding(crate::specs::Steps::quaternion_norm))]
fn quaternion_norm(q: [f32; 4]) -> f32
    ensures { result ≡ quaternion_norm q }
{
    root::root(q[0] * q[0] + q[1] * q[1] + q[2] * q[2] + q[3] * q[3])
}

// A norm that isn't above zero, or is NaN, gives 0, 0, 0, 1.
#[inline(always)]
#[tactic(auto, unfolding(crate::specs::Steps::quaternion_over, crate::specs::Steps::unit_quaternion))]
pub fn unit_quaternion(q: [f32; 4]) -> [f32; 4]
    ensures { result ≡ unit_quaternion q }
{
    let norm = quaternion_norm(q);
    if norm > 0.0 {
        [q[0] / norm, q[1] / norm, q[2] / norm, q[3] / norm]
    } else {
        [0.0, 0.0, 0.0, 1.0]
    }
}

// Only configuration 8 has a table that reads the tangent.
#[inline(always)]
#[tactic(auto, unfolding(crate::specs::Steps::tangent_of))]
fn tangent(config: u32, quaternion: [f32; 4], surface: [f32; 3]) -> [f32; 3]
    ensures { result ≡ tangent_of config quaternion surface }
{
    if config == 8 {
        vectors::rotation::rotate(quaternion, surface)
    } else {
        surface
    }
}

// A vector that nothing reads is left at zero.
#[inline(always)]
#[tactic(auto, unfolding(crate::specs::Steps::unit_if))]
pub fn unit_if(needed: bool, v: [f32; 3]) -> [f32; 3]
    ensures { result ≡ unit_if needed v }
{
    if needed {
        vectors::normalized(v)
    } else {
        [0.0, 0.0, 0.0]
    }
}

// From the texel of the bump's unit and the unit quaternion.
#[inline(always)]
pub fn frame_of(
    bump: Bump,
    texel: [f32; 4],
    config: u32,
    needed: bool,
    unit: [f32; 4],
    view: [f32; 3],
) -> Frame
    ensures { result ≡ frame_by bump texel config needed unit view }
{
    let normal = vectors::rotation::rotate(unit, bump::surface_normal(bump, texel));
    let tangent = tangent(config, unit, bump::surface_tangent(bump, texel));
    let norm_view = unit_if(needed, view);
    Frame {
        normal,
        tangent,
        view,
        norm_view,
    }
}
