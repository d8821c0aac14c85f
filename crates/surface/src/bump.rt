// The surface before it is turned: the normal and the tangent that a texel gives.
ghost use Rattle.std.specs.Prelude.{◌≡◌};
ghost use Rattle.surface.specs.Steps.{perturbed as perturbed_of, rebuilt_z, rebuilt as rebuilt_of, surface_normal, surface_tangent};

use lighting::Bump;

#[inline(always)]
fn perturbed(t: [f32; 4]) -> [f32; 3]
    ensures { result ≡ perturbed_of t }
{
    [t[0] * 2.0 - 1.0, t[1] * 2.0 - 1.0, t[2] * 2.0 - 1.0]
}

#[inline(always)]
#[tactic(auto, unfolding(crate::specs::Steps::rebuilt_z))]
fn rebuilt_z(n: [f32; 3]) -> f32
    ensures { result ≡ rebuilt_z n }
{
    root::root(binary32::order::positive(1.0 - (n[0] * n[0] + n[1] * n[1])))
}

#[inline(always)]
#[tactic(auto, unfolding(crate::specs::Steps::rebuilt))]
fn rebuilt(rebuild: bool, n: [f32; 3]) -> [f32; 3]
    ensures { result ≡ rebuilt_of rebuild n }
{
    if rebuild {
        [n[0], n[1], rebuilt_z(n)]
    } else {
        n
    }
}

// From the texel of the bump's unit.
#[inline(always)]
#[tactic(auto, unfolding(crate::specs::Steps::surface_normal))]
pub(crate) fn surface_normal(bump: Bump, texel: [f32; 4]) -> [f32; 3]
    ensures { result ≡ surface_normal bump texel }
{
    match bump {
        Bump::Flat | Bump::Tangent(_) => [0.0, 0.0, 1.0],
        Bump::Normal(_, rebuild) => rebuilt(rebuild, perturbed(texel)),
    }
}

// From the texel of the bump's unit.
#[inline(always)]
#[tactic(auto, unfolding(crate::specs::Steps::surface_tangent))]
pub(crate) fn surface_tangent(bump: Bump, texel: [f32; 4]) -> [f32; 3]
    ensures { result ≡ surface_tangent bump texel }
{
    match bump {
        Bump::Flat | Bump::Normal(_, _) => [1.0, 0.0, 0.0],
        Bump::Tangent(_) => perturbed(texel),
    }
}
