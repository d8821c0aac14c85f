// How much a surface faces a light, and what follows from that: the highlights and the geometric factor.
ghost use Rattle.std.specs.Prelude.{◌≡◌};
ghost use Rattle.light_steps.specs.Steps.{facing_of, highlights_of, factor_by};

#[inline(always)]
#[tactic(auto, unfolding(crate::specs::Steps::facing_of))]
pub(crate) fn facing_of(twosided: bool, x: f32) -> f32
    ensures { result ≡ facing_of twosided x }
{
    if twosided {
        binary32::order::magnitude(x)
    } else {
        binary32::order::positive(x)
    }
}

#[inline(always)]
#[tactic(auto, unfolding(crate::specs::Steps::highlights_of))]
pub(crate) fn highlights_of(clamp: bool, facing: f32) -> f32
    ensures { result ≡ highlights_of clamp facing }
{
    if clamp && facing == 0.0 { 0.0 } else { 1.0 }
}

// The geometric factor, from the dot of the half vector with itself.
#[inline(always)]
#[tactic(auto, unfolding(crate::specs::Steps::factor_by))]
pub(crate) fn factor_by(facing: f32, squared: f32) -> f32
    ensures { result ≡ factor_by facing squared }
{
    if squared == 0.0 {
        0.0
    } else {
        binary32::order::at_most_one(facing / squared)
    }
}
