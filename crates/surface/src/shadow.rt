// A draw's shadow: what its texel gives.
ghost use Rattle.std.specs.Prelude.{◌≡◌};
ghost use Rattle.surface.specs.Steps.{inverted as inverted_of, shadow_texel};

use lighting::Shadow;

#[inline(always)]
#[tactic(auto, unfolding(crate::specs::Steps::inverted))]
fn inverted(invert: bool, t: [f32; 4]) -> [f32; 4]
    ensures { result ≡ inverted_of invert t }
{
    if invert {
        [1.0 - t[0], 1.0 - t[1], 1.0 - t[2], 1.0 - t[3]]
    } else {
        t
    }
}

// From the texel of the shadow's unit.
#[inline(always)]
#[tactic(auto, unfolding(crate::specs::Steps::shadow_texel))]
pub fn shadow_texel(shadow: Option<Shadow>, texel: [f32; 4]) -> [f32; 4]
    ensures { result ≡ shadow_texel shadow texel }
{
    match shadow {
        None => [1.0, 1.0, 1.0, 1.0],
        Some(shadow) => inverted(shadow.invert, texel),
    }
}
