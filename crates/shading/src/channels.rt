// How the sums end as eight channels.
ghost use Rattle.std.specs.Prelude.{◌≡◌};
ghost use Rattle.shading.specs.Steps.{shadowed_alpha, finish_of};

use light_steps::types::Sums;

#[inline(always)]
#[tactic(auto, unfolding(crate::specs::Steps::shadowed_alpha))]
fn shadowed_alpha(shadowed: bool, alpha: f32, shadow: f32) -> f32
    ensures { result ≡ shadowed_alpha shadowed alpha shadow }
{
    if shadowed { alpha * shadow } else { alpha }
}

// The eight channels in the printed order.
#[inline(always)]
#[tactic(auto, unfolding(crate::specs::Steps::finish_of))]
pub(crate) fn finish(
    sums: Sums,
    alpha: bool,
    primary: bool,
    secondary: bool,
    shadow: [f32; 4],
    ambient: [f32; 3],
) -> [u32; 8]
    ensures { result ≡ finish_of sums alpha primary secondary shadow ambient }
{
    let diffuse_alpha = shadowed_alpha(alpha && primary, sums.diffuse[3], shadow[3]);
    let specular_alpha = shadowed_alpha(alpha && secondary, sums.specular[3], shadow[3]);
    [
        binary32::whole_parts::quantized(sums.diffuse[0] + ambient[0]),
        binary32::whole_parts::quantized(sums.diffuse[1] + ambient[1]),
        binary32::whole_parts::quantized(sums.diffuse[2] + ambient[2]),
        binary32::whole_parts::quantized(diffuse_alpha),
        binary32::whole_parts::quantized(sums.specular[0]),
        binary32::whole_parts::quantized(sums.specular[1]),
        binary32::whole_parts::quantized(sums.specular[2]),
        binary32::whole_parts::quantized(specular_alpha),
    ]
}
