// What shading takes of a lighting: the lookups, the settings of the sums, the frame and the shadow, each from its texel, and the end.
ghost use Rattle.std.specs.Prelude.{◌≡◌};
ghost use Rattle.surface.specs.Steps.{frame_by, shadow_texel};
ghost use Rattle.shading.specs.Steps.{lighting_lookups, lighting_settings, finished_of};

use crate::channels;
use light_steps::types::{LightingLookups, Settings, Sums};
use lighting::{Lighting, TableLookups};
use surface::Frame;

#[inline(always)]
#[tactic(auto, unfolding(crate::specs::Steps::lighting_lookups))]
pub fn lookups_of(l: Lighting) -> LightingLookups
    ensures { result ≡ lighting_lookups l }
{
    LightingLookups {
        config: l.config,
        needs_half: l.needs_half,
        tables: TableLookups {
            distribution0: l.distribution0,
            distribution1: l.distribution1,
            fresnel: l.fresnel,
            reflect_red: l.reflect_red,
            reflect_green: l.reflect_green,
            reflect_blue: l.reflect_blue,
            spotlight: l.spotlight,
        },
    }
}

// The shadow applies to nothing where there is none.
#[inline(always)]
#[tactic(auto, unfolding(crate::specs::Steps::lighting_settings, crate::specs::Shade::is_some_and))]
pub fn settings_of(l: Lighting, shadow: [f32; 4]) -> Settings
    ensures { result ≡ lighting_settings l shadow }
{
    Settings {
        clamp_highlights: l.clamp_highlights,
        shadow_primary: l.shadow.is_some_and(|s| s.primary),
        shadow_secondary: l.shadow.is_some_and(|s| s.secondary),
        shadow,
        fresnel_primary: l.fresnel_primary,
        fresnel_secondary: l.fresnel_secondary,
    }
}

// From the unit quaternion, the view and the texel of the bump's unit, wherever the caller has them.
#[inline(always)]
pub fn frame_of(l: Lighting, unit: [f32; 4], view: [f32; 3], texel: [f32; 4]) -> Frame
    ensures { result ≡ frame_by l.bump texel l.config l.needs_view unit view }
{
    surface::frame_of(l.bump, texel, l.config, l.needs_view, unit, view)
}

// From the texel of the shadow's unit.
#[inline(always)]
pub fn shadow_of(l: Lighting, texel: [f32; 4]) -> [f32; 4]
    ensures { result ≡ shadow_texel l.shadow texel }
{
    surface::shadow::shadow_texel(l.shadow, texel)
}

// The channels from the sums.
#[inline(always)]
#[tactic(auto, unfolding(crate::specs::Steps::finished_of, crate::specs::Shade::is_some_and))]
pub fn finished(l: Lighting, sums: Sums, shadow: [f32; 4]) -> [u32; 8]
    ensures { result ≡ finished_of l sums shadow }
{
    channels::finish(
        sums,
        l.shadow.is_some_and(|s| s.alpha),
        l.fresnel_primary,
        l.fresnel_secondary,
        shadow,
        l.global_ambient,
    )
}
