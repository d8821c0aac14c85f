// The lighting that a register file sets up.
ghost use Rattle.std.specs.Prelude.{◌≡◌};
ghost use Rattle.decoding.specs.Steps.{lighting_of};

use crate::RegisterFile;
use crate::bump_shadow::{bump, shadow};
use crate::configuration::configuration;
use crate::light_fields::colors;
use crate::lights::lights;
use crate::needs::{half_input, some_light, view_input};
use crate::registers::{REG_CONFIG0, REG_GLOBAL_AMBIENT, flag, register};
use crate::slots::light_count;
use crate::table_lookups::lookups;
use lighting::Lighting;

// The lighting that the registers set up, whether or not it is on.
pub(crate) fn lighting(file: &RegisterFile) -> Lighting
    ensures { result ≡ lighting_of file.now }
{
    let config0 = register(file, REG_CONFIG0);
    let config = configuration(file);
    let count = light_count(file);
    let lights = lights(file);
    let tables = lookups(file);
    let some = some_light(lights, count);
    let half = some.geometric | half_input(config, some.spotlit, tables);
    let view = half | view_input(some.spotlit, tables);
    let ambient = colors(register(file, REG_GLOBAL_AMBIENT), 0, 0, 0);
    Lighting {
        lights,
        light_count: count,
        global_ambient: [ambient[0], ambient[1], ambient[2]],
        config,
        distribution0: tables.distribution0,
        distribution1: tables.distribution1,
        fresnel: tables.fresnel,
        reflect_red: tables.reflect_red,
        reflect_green: tables.reflect_green,
        reflect_blue: tables.reflect_blue,
        spotlight: tables.spotlight,
        fresnel_primary: flag(config0, 2),
        fresnel_secondary: flag(config0, 3),
        clamp_highlights: flag(config0, 27),
        needs_half: half,
        needs_view: view,
        bump: bump(config0),
        shadow: shadow(config0),
    }
}
