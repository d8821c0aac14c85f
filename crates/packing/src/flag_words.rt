// The words that are made of flags: a bump's, a shadow's, a light's.
ghost use Rattle.std.specs.Prelude.{◌≡◌, ◌*◌, ◌≤◌};
ghost use Rattle.block.specs.Block.{flag_word, bump_word, shadow_word, flags_word};
ghost use Rattle.lighting.specs.Lighting.{bump_unit, shadow_unit};

use lighting::{Bump, Light, Shadow};

// `weight` where the flag is set.
#[tactic(auto, unfolding(block::specs::Block::flag_word))]
pub(crate) fn flag(set: bool, weight: u32) -> u32
    ensures { (result ≡ flag_word set weight) × (result ≤ weight) }
{
    if set { weight } else { 0 }
}

// A unit, in its place.
fn unit_bits(unit: usize) -> u32
    requires { unit ≤ 3 }
    ensures { (result ≡ 16 * unit) × (result ≤ 48) }
{
    16 * (unit as u32)
}

#[tactic(auto, unfolding(block::specs::Block::bump_word, lighting::specs::Lighting::bump_unit))]
pub(crate) fn bump_word(bump: Bump) -> u32
    requires { bump_unit bump ≤ 3 }
    ensures { result ≡ bump_word bump }
{
    match bump {
        Bump::Flat => 0,
        Bump::Normal(unit, rebuild) => 1 + unit_bits(unit) + flag(rebuild, 256),
        Bump::Tangent(unit) => 2 + unit_bits(unit),
    }
}

#[tactic(auto, unfolding(block::specs::Block::shadow_word, lighting::specs::Lighting::shadow_unit))]
pub(crate) fn shadow_word(shadow: Option<Shadow>) -> u32
    requires { shadow_unit shadow ≤ 3 }
    ensures { result ≡ shadow_word shadow }
{
    match shadow {
        None => 0,
        Some(s) => {
            1 + unit_bits(s.unit)
                + flag(s.invert, 256)
                + flag(s.primary, 512)
                + flag(s.secondary, 1024)
                + flag(s.alpha, 2048)
        }
    }
}

#[tactic(auto, unfolding(block::specs::Block::flags_word))]
pub(crate) fn flags_word(l: Light) -> u32
    ensures { result ≡ flags_word l }
{
    flag(l.directional, 1)
        + flag(l.two_sided, 2)
        + flag(l.geometric0, 4)
        + flag(l.geometric1, 8)
        + flag(lighting::is_scaled(l.distance), 16)
        + flag(l.spotlight, 32)
        + flag(l.shadowed, 64)
}
