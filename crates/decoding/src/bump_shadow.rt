// Bump and shadow, from 1C3.
ghost use Rattle.std.specs.Prelude.{◌≡◌};
ghost use Rattle.decoding.specs.Read.{bump as bump_of, shadow as shadow_of};

use crate::registers::{bits, flag};
use lighting::{Bump, Shadow};

// Bits 28 and 29 say which kind.
#[tactic(auto, unfolding(crate::specs::Read::bump))]
pub(crate) fn bump(config0: u32) -> Bump
    ensures { result ≡ bump_of config0 }
{
    match bits(config0, 28, 2) {
        1 => Bump::Normal(bits(config0, 22, 2) as usize, !flag(config0, 30)),
        2 => Bump::Tangent(bits(config0, 22, 2) as usize),
        _ => Bump::Flat,
    }
}

#[tactic(auto, unfolding(crate::specs::Read::shadow))]
pub(crate) fn shadow(config0: u32) -> Option<Shadow>
    ensures { result ≡ shadow_of config0 }
{
    if flag(config0, 0) {
        Some(Shadow {
            unit: bits(config0, 24, 2) as usize,
            invert: flag(config0, 18),
            primary: flag(config0, 16),
            secondary: flag(config0, 17),
            alpha: flag(config0, 19),
        })
    } else {
        None
    }
}
