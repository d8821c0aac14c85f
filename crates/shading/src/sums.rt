// The sums of a fragment, light by light.
ghost use Rattle.std.specs.Prelude.{◌≡◌, ◌+◌, ◌<◌, ◌≤◌, ◌==◌, map};
ghost use Rattle.shading.specs.Steps.{start_sums, Numbered, sums_by};

use light_steps::types::{LightingLookups, Settings, Sums};
use lighting::{Light, Slot};
use sources::words::Word;
use surface::Frame;

// Only the last slot lit applies fresnel.
// Asks: one of the eight slots, since the one after the last number there is would not fit.
pub fn is_last(slot: Slot, count: usize) -> bool
    requires { slot.0 < 8 }
    ensures { result ≡ (slot.0 + 1 == count) }
{
    slot.0 + 1 == count
}

// The sums before any light.
#[inline(always)]
pub fn start() -> Sums
    ensures { result ≡ start_sums }
{
    Sums {
        diffuse: [0.0, 0.0, 0.0, 1.0],
        specular: [0.0, 0.0, 0.0, 1.0],
    }
}

#[tactic(auto, unfolding(crate::specs::Steps::sums_by))]
pub(crate) fn sum_lights<W: Word>(
    tables: &[W; 12288],
    lookups: LightingLookups,
    frame: Frame,
    settings: Settings,
    lights: [Light; 8],
    count: usize,
) -> Sums
    requires { (count ≤ 8) × Numbered lights count }
    ensures { result ≡ sums_by (map W.value tables.now) lookups frame settings lights count count }
{
    let mut sums = start();
    for slot in 0..count {
        let last = is_last(Slot(slot), count);
        let light = lights[slot];
        sums = light_steps::step(tables, lookups, frame, settings, last, light, sums);
    }
    sums
}
