// The lights that a register file sets up, each in its slot.
ghost use Rattle.std.specs.Prelude.{◌≡◌, ◌<◌};
ghost use Rattle.decoding.specs.Steps.{distance_of, spotlit_of, light_of, slot_light, lights_of};

use crate::RegisterFile;
use crate::configuration::{configuration, supported};
use crate::light_fields::{colors, light_register, position, spot};
use crate::registers::{REG_CONFIG1, flag, register};
use crate::slots::{light_count, light_number};
use fields::short_floats::float20;
use lighting::tables::SPOTLIGHT;
use lighting::{Distance, Light, LightNumber, Slot, blank_light};
use vectors::normalized;

// The bit that takes the distance away is that of the light's number, whatever its slot.
#[tactic(auto, unfolding(crate::specs::Steps::distance_of))]
fn distance(file: &RegisterFile, number: LightNumber) -> Option<Distance>
    requires { number.0 < 8 }
    ensures { result ≡ distance_of file.now number }
{
    if flag(register(file, REG_CONFIG1), 24 + number.0 as u32) {
        return None;
    }
    Some(Distance {
        bias: float20(light_register(file, number, 0xA)),
        scale: float20(light_register(file, number, 0xB)),
    })
}

#[tactic(auto, unfolding(crate::specs::Steps::spotlit_of))]
fn spotlit(file: &RegisterFile, number: LightNumber) -> bool
    requires { number.0 < 8 }
    ensures { result ≡ spotlit_of file.now number }
{
    !flag(register(file, REG_CONFIG1), 8 + number.0 as u32)
        & supported(configuration(file), SPOTLIGHT)
}

fn light(file: &RegisterFile, number: LightNumber) -> Light
    requires { number.0 < 8 }
    ensures { result ≡ light_of file.now number }
{
    let position = position(file, number);
    let flags = light_register(file, number, 9);
    let channels = colors(
        light_register(file, number, 0),
        light_register(file, number, 1),
        light_register(file, number, 2),
        light_register(file, number, 3),
    );
    Light {
        specular0: [channels[0], channels[1], channels[2]],
        specular1: [channels[3], channels[4], channels[5]],
        diffuse: [channels[6], channels[7], channels[8]],
        ambient: [channels[9], channels[10], channels[11]],
        position,
        direction: normalized(position),
        spot: spot(file, number),
        directional: flag(flags, 0),
        two_sided: flag(flags, 1),
        geometric0: flag(flags, 2),
        geometric1: flag(flags, 3),
        distance: distance(file, number),
        spotlight: spotlit(file, number),
        shadowed: !flag(register(file, REG_CONFIG1), number.0 as u32),
        number,
    }
}

// The light in a slot, blank beyond the count.
#[tactic(auto, unfolding(crate::specs::Steps::slot_light), using(crate::proofs::LightLaws::number_lt))]
fn slot_light(file: &RegisterFile, slot: Slot) -> Light
    requires { slot.0 < 8 }
    ensures { result ≡ slot_light file.now slot }
{
    if slot.0 < light_count(file) {
        light(file, light_number(file, slot))
    } else {
        blank_light()
    }
}

#[tactic(auto, unfolding(crate::specs::Steps::lights_of))]
pub(crate) fn lights(file: &RegisterFile) -> [Light; 8]
    ensures { result ≡ lights_of file.now }
{
    // eight calls, since array::from_fn takes 25 to 45 ns more for each read that decodes
    [
        slot_light(file, Slot(0)),
        slot_light(file, Slot(1)),
        slot_light(file, Slot(2)),
        slot_light(file, Slot(3)),
        slot_light(file, Slot(4)),
        slot_light(file, Slot(5)),
        slot_light(file, Slot(6)),
        slot_light(file, Slot(7)),
    ]
}
