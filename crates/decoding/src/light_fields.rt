// The words of a light's block, and the vectors that they hold.
ghost use Rattle.std.specs.Prelude.{◌≡◌, ◌<◌};
ghost use Rattle.decoding.specs.Steps.{four_colours, light_register, position_of, spot_of};

use crate::RegisterFile;
use crate::registers::{REG_LIGHTS, register};
use fields::short_floats::half;
use fields::{color, fixed};
use lighting::LightNumber;

// The word at an offset in a light's block.
#[tactic(auto, unfolding(crate::specs::Steps::light_register))]
pub(crate) fn light_register(file: &RegisterFile, number: LightNumber, offset: usize) -> u32
    requires { (number.0 < 8) × (offset < 16) }
    ensures { result ≡ light_register file.now number offset }
{
    register(file, REG_LIGHTS + number.0 * 0x10 + offset)
}

// The colours of four words, their twelve channels one after another. `color` is called in this one place, so that the compiler puts its table here and a light
// takes one call.
pub(crate) fn colors(first: u32, second: u32, third: u32, fourth: u32) -> [f32; 12]
    ensures { result ≡ four_colours first second third fourth }
{
    let words = [first, second, third, fourth];
    let mut channels = [0.0; 12];
    for k in 0..4 {
        let three = color(words[k]);
        channels[3 * k] = three[0];
        channels[3 * k + 1] = three[1];
        channels[3 * k + 2] = three[2];
    }
    channels
}

// Position and spot direction are told in two formats: a function over the format would say in its contract what the format gives, and be no shorter.
#[tactic(auto, unfolding(crate::specs::Steps::position_of))]
pub(crate) fn position(file: &RegisterFile, number: LightNumber) -> [f32; 3]
    requires { number.0 < 8 }
    ensures { result ≡ position_of file.now number }
{
    let first = light_register(file, number, 4);
    let second = light_register(file, number, 5);
    [half(first), half(first >> 16), half(second)]
}

#[tactic(auto, unfolding(crate::specs::Steps::spot_of))]
pub(crate) fn spot(file: &RegisterFile, number: LightNumber) -> [f32; 3]
    requires { number.0 < 8 }
    ensures { result ≡ spot_of file.now number }
{
    let first = light_register(file, number, 6);
    let second = light_register(file, number, 7);
    [fixed(first), fixed(first >> 16), fixed(second)]
}
