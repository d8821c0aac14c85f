// Colours and spot components as the registers encode them. Upload words are `upload`, short floats `short_floats`.
#![tactic(auto)]

pub mod short_floats;
pub mod upload;

ghost use Rattle.std.specs.Prelude.{◌≡◌, ◌<◌};
ghost use Rattle.std.specs.Float.{binary32};
ghost use Rattle.std.specs.Float.Ieee.{of_int};
ghost use Rattle.fields.specs.Fields.{colour_channel, colour_of, signed13, fixed_of};

use colour_table::colour_word;

// What a colour field's 10 bits stand for, 255 being one.
fn colour_channel(field: u32) -> f32
    requires { field < 1024 }
    ensures { result ≡ colour_channel field }
{
    f32::from_bits(colour_word(field))
}

// A light colour: red, green and blue. The table is read in this one place, so that the compiler puts it here;
// `map` over the three fields would move each through memory.
pub fn color(value: u32) -> [f32; 3]
    ensures { result ≡ colour_of value }
{
    let mut channels = [0.0; 3];
    for i in 0..3 {
        channels[i] = colour_channel((value >> (20 - 10 * i as u32)) % 0x400);
    }
    channels
}

// 13 bits as a signed number.
#[tactic(auto, unfolding(crate::specs::Fields::signed13), using(binary32::specs::CastLaws::exact, binary32::specs::CastLaws::below_zero))]
fn signed(n: u32) -> f32
    requires { n < 8192 }
    ensures { result ≡ of_int binary32 (signed13 n) }
{
    if n < 0x1000 {
        n as f32
    } else {
        -((0x2000 - n) as f32)
    }
}

// A component of a spotlight's direction, 2047 being one.
pub fn fixed(value: u32) -> f32
    ensures { result ≡ fixed_of value }
{
    signed(value % 0x2000) / 2047.0
}
