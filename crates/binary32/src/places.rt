// The two places in a table of 256 entries.
ghost use Rattle.std.specs.Prelude.{◌≡◌, ◌<◌};
ghost use Rattle.std.specs.Float.{binary32};
ghost use Rattle.std.specs.Float.Ieee.{minus, of_int};
ghost use Rattle.binary32.specs.Binary32.{unsigned_place_of, signed_place_of};

use crate::Place;
use crate::whole_parts::{held, raised_floor, whole};

// a - b as a float, +0 where they are equal.
fn difference(a: u32, b: u32) -> f32
    requires { (a < 256) × (b < 256) }
    ensures { result ≡ of_int binary32 (minus a b) }
{
    ((a as i32) - (b as i32)) as f32
}

// The place of x in a table over 0 to 1. -0 is its own floor, and -0 less -0 is +0: so the floor is
// taken off by adding its negative, whose zero is +0.
pub fn unsigned_place(x: f32) -> Place
    ensures { result ≡ unsigned_place_of x }
{
    let y = x * 256.0;
    let n = whole(held(y, 0.0, 255.0));
    Place {
        entry: n as u8,
        delta: y + difference(0, n),
    }
}

// The place of x in a table over -1 to 1, whose entries for inputs below 0 follow the others. The
// last eight digits of the raised floor are those of the wrapped entry.
pub fn signed_place(x: f32) -> Place
    ensures { result ≡ signed_place_of x }
{
    let y = x * 128.0;
    if y != y {
        return Place { entry: 0, delta: y };
    }
    let w = raised_floor(held(y, -128.0, 127.0));
    Place {
        entry: (f32::to_bits(w) % 256) as u8,
        delta: y + (12582912.0 - w),
    }
}
