// Whole parts of 32-bit floats, from their digits: floor, and quantising. For speed: std's `floor` rounds the size both ways and puts the
// sign back.
ghost use Rattle.std.specs.Prelude.{◌≡◌, ◌-◌, ◌≤◌, min, T, pos};
ghost use Rattle.std.specs.Float.{binary32};
ghost use Rattle.std.specs.Float.Ieee.{of_int, to_unsigned};
ghost use Rattle.binary32.specs.Binary32.{floor_of, quantized_of};
ghost use Rattle.binary32.specs.Steps.{held_of, under_byte, raisable, raised_floor};

// x, but low where x is below it or NaN, and high where that is above it.
#[tactic(auto, unfolding(crate::specs::Steps::held_of))]
pub(crate) fn held(x: f32, low: f32, high: f32) -> f32
    ensures { result ≡ held_of x low high }
{
    let y = if x > low { x } else { low };
    if y > high { high } else { y }
}

// How many digits stand behind the point where the exponent's field is e, 31 at most: there are 24,
// so that many takes them all off.
fn behind(e: u32) -> u32
    requires { e ≤ 150 }
    ensures { result ≡ min (150 - e) 31 }
{
    let d = 150 - e;
    if d < 31 { d } else { 31 }
}

// The whole part of a number from 0 to below 256: its digits without those behind the point, which
// for a number below 1 are all of them.
pub(crate) fn whole(x: f32) -> u32
    requires { T (under_byte x) }
    ensures { result ≡ to_unsigned 8 x }
{
    let b = f32::to_bits(x);
    (b % 0x80_0000 + 0x80_0000) >> behind(b / 0x80_0000)
}

// The largest whole number that is not above x. -0 stays -0, and so do NaN and the infinities.
pub fn floor(x: f32) -> f32
    ensures { result ≡ floor_of x }
{
    if x != x {
        return x;
    }
    if x == 0.0 {
        return x;
    }
    let b = f32::to_bits(x);
    let e = b % 0x8000_0000 / 0x80_0000;
    if e >= 150 {
        return x;
    }
    let m = b % 0x80_0000 + 0x80_0000;
    let s = behind(e);
    let n = m >> s;
    if b < 0x8000_0000 {
        n as f32
    } else if n << s == m {
        -(n as f32)
    } else {
        -((n + 1) as f32)
    }
}

// 3 * 2^22 more than the floor of a number z from -128 to 256. The last digit of the sum stands for
// 1, so the sum is rounded to a whole number, which is right or one too many.
#[tactic(auto, using(crate::specs::RaisedLaws::raised))]
pub(crate) fn raised_floor(z: f32) -> f32
    requires { T (raisable z) }
    ensures { result ≡ of_int binary32 (pos (raised_floor z)) }
{
    let s = z + 12582912.0;
    if s - 12582912.0 > z { s - 1.0 } else { s }
}

// The whole part of 255 times x, x clamped to 0 to 1, NaN giving 0: the last eight digits of its
// raised floor, which the compiler finds for four channels at once. It is a u32, as the words of an answer are.
pub fn quantized(x: f32) -> u32
    ensures { result ≡ quantized_of x }
{
    let w = raised_floor(held(x, 0.0, 1.0) * 255.0);
    f32::to_bits(w) % 256
}
