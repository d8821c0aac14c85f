// The order of 32-bit floats as Rust has it: magnitude, the larger, the smaller, clamping. Not std's methods: its `abs` takes two tests, its `max` and `min`
// leave open which of two zeros they give, and its `clamp` asks that the bounds be in order.
ghost use Rattle.std.specs.Prelude.{◌≡◌};
ghost use Rattle.binary32.specs.Binary32.{float0, float1, magnitude_of, max_of, min_of, clamp_of};

// x without its sign: the larger of x and 0 - x, which is +0 for either zero.
#[tactic(auto, using(crate::proofs::order::Signs::larger, crate::proofs::order::Signs::other))]
pub fn magnitude(x: f32) -> f32
    ensures { result ≡ magnitude_of x }
{
    let n = 0.0 - x;
    if x > n { x } else { n }
}

// The larger of x and y, the number where one is NaN. Equal floats differ in a zero's sign alone,
// and the sum of two zeros is -0 only if both are.
#[tactic(auto, using(crate::specs::NanLaws::itself, crate::specs::NanLaws::differs, crate::proofs::order::Ordered::less, crate::proofs::order::Ordered::of_nan, crate::proofs::order::Ordered::both_zero, crate::proofs::order::Ordered::equal, crate::proofs::order::Ordered::unequal))]
pub fn max(x: f32, y: f32) -> f32
    ensures { result ≡ max_of x y }
{
    if x < y {
        y
    } else if x != x {
        y
    } else if x == y {
        if x == 0.0 { x + y } else { x }
    } else {
        x
    }
}

// The smaller of x and y, the number where one is NaN.
#[tactic(auto, using(crate::proofs::order::Ordered::min_by_max))]
pub fn min(x: f32, y: f32) -> f32
    ensures { result ≡ min_of x y }
{
    -max(-x, -y)
}

// max(x, 0.0) in one instruction.
#[tactic(auto, using(crate::proofs::order::Bounds::above_0, crate::proofs::order::Bounds::not_above_0))]
pub fn positive(x: f32) -> f32
    ensures { result ≡ max_of x float0 }
{
    if x > 0.0 { x } else { 0.0 }
}

// min(x, 1.0) in one instruction.
#[tactic(auto, using(crate::proofs::order::Bounds::below_1, crate::proofs::order::Bounds::not_below_1))]
pub fn at_most_one(x: f32) -> f32
    ensures { result ≡ min_of x float1 }
{
    if x < 1.0 { x } else { 1.0 }
}

// x, or low where x is below it, or high where that is above it.
#[tactic(auto, unfolding(crate::specs::Binary32::clamp_of))]
pub fn clamp(x: f32, low: f32, high: f32) -> f32
    ensures { result ≡ clamp_of x low high }
{
    let y = if x < low { low } else { x };
    if y > high { high } else { y }
}
