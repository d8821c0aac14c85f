// Vectors of three floats. The cross product and a quaternion's turn are `rotation`. Each component is written out: `map` over an array moves its
// elements through memory, as was seen at a colour's fields.
#![tactic(auto)]

pub mod rotation;

ghost use Rattle.std.specs.Prelude.{◌≡◌};
ghost use Rattle.vectors.specs.Vectors.{plus_of, times_of, over_of, dot_of, normalized_of};
ghost use Rattle.vectors.specs.Steps.{minus_of};

#[tactic(auto, unfolding(crate::specs::Vectors::plus_of))]
pub fn plus(a: [f32; 3], b: [f32; 3]) -> [f32; 3]
    ensures { result ≡ plus_of a b }
{
    [a[0] + b[0], a[1] + b[1], a[2] + b[2]]
}

#[tactic(auto, unfolding(crate::specs::Steps::minus_of))]
pub fn minus(a: [f32; 3], b: [f32; 3]) -> [f32; 3]
    ensures { result ≡ minus_of a b }
{
    [a[0] - b[0], a[1] - b[1], a[2] - b[2]]
}

#[tactic(auto, unfolding(crate::specs::Vectors::times_of))]
pub fn times(v: [f32; 3], k: f32) -> [f32; 3]
    ensures { result ≡ times_of v k }
{
    [v[0] * k, v[1] * k, v[2] * k]
}

#[tactic(auto, unfolding(crate::specs::Vectors::over_of))]
pub fn over(v: [f32; 3], k: f32) -> [f32; 3]
    ensures { result ≡ over_of v k }
{
    [v[0] / k, v[1] / k, v[2] / k]
}

#[tactic(auto, unfolding(crate::specs::Vectors::dot_of))]
pub fn dot(a: [f32; 3], b: [f32; 3]) -> f32
    ensures { result ≡ dot_of a b }
{
    a[0] * b[0] + a[1] * b[1] + a[2] * b[2]
}

#[tactic(auto, unfolding(crate::specs::Vectors::normalized_of))]
pub fn normalized(v: [f32; 3]) -> [f32; 3]
    ensures { result ≡ normalized_of v }
{
    let square = dot(v, v);
    let length = root::root(square);
    over(v, length)
}
