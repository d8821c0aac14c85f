// The cross product, and a quaternion's turn of a vector.
ghost use Rattle.std.specs.Prelude.{◌≡◌};
ghost use Rattle.vectors.specs.Vectors.{cross_of, rotate_of};

use crate::{plus, times};

#[tactic(auto, unfolding(crate::specs::Vectors::cross_of))]
pub fn cross(a: [f32; 3], b: [f32; 3]) -> [f32; 3]
    ensures { result ≡ cross_of a b }
{
    [
        a[1] * b[2] - a[2] * b[1],
        a[2] * b[0] - a[0] * b[2],
        a[0] * b[1] - a[1] * b[0],
    ]
}

// v turned by the unit quaternion q.
pub fn rotate(q: [f32; 4], v: [f32; 3]) -> [f32; 3]
    ensures { result ≡ rotate_of q v }
{
    let axis = [q[0], q[1], q[2]];
    let inner = cross(axis, v);
    let turn = cross(axis, plus(inner, times(v, q[3])));
    [
        v[0] + 2.0 * turn[0],
        v[1] + 2.0 * turn[1],
        v[2] + 2.0 * turn[2],
    ]
}
