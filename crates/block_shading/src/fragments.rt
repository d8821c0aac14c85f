// A fragment's 23 words, which come as words or as bytes: its quaternion, its view and the texels of four units.
ghost use Rattle.std.specs.Prelude.{◌≡◌, ◌+◌, ◌≤◌, ◌<◌, map};
ghost use Rattle.shading.specs.Steps.{texel_of};
ghost use Rattle.block_shading.specs.BlockShading.{float_at, four_at, quaternion_of, view_of, texels_of};

use sources::words::{Word, value_at};

#[inline(always)]
#[tactic(auto, unfolding(crate::specs::BlockShading::float_at))]
fn float_at<W: Word>(words: &[W; 23], i: usize) -> f32
    requires { i < 23 }
    ensures { result ≡ float_at (map W.value words.now) i }
{
    binary32::float_of(value_at(words, i))
}

#[inline(always)]
#[tactic(auto, unfolding(crate::specs::BlockShading::four_at))]
fn four_at<W: Word>(words: &[W; 23], i: usize) -> [f32; 4]
    requires { i + 4 ≤ 23 }
    ensures { result ≡ four_at (map W.value words.now) i }
{
    [
        float_at(words, i),
        float_at(words, i + 1),
        float_at(words, i + 2),
        float_at(words, i + 3),
    ]
}

#[inline(always)]
#[tactic(auto, unfolding(crate::specs::BlockShading::quaternion_of))]
pub fn quaternion_of<W: Word>(words: &[W; 23]) -> [f32; 4]
    ensures { result ≡ quaternion_of (map W.value words.now) }
{
    four_at(words, 0)
}

#[inline(always)]
#[tactic(auto, unfolding(crate::specs::BlockShading::view_of))]
pub fn view_of<W: Word>(words: &[W; 23]) -> [f32; 3]
    ensures { result ≡ view_of (map W.value words.now) }
{
    [float_at(words, 4), float_at(words, 5), float_at(words, 6)]
}

// The texel of one unit.
#[inline(always)]
#[tactic(auto, using(crate::proofs::fragments::Texels::texel))]
pub(crate) fn texel_at<W: Word>(words: &[W; 23], unit: usize) -> [f32; 4]
    requires { unit ≤ 3 }
    ensures { result ≡ texel_of (texels_of (map W.value words.now)) unit }
{
    four_at(words, 7 + 4 * unit)
}

// The texels of the four units.
#[inline(always)]
#[tactic(auto, unfolding(crate::specs::BlockShading::texels_of))]
pub fn texels_of<W: Word>(words: &[W; 23]) -> [[f32; 4]; 4]
    ensures { result ≡ texels_of (map W.value words.now) }
{
    [
        four_at(words, 7),
        four_at(words, 11),
        four_at(words, 15),
        four_at(words, 19),
    ]
}
