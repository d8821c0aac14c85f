// The eight slots of a block, of 36 words each.
ghost use Rattle.std.specs.Prelude.{ℕ, ◌≡◌, ◌<◌, ◌+◌, length, map, get_or};
ghost use Rattle.block.specs.Block.{words, slot_at};
ghost use Rattle.lighting.specs.Lighting.{slot_of};

use sources::words::Word;

pub(crate) fn slots_of<W: Word>(block: &[W; 328]) -> &[[W; 36]]
    ensures eight { length result.now ≡ 8 }
    ensures long { (s : ℕ) (d : _) → s < 8 → length (get_or result.now s d) ≡ 36 }
    ensures same { (s k : ℕ) (d : _) → s < 8 → k < 36 → words (map W.value (get_or result.now s d)) k ≡ words (map W.value block.now) (slot_at (slot_of s) + k) }
{
    block.as_slice()[40..].as_chunks::<36>().0
}
