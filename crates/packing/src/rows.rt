// Rows of a block, put where they belong: four words, a lookup, a vector, and the nine rows of an unlit slot.
ghost use Rattle.std.specs.Prelude.{◌≡◌, ◌+◌, ◌≤◌, length, replicate};
ghost use Rattle.packing.specs.Steps.{put_words};
ghost use Rattle.block.specs.Block.{lookup_words, vector_words};

use lighting::Lookup;

// Four words from `at` on: the block is rows of four. A place and no chunk, here and below: of what a block ends as once its `as_chunks_mut` are written the library
// says nothing.
#[tactic(auto, using(crate::specs::PutLaws::part))]
pub(crate) fn put_row(block: &mut [u32; 328], at: usize, row: [u32; 4])
    requires { at + 4 ≤ 328 }
    ensures { block.new ≡ put_words block.old at row }
{
    block[at..at + 4].copy_from_slice(&row);
}

// Presence, input, absolute, scale.
#[tactic(auto, unfolding(block::specs::Block::lookup_words, block::specs::Block::lookup_row))]
pub(crate) fn put_lookup(block: &mut [u32; 328], at: usize, lookup: Option<Lookup>)
    requires { at + 4 ≤ 328 }
    ensures { block.new ≡ put_words block.old at (lookup_words lookup) }
{
    match lookup {
        None => put_row(block, at, [0; 4]),
        Some(l) => put_row(
            block,
            at,
            [1, l.input, l.absolute as u32, binary32::word_of(l.scale)],
        ),
    }
}

// Three floats and padding.
#[tactic(auto, unfolding(block::specs::Block::vector_words))]
pub(crate) fn put_vector(block: &mut [u32; 328], at: usize, v: [f32; 3])
    requires { at + 4 ≤ 328 }
    ensures { block.new ≡ put_words block.old at (vector_words v) }
{
    put_row(
        block,
        at,
        [
            binary32::word_of(v[0]),
            binary32::word_of(v[1]),
            binary32::word_of(v[2]),
            0,
        ],
    );
}

// 36 zeros.
#[tactic(auto, using(crate::specs::PutLaws::part))]
pub(crate) fn put_zeros(block: &mut [u32; 328], at: usize)
    requires { at + 36 ≤ 328 }
    ensures { block.new ≡ put_words block.old at (replicate 36 0) }
{
    block[at..at + 36].fill(0);
}
