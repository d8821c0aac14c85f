// Four words side by side, put together by OR from row to row of a block, with no branch for a word: the compiler keeps them in one vector.
ghost use Rattle.std.specs.Prelude.{◌≡◌, true, ◌&&◌, ◌%◌, ◌<◌, length, map};
ghost use Rattle.block.specs.Block.{words};
ghost use Rattle.lighting.specs.Forms.{every};
ghost use Rattle.block_check.specs.Steps.{clear};

use crate::word_tests::WordTest;
use sources::words::{Word, value_at};

#[derive(Clone, Copy)]
pub(crate) struct Lanes {
    pub a: u32,
    pub b: u32,
    pub c: u32,
    pub d: u32,
}

impl Lanes {
    #[tactic(auto, unfolding(crate::specs::Steps::clear))]
    pub(crate) fn none() -> Lanes
        ensures { clear result ≡ true }
    {
        Lanes {
            a: 0,
            b: 0,
            c: 0,
            d: 0,
        }
    }

    // Four words, the bits of each into its lane.
    #[tactic(auto, using(crate::specs::OrLaws::row_more))]
    fn with_row<W: Word, T: WordTest>(self, row: &[W; 4]) -> Lanes
        ensures { clear result ≡ (clear self && every 4 (λ k. T.passes (words (map W.value row.now) k))) }
    {
        Lanes {
            a: self.a | T::bits(value_at(row, 0)),
            b: self.b | T::bits(value_at(row, 1)),
            c: self.c | T::bits(value_at(row, 2)),
            d: self.d | T::bits(value_at(row, 3)),
        }
    }

    // A part of one row or more.
    pub(crate) fn with_rows<W: Word, T: WordTest>(self, part: &[W]) -> Lanes
        requires { (0 < length part.now) × (length part.now % 4 ≡ 0) }
        ensures { clear result ≡ (clear self && every (length part.now) (λ k. T.passes (words (map W.value part.now) k))) }
    {
        let mut lanes = self;
        for row in part.as_chunks::<4>().0 {
            lanes = lanes.with_row::<W, T>(row);
        }
        lanes
    }

    // Whether nothing was put into any.
    #[tactic(auto, using(crate::specs::OrLaws::all_clear))]
    pub(crate) fn are_clear(self) -> bool
        ensures { result ≡ clear self }
    {
        (self.a | self.b | self.c | self.d) == 0
    }
}
