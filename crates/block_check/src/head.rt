// The head of a block: its options, its seven lookups, and its padding.
ghost use Rattle.std.specs.Prelude.{◌≡◌, map};
ghost use Rattle.block.specs.Block.{words};
ghost use Rattle.block_check.specs.Steps.{lookup_formed, lookups_formed, head_formed};

use crate::options::options_formed;
use crate::zeros::are_zero;
use block::scale_formed;
use sources::words::{Word, value_at};

// A lookup of four words: presence, input, absolute, scale. A missing one has zero words.
#[tactic(auto, using(crate::proofs::head::Lookup::present, crate::proofs::head::Lookup::missing))]
fn lookup_formed<W: Word>(lookup: &[W; 4]) -> bool
    ensures { result ≡ lookup_formed (words (map W.value lookup.now)) }
{
    if value_at(lookup, 0) == 1 {
        return (value_at(lookup, 1) < 8)
            & (value_at(lookup, 2) < 2)
            & scale_formed(value_at(lookup, 3));
    }
    are_zero(lookup)
}

fn lookups_formed<W: Word>(block: &[W; 328]) -> bool
    ensures { result ≡ lookups_formed (words (map W.value block.now)) 7 }
{
    let (lookups, _) = block.as_slice()[8..36].as_chunks::<4>();
    lookups.iter().all(lookup_formed)
}

#[tactic(auto, unfolding(crate::specs::Steps::head_formed))]
pub(crate) fn head_formed<W: Word>(block: &[W; 328]) -> bool
    ensures { result ≡ head_formed (words (map W.value block.now)) }
{
    options_formed(block)
        & lookups_formed(block)
        & (value_at(block, 32) == 1)
        & (value_at(block, 39) == 0)
}
