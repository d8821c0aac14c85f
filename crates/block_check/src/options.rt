// The words of a block's head before its lookups: configuration, bump, shadow, fresnel, clamp and needs.
ghost use Rattle.std.specs.Prelude.{◌≡◌, map};
ghost use Rattle.block.specs.Block.{words, bump_formed, shadow_formed};
ghost use Rattle.block_check.specs.Steps.{options_formed};

use sources::words::{Word, value_at};

#[tactic(auto, unfolding(block::specs::Block::bump_formed))]
fn bump_formed(n: u32) -> bool
    ensures { result ≡ bump_formed n }
{
    (n == 0) | ((n % 16 == 1) & (n / 16 % 16 < 4) & (n < 512)) | ((n % 16 == 2) & (n < 64))
}

#[tactic(auto, unfolding(block::specs::Block::shadow_formed))]
fn shadow_formed(n: u32) -> bool
    ensures { result ≡ shadow_formed n }
{
    (n == 0) | ((n % 16 == 1) & (n / 16 % 16 < 4) & (n < 4096))
}

#[tactic(auto, unfolding(crate::specs::Steps::options_formed))]
pub(crate) fn options_formed<W: Word>(block: &[W; 328]) -> bool
    ensures { result ≡ options_formed (words (map W.value block.now)) }
{
    (value_at(block, 0) < 16)
        & bump_formed(value_at(block, 2))
        & shadow_formed(value_at(block, 3))
        & (value_at(block, 4) < 2)
        & (value_at(block, 5) < 2)
        & (value_at(block, 6) < 2)
        & (value_at(block, 7) < 4)
        & (value_at(block, 7) != 1)
}
