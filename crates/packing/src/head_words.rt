// A block's first 40 words, put where they belong.
ghost use Rattle.std.specs.Prelude.{◌≡◌, true, length};
ghost use Rattle.block.specs.Block.{head_words};
ghost use Rattle.lighting.specs.Lighting.{in_range};
ghost use Rattle.packing.specs.Steps.{put_words, lookups_words};

use crate::flag_words::{bump_word, flag, shadow_word};
use crate::rows::{put_lookup, put_row, put_vector};
use lighting::Lighting;

// The seven lookups.
fn put_lookups(block: &mut [u32; 328], l: Lighting)
    ensures { block.new ≡ put_words block.old 8 (lookups_words l) }
{
    put_lookup(block, 8, l.distribution0);
    put_lookup(block, 12, l.distribution1);
    put_lookup(block, 16, l.fresnel);
    put_lookup(block, 20, l.reflect_red);
    put_lookup(block, 24, l.reflect_green);
    put_lookup(block, 28, l.reflect_blue);
    put_lookup(block, 32, Some(l.spotlight));
}

// The block's first 40 words.
pub(crate) fn put_head(block: &mut [u32; 328], l: Lighting)
    requires { in_range l ≡ true }
    ensures { block.new ≡ put_words block.old 0 (head_words l) }
{
    put_row(
        block,
        0,
        [
            l.config,
            l.light_count as u32,
            bump_word(l.bump),
            shadow_word(l.shadow),
        ],
    );
    put_row(
        block,
        4,
        [
            l.fresnel_primary as u32,
            l.fresnel_secondary as u32,
            l.clamp_highlights as u32,
            flag(l.needs_half, 1) + flag(l.needs_view, 2),
        ],
    );
    put_lookups(block, l);
    put_vector(block, 36, l.global_ambient);
}
