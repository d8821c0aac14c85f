// A light's words, put where they belong.
ghost use Rattle.std.specs.Prelude.{◌≡◌, ◌+◌, ◌≤◌, length};
ghost use Rattle.packing.specs.Steps.{put_words, colours_words, places_words};
ghost use Rattle.block.specs.Block.{distance_words, light_words};

use crate::flag_words::flags_word;
use crate::rows::{put_row, put_vector};
use lighting::{Distance, Light};

fn put_colours(block: &mut [u32; 328], at: usize, l: Light)
    requires { at + 16 ≤ 328 }
    ensures { block.new ≡ put_words block.old at (colours_words l) }
{
    put_vector(block, at, l.specular0);
    put_vector(block, at + 4, l.specular1);
    put_vector(block, at + 8, l.diffuse);
    put_vector(block, at + 12, l.ambient);
}

fn put_places(block: &mut [u32; 328], at: usize, l: Light)
    requires { at + 12 ≤ 328 }
    ensures { block.new ≡ put_words block.old at (places_words l) }
{
    put_vector(block, at, l.position);
    put_vector(block, at + 4, l.direction);
    put_vector(block, at + 8, l.spot);
}

// Bias, scale and padding.
#[tactic(auto, unfolding(block::specs::Block::distance_words, block::specs::Block::distance_row))]
fn put_distance(block: &mut [u32; 328], at: usize, distance: Option<Distance>)
    requires { at + 4 ≤ 328 }
    ensures { block.new ≡ put_words block.old at (distance_words distance) }
{
    match distance {
        None => put_row(block, at, [0; 4]),
        Some(distance) => put_row(
            block,
            at,
            [
                binary32::word_of(distance.bias),
                binary32::word_of(distance.scale),
                0,
                0,
            ],
        ),
    }
}

// A light's 36 words.
pub(crate) fn put_light(block: &mut [u32; 328], at: usize, l: Light)
    requires { (at + 36 ≤ 328) × (l.number.0 ≤ 7) }
    ensures { block.new ≡ put_words block.old at (light_words l) }
{
    put_colours(block, at, l);
    put_places(block, at + 16, l);
    put_distance(block, at + 28, l.distance);
    put_row(block, at + 32, [flags_word(l), l.number.0 as u32, 0, 0]);
}
