// The block reader: the lighting of a block, or off, or a refusal. `lit` has a block as the check found it, `head` reads its first 40 words, `light` a slot's.
#![tactic(auto)]

pub mod head;
pub mod light;
pub mod lit;

ghost use Rattle.std.specs.Prelude.{◌≡◌, map};
ghost use Rattle.block.specs.Block.{words, block_lights, block_lighting, block_read, answer_of};

use crate::head::{light_count, lighting_with};
use crate::light::light_of;
use crate::lit::{MarkedBlock, checked};
use lighting::{Light, Lighting, Slot, blank_light};
use refusals::Refusal;
use sources::words::Word;

// The lights in their slots, blank beyond the count.
#[tactic(auto, using(crate::proofs::Lights::one_more, crate::proofs::Lights::all_least, crate::proofs::Lights::lit_slot))]
fn lights_of<W: Word>(block: MarkedBlock<'_, W>) -> [Light; 8]
    ensures { result ≡ block_lights (words (map W.value block.entry.words.now)) }
{
    let mut lights = [blank_light(); 8];
    for slot in 0..light_count(block).min(8) {
        lights[slot] = light_of(block, Slot(slot));
    }
    lights
}

// The lighting of a block.
#[tactic(auto, unfolding(block::specs::Block::block_lighting))]
pub fn lighting_of<W: Word>(block: MarkedBlock<'_, W>) -> Lighting
    ensures { result ≡ block_lighting (words (map W.value block.entry.words.now)) }
{
    lighting_with(block, lights_of(block))
}

// The lighting of a block, or off.
#[tactic(auto, using(sources::proofs::WordsLaws::word_values, crate::proofs::ReadByForm::wrong_length, crate::proofs::ReadByForm::off_read, crate::proofs::ReadByForm::bad_read, crate::proofs::ReadByForm::lit_read), unfolding(crate::specs::Steps::Found))]
pub fn read_block(block: &[u32]) -> Result<Option<Lighting>, Refusal>
    ensures { answer_of result ≡ block_read block.now }
{
    let Ok(block) = <&[u32; 328]>::try_from(block) else {
        return Err(Refusal::WrongBlock);
    };
    match checked(block)? {
        None => Ok(None),
        Some(lit) => Ok(Some(lighting_of(lit.marked))),
    }
}
