// Packing: the block of a lighting, as the words of the hardware renderer's uniform block, in the order its shader declares them. `flag_words` and `rows` have the pieces,
// `head_words` the first 40 words, `light_words` a slot's.
#![tactic(auto)]

mod flag_words;
mod head_words;
mod light_words;
mod rows;

ghost use Rattle.std.specs.Prelude.{◌≡◌, true, cond, ◌≤◌, ◌<◌, length, replicate};
ghost use Rattle.refusals.specs.Refusals.{outcome_number};
ghost use Rattle.block.specs.Block.{slot_words, packed, slot_at, packing, packs};
ghost use Rattle.lighting.specs.Lighting.{in_range};
ghost use Rattle.packing.specs.Steps.{put_words};

use crate::head_words::put_head;
use crate::light_words::put_light;
use crate::rows::put_zeros;
use block::slot_at;
use lighting::{Lighting, Slot};
use refusals::Refusal;

// Each slot's part by itself: its light's words, or zeros where it isn't lit.
#[tactic(auto, unfolding(block::specs::Block::slot_words, lighting::specs::Lighting::light_at), using(block::proofs::PackedLaws::range_number))]
fn put_slot(block: &mut [u32; 328], l: &Lighting, slot: Slot)
    requires { (in_range l.now ≡ true) × (slot.0 < 8) }
    ensures { block.new ≡ put_words block.old (slot_at slot) (slot_words l.now slot) }
{
    let at = slot_at(slot);
    if slot.0 < l.light_count {
        put_light(block, at, l.lights[slot.0]);
    } else {
        put_zeros(block, at);
    }
}

// All 328 words.
// Asks: a lighting in range, as every decoded one is, so that none of its parts is looked at again. It is asked, and is no type around a lighting: who decodes has the
// lighting, and each part would be taken out of the type again.
pub fn fill(block: &mut [u32; 328], l: Lighting)
    requires { in_range l ≡ true }
    ensures { block.new ≡ packed l }
{
    put_head(block, l);
    for slot in 0..8 {
        put_slot(block, &l, Slot(slot));
    }
}

// The block of a lighting, or a refusal and the block as it was.
#[tactic(auto, unfolding(block::specs::Block::packs, block::specs::Block::pack_refusal, block::specs::Block::lighting_refusal, refusals::specs::Refusals::block_refusal), using(block::proofs::AcceptedLaws::accepted_range))]
pub fn pack(lighting: Lighting, block: &mut [u32]) -> Result<(), Refusal>
    ensures { packing (outcome_number result) block.new ≡ packs lighting block.old }
{
    let Some(block) = block.as_mut_array() else {
        return Err(Refusal::WrongBlock);
    };
    if !block::accepted::acceptable(lighting) {
        return Err(Refusal::NotWellFormed);
    }
    fill(block, lighting);
    Ok(())
}
