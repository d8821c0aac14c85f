// The shading of fragments' words from a block that was found lit: its head is read once, its lights slot by slot, where they are needed. The block, the tables and
// the fragments come as words or as bytes.
ghost use Rattle.std.specs.Prelude.{◌≡◌, ◌*◌, ◌<◌, [], length, map, slice_index_or};
ghost use Rattle.block_shading.specs.BlockShading.{quaternion_of, eight_of};
ghost use Rattle.block.specs.Block.{words, block_lights, block_lighting};
ghost use Rattle.block_shading.specs.Steps.{head_of, eights};
ghost use Rattle.surface.specs.Steps.{unit_quaternion};
ghost use Rattle.shading.specs.Steps.{sums_by};

use crate::fragments;
use block_reading::light::light_of;
use block_reading::lit::LitBlock;
use light_steps::types::{LightingLookups, Settings, Sums};
use lighting::{Lighting, Slot, blank_light};
use sources::words::Word;
use surface::Frame;

// The lighting but its lights, which stay blank.
#[inline(always)]
#[tactic(auto, unfolding(crate::specs::Steps::head_of))]
fn head_of<W: Word>(block: LitBlock<'_, W>) -> Lighting
    ensures { result ≡ head_of (words (map W.value block.entry.marked.words.now)) }
{
    let lights = [blank_light(); 8];
    block_reading::head::lighting_with(block.marked, lights)
}

#[inline(always)]
pub fn unit_quaternion_of<W: Word>(fragment: &[W; 23]) -> [f32; 4]
    ensures { result ≡ unit_quaternion (quaternion_of (map W.value fragment.now)) }
{
    surface::unit_quaternion(fragments::quaternion_of(fragment))
}

// The sums of the lit slots. A loop beside that of `shading::sums`, which has the lights in a list: one over a closure that gives a slot's light would say in its
// contract what each call gives, and be longer than both.
#[inline(always)]
#[tactic(auto, using(crate::specs::HeadLaws::few, crate::specs::HeadLaws::lit_number, crate::specs::HeadLaws::lit_light), unfolding(shading::specs::Steps::sums_by))]
fn sum_slots<B: Word, T: Word>(
    block: LitBlock<'_, B>,
    tables: &[T; 12288],
    lookups: LightingLookups,
    frame: Frame,
    settings: Settings,
    count: usize,
) -> Sums
    requires { count ≡ words (map B.value block.marked.words.now) 1 }
    ensures { result ≡ sums_by (map T.value tables.now) lookups frame settings (block_lights (words (map B.value block.entry.marked.words.now))) count count }
{
    let mut sums = shading::sums::start();
    for slot in 0..count {
        let light = light_of(block.marked, Slot(slot));
        let last = shading::sums::is_last(Slot(slot), count);
        sums = light_steps::step(tables, lookups, frame, settings, last, light, sums);
    }
    sums
}

// The eight channels of a fragment, by the block and its head, and the fragment's unit quaternion.
#[inline(always)]
#[tactic(auto, using(crate::specs::HeadLaws::head_bump, crate::specs::HeadLaws::head_shadow, crate::specs::HeadLaws::head_count, crate::specs::HeadLaws::head_shades), unfolding(crate::specs::BlockShading::eight_of, surface::specs::Steps::frame_of, shading::specs::Steps::lighting_frame, shading::specs::Steps::lighting_shadow))]
fn shade_one<B: Word, T: Word, F: Word>(
    block: LitBlock<'_, B>,
    tables: &[T; 12288],
    fragment: &[F; 23],
    head: Lighting,
    unit: [f32; 4],
) -> [u32; 8]
    requires { (head ≡ head_of (words (map B.value block.marked.words.now))) × (unit ≡ unit_quaternion (quaternion_of (map F.value fragment.now))) }
    ensures { result ≡ eight_of (block_lighting (words (map B.value block.entry.marked.words.now))) (map T.value tables.now) (map F.value fragment.now) }
{
    let view = fragments::view_of(fragment);
    let bump = fragments::texel_at(fragment, lighting::bump_unit(head.bump));
    let frame = shading::parts::frame_of(head, unit, view, bump);
    let texel = fragments::texel_at(fragment, lighting::shadow_unit(head.shadow));
    let shadow = shading::parts::shadow_of(head, texel);
    let lookups = shading::parts::lookups_of(head);
    let settings = shading::parts::settings_of(head, shadow);
    let sums = sum_slots(block, tables, lookups, frame, settings, head.light_count);
    shading::parts::finished(head, sums, shadow)
}

// The eight channels of one fragment, 0 to 255, in the printed order, from its unit quaternion: whoever makes that before the check of the block has its root and
// quotients done while the check runs. It has no buffer, and no loop over fragments; many are shaded by `shade_each`, which reads the head once.
#[inline(never)]
pub fn shade_alone<B: Word, T: Word, F: Word>(
    block: LitBlock<'_, B>,
    tables: &[T; 12288],
    fragment: &[F; 23],
    unit: [f32; 4],
) -> [u32; 8]
    requires { unit ≡ unit_quaternion (quaternion_of (map F.value fragment.now)) }
    ensures { result ≡ eight_of (block_lighting (words (map B.value block.entry.marked.words.now))) (map T.value tables.now) (map F.value fragment.now) }
{
    shade_one(block, tables, fragment, head_of(block), unit)
}

// The unit quaternion of fragment i: the first one's is there.
#[inline(always)]
fn unit_quaternion_at<W: Word>(fragments: &[[W; 23]], i: usize, first: [f32; 4]) -> [f32; 4]
    requires { (i < length fragments.now) × (first ≡ unit_quaternion (quaternion_of (map W.value (slice_index_or fragments.now 0 [])))) }
    ensures { result ≡ unit_quaternion (quaternion_of (map W.value (slice_index_or fragments.now i []))) }
{
    if i == 0 {
        first
    } else {
        unit_quaternion_of(&fragments[i])
    }
}

// The eight channels of each fragment, 0 to 255, in the printed order, into its 8 words of the answers. `first` is the first fragment's unit quaternion: whoever
// makes it before the check of the block has its root and quotients done while the check runs.
// Asks: 8 words of answers for each fragment, which its callers have counted. The answers are no `&mut [[u32; 8]]`: the library says nothing of what a slice of words
// ends as when its `as_chunks_mut` has been written to. It stays a function of its own: put into the call that checks the block it takes up to 2.7 times as long.
#[inline(never)]
#[tactic(auto, using(crate::specs::FragmentsLaws::eights_put))]
pub fn shade_each<B: Word, T: Word, F: Word>(
    block: LitBlock<'_, B>,
    tables: &[T; 12288],
    fragments: &[[F; 23]],
    first: [f32; 4],
    answers: &mut [u32],
)
    requires { (length answers.old ≡ 8 * length fragments.now) × (0 < length fragments.now → first ≡ unit_quaternion (quaternion_of (map F.value (slice_index_or fragments.now 0 [])))) }
    ensures { answers.new ≡ eights (block_lighting (words (map B.value block.entry.marked.words.now))) (map T.value tables.now) F.value fragments.now }
{
    let head = head_of(block);
    for i in 0..fragments.len() {
        let unit = unit_quaternion_at(fragments, i, first);
        let channels = shade_one(block, tables, &fragments[i], head, unit);
        shading::answer_words::put(answers, 8 * i, channels);
    }
}
