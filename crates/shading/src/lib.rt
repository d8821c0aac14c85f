// The shading of a fragment from a lighting: `parts` has what it takes of the lighting, `sums` the lights one after another, `channels` and `answer_words` how the sums end.
#![tactic(auto)]

pub mod answer_words;
mod channels;
pub mod parts;
pub mod sums;

ghost use Rattle.std.specs.Prelude.{◌≡◌, true, length, map};
ghost use Rattle.refusals.specs.Refusals.{outcome_number};
ghost use Rattle.lighting.specs.Lighting.{in_range};
ghost use Rattle.shading.specs.Shade.{shaded, shades};
ghost use Rattle.shading.specs.Steps.{shade_by, shade_of};

use lighting::Lighting;
use refusals::Refusal;
use sources::words::Word;
use surface::Frame;

// The eight channels, 0 to 255, in the printed order, from the frame and the shadow.
// Asks: a lighting in range, which the caller has looked at before it makes the frame.
#[tactic(auto, using(block::proofs::PackedLaws::range_count, crate::proofs::Answers::numbered), unfolding(crate::specs::Steps::shade_by))]
pub fn shade_by<W: Word>(
    tables: &[W; 12288],
    l: Lighting,
    frame: Frame,
    shadow: [f32; 4],
) -> [u32; 8]
    requires { in_range l ≡ true }
    ensures { result ≡ shade_by (map W.value tables.now) l frame shadow }
{
    let lookups = parts::lookups_of(l);
    let settings = parts::settings_of(l, shadow);
    let sums = sums::sum_lights(tables, lookups, frame, settings, l.lights, l.light_count);
    parts::finished(l, sums, shadow)
}

// From the quaternion, the view and the texels.
#[tactic(auto, using(block::proofs::PackedLaws::range_bump, block::proofs::PackedLaws::range_shadow), unfolding(surface::specs::Steps::frame_of, crate::specs::Steps::lighting_frame, crate::specs::Steps::lighting_shadow, crate::specs::Steps::shade_of))]
fn shade_in_range<W: Word>(
    l: Lighting,
    tables: &[W; 12288],
    quaternion: [f32; 4],
    view: [f32; 3],
    texels: [[f32; 4]; 4],
) -> [u32; 8]
    requires { in_range l ≡ true }
    ensures { result ≡ shade_of l (map W.value tables.now) quaternion view texels }
{
    let unit = surface::unit_quaternion(quaternion);
    let frame = parts::frame_of(l, unit, view, texels[lighting::bump_unit(l.bump)]);
    let shadow = parts::shadow_of(l, texels[lighting::shadow_unit(l.shadow)]);
    shade_by(tables, l, frame, shadow)
}

// The eight channels of a fragment, 0 to 255, in the printed order, or a refusal and the answer as it
// was.
#[tactic(auto, using(crate::proofs::Answers::wrong_tables, crate::proofs::Answers::wrong_answer, crate::proofs::Answers::refused, crate::proofs::Answers::eight, block::proofs::AcceptedLaws::accepted_range))]
pub fn shade(
    lighting: Lighting,
    tables: &[u32],
    quaternion: [f32; 4],
    view: [f32; 3],
    texels: [[f32; 4]; 4],
    answer: &mut [u32],
) -> Result<(), Refusal>
    ensures { shaded (outcome_number result) answer.new ≡ shades lighting tables.now quaternion view texels answer.old }
{
    let Ok(tables) = <&[u32; 12288]>::try_from(tables) else {
        return Err(Refusal::WrongTables);
    };
    if answer.len() != 8 {
        return Err(Refusal::WrongFragment);
    }
    if !block::accepted::acceptable(lighting) {
        return Err(Refusal::NotWellFormed);
    }
    answer_words::put(
        answer,
        0,
        shade_in_range(lighting, tables, quaternion, view, texels),
    );
    Ok(())
}
