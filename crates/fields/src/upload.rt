// The value and the step of a word of table data, and their bits.
ghost use Rattle.std.specs.Prelude.{◌≡◌};
ghost use Rattle.fields.specs.Fields.{upload_value, upload_step, upload_value_bits, upload_step_bits};

// The value of a table's entry, from a word of table data.
fn upload_value(word: u32) -> f32
    ensures { result ≡ upload_value word }
{
    (word % 0x1000) as f32 / 4095.0
}

// The step from that entry to the next: an 11-bit magnitude with the sign above it.
fn upload_step(word: u32) -> f32
    ensures { result ≡ upload_step word }
{
    let magnitude = (word / 0x1000 % 0x800) as f32 / 2047.0;
    if word / 0x80_0000 % 2 == 1 {
        -magnitude
    } else {
        magnitude
    }
}

#[tactic(auto, unfolding(crate::specs::Fields::upload_value_bits), using(crate::specs::UploadLaws::value_number))]
pub fn upload_value_bits(word: u32) -> u32
    ensures { result ≡ upload_value_bits word }
{
    f32::to_bits(upload_value(word))
}

#[tactic(auto, unfolding(crate::specs::Fields::upload_step_bits), using(crate::specs::UploadLaws::step_number))]
pub fn upload_step_bits(word: u32) -> u32
    ensures { result ≡ upload_step_bits word }
{
    f32::to_bits(upload_step(word))
}
