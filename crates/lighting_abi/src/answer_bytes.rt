// The eight channels of an answer as bytes: a word is four, the least first.
ghost use Rattle.std.specs.Prelude.{◌≡◌, length};
ghost use Rattle.lighting_abi.specs.Boundary.{bytes_of};

// All eight in their places.
pub(crate) fn put(answer: &mut [u8], channels: [u32; 8])
    requires { length answer.old ≡ 32 }
    ensures { answer.new ≡ bytes_of channels }
{
    for (i, channel) in channels.iter().enumerate() {
        answer[4 * i..4 * i + 4].copy_from_slice(&channel.to_le_bytes());
    }
}
