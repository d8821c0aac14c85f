// The eight channels as words of an answer.
ghost use Rattle.std.specs.Prelude.{◌≡◌, ◌+◌, ◌<◌, ◌≤◌, ◌++◌, length, take, drop};

// The eight channels into the 8 words from `at` on.
// Asks: words for all of them; an answer that is too short is refused before a channel is worked out.
#[inline(always)]
pub fn put(answer: &mut [u32], at: usize, k: [u32; 8])
    requires { (at + 8 ≤ length answer.old) × (at + 8 < 0x10000000000000000) }
    ensures { answer.new ≡ take at answer.old ++ (k ++ drop (at + 8) answer.old) }
{
    answer[at..at + 8].copy_from_slice(&k);
}
