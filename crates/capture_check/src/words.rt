// A capture's bytes as words.
ghost use Rattle.std.specs.Prelude.{◌≡◌, ◌*◌, ◌≤◌, length};
ghost use Rattle.sources.specs.Sources.{words_of};
ghost use Rattle.printing.specs.Steps.{out as out_at, puts};

use sources::words::{value_at, words_of};

// The input's words into the front of `words`; how many there are.
// Asks: room for them; the caller lends the words of the longest input, whose size was looked at.
// It stays a function of its own: put into the call that makes the array, the array is cleared twice, and before the input's size is looked at.
#[inline(never)]
pub fn to_words(input: &[u8], words: &mut [u32]) -> usize
    requires { length input.now ≤ 4 * length words.old }
    ensures { (out_at words.new result ≡ puts (out_at words.old 0) (words_of input.now)) × (result ≤ length words.new) }
{
    let from = words_of(input);
    for i in 0..from.len() {
        words[i] = value_at(from, i);
    }
    from.len()
}
