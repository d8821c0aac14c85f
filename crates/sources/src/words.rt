// Words that a caller has as words or as bytes: one code serves both, by the type of a word. `words_of` sees bytes as words, `value_at` reads one.
ghost use Rattle.std.specs.Prelude.{◌≡◌, ◌<◌, ℕ, length, map, get_or};
ghost use Rattle.sources.specs.Sources.{word_of, words_of};

// A word as a caller has it.
pub trait Word: Copy {
    ghost value: { Self → ℕ };

    fn value(self) -> u32
        ensures { result ≡ value self };
}

// A word as it is.
impl Word for u32 {
    ghost value = { λ n. n };

    #[inline(always)]
    fn value(self) -> u32 {
        self
    }
}

// Four bytes, the least first.
impl Word for [u8; 4] {
    ghost value = { word_of };

    #[inline(always)]
    #[tactic(auto, unfolding(crate::specs::Sources::word_of))]
    fn value(self) -> u32 {
        u32::from_le_bytes(self)
    }
}

// Bytes as words; what is left over at the end is no word.
#[inline(always)]
pub fn words_of(bytes: &[u8]) -> &[[u8; 4]]
    ensures { map word_of result.now ≡ words_of bytes.now }
{
    bytes.as_chunks().0
}

// Word number `at`.
// Asks: there is such a word; the caller has counted them once for all its reads.
#[inline(always)]
pub fn value_at<W: Word>(words: &[W], at: usize) -> u32
    requires { at < length words.now }
    ensures { result ≡ get_or (map W.value words.now) at 0 }
{
    words[at].value()
}

// All of `from` into `to`. A loop, since the library's `copy_from_slice` becomes a call of memmove where the compiler doesn't see two slices apart, and the archive for C
// needs nothing from outside but memcpy and memset.
// Asks: two of one length; the lengths of a call's slices are looked at before any is changed.
#[inline(always)]
#[tactic(auto, using(crate::proofs::Copies::copy_more, crate::proofs::Copies::copy_all))]
pub fn copy(to: &mut [u32], from: &[u32])
    requires { length to.old ≡ length from.now }
    ensures { to.new ≡ from.now }
{
    for i in 0..from.len() {
        to[i] = from[i];
    }
}
