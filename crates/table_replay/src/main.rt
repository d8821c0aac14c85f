// Replays a list of writes and restores, and compares each answer with the Rust module's: how many calls there were and how many differ, and each difference.
#![tactic(auto)]

use refusals::Refusal;
use std::fmt;
use word_text::word_at;

// The words of one call in the list: its kind, two arguments and the answer.
const CALL_WORDS: usize = 9;

// A call of the list.
enum Call {
    Write { register: u32, value: u32 },
    // of `count` words that follow from a seed
    Restore { seed: u32, count: u32 },
}

impl Call {
    // The call that the words begin with; kind 1 is a write, any other a restore.
    fn from_words(words: &[u32]) -> Call {
        let a = word_at(words, 1);
        let b = word_at(words, 2);
        match word_at(words, 0) {
            1 => Call::Write {
                register: a,
                value: b,
            },
            _ => Call::Restore { seed: a, count: b },
        }
    }

    fn run(self, file: &mut [u32], entries: &mut [u32], generation: u64) -> Result<u64, Refusal> {
        match self {
            Call::Write { register, value } => {
                tables::registers::write(file, entries, generation, register, value)
            }
            Call::Restore { seed, count } => restore(entries, generation, seed, count),
        }
    }
}

// What a call left: its number, 1C5, the generation's low word, the two words of the entry that 1C5 named before it, and the sum of all entries.
#[derive(Clone, Copy, PartialEq)]
struct Answer {
    number: u32,
    index: u32,
    generation: u32,
    value: u32,
    step: u32,
    sum: u32,
}

impl fmt::Display for Answer {
    fn fmt<W: fmt::Write>(&self, f: &mut fmt::Formatter<W>) -> fmt::Result {
        write!(
            f,
            "{:08x} {:08x} {:08x} ",
            self.number, self.index, self.generation
        )?;
        write!(f, "{:08x} {:08x} {:08x}", self.value, self.step, self.sum)
    }
}

// How many calls were replayed and how many of those differ, and the generation after them.
#[derive(Clone, Copy, Default)]
struct Count {
    calls: u64,
    differ: u64,
    generation: u64,
}

// Words that follow from a seed: each is the one before times 1664525 plus 1013904223, cut to 32 bits, and the first follows so from the seed.
fn generate(words: &mut [u32], seed: u32) {
    let mut x = seed;
    for word in words.iter_mut() {
        x = x.wrapping_mul(1664525).wrapping_add(1013904223);
        *word = x;
    }
}

// A sum over all words that every one of them changes: for each word times 16777619, and the word added, cut to 32 bits.
fn sum_of(words: &[u32]) -> u32 {
    words.iter().fold(
        0u32,
        |sum, word| sum.wrapping_mul(16777619).wrapping_add(*word),
    )
}

// A restore of `count` words that follow from a seed, of all 12,288 where that is too many.
fn restore(entries: &mut [u32], generation: u64, seed: u32, count: u32) -> Result<u64, Refusal> {
    let mut saved = [0u32; 12288];
    generate(&mut saved, seed);
    let count = saved.len().min(count as usize);
    tables::copies::restore(entries, generation, &saved[..count])
}

// The call that the words begin with.
fn replay_call(
    rt: &impl Print,
    file: &mut [u32],
    entries: &mut [u32],
    words: &[u32],
    mut count: Count,
) -> Count {
    // tables 24 to 31 have no entry
    let named = (word_at(file, 0x1C5) % 0x2000) as usize * 2;
    let written = Call::from_words(words).run(file, entries, count.generation);
    count.calls = count.calls.saturating_add(1);
    count.generation = written.unwrap_or(count.generation);
    let got = Answer {
        number: refusals::outcome_number(written.map(|_| ())),
        index: word_at(file, 0x1C5),
        generation: (count.generation % 0x1_0000_0000) as u32,
        value: word_at(entries, named),
        step: word_at(entries, named + 1),
        sum: sum_of(entries),
    };
    let wanted = Answer {
        number: word_at(words, 3),
        index: word_at(words, 4),
        generation: word_at(words, 5),
        value: word_at(words, 6),
        step: word_at(words, 7),
        sum: word_at(words, 8),
    };
    if got != wanted {
        count.differ = count.differ.saturating_add(1);
        let _ = println!(rt; "call {} gives {got} and not {wanted}", count.calls);
    }
    count
}

// Every call of the list, on one unit.
fn replay(rt: &impl Print, file: &mut [u32], entries: &mut [u32], words: &[u32]) -> Count {
    let mut count = Count::default();
    for call in words.chunks(CALL_WORDS) {
        count = replay_call(rt, file, entries, call, count);
    }
    count
}

fn main(rt: HostRuntime) {
    let mut words = [0u32; 8192];
    let size = word_text::load_file(&rt, b"calls.txt", &mut words);
    let mut file = [0u32; 474];
    let mut entries = [0u32; 12288];
    let Count { calls, differ, .. } = replay(&rt, &mut file, &mut entries, &words[..size]);
    let _ = println!(rt; "{calls} calls replayed, {differ} differ");
}
