// Runs a list of captures and writes what each prints, under its number. The file `stdout` has the Rust module's lines.
#![tactic(auto)]

ghost use Rattle.std.specs.Prelude.{◌^◌, ◌<◌};

use word_text::word_at;

// What an entry of the list says of the capture that is being put together.
enum Entry {
    // words of the list
    Words,
    // any words, or any numbers, that follow from a seed
    MadeWords,
    MadeNumbers,
    // the capture is there, and is run
    Run,
}

impl From<u32> for Entry {
    fn from(number: u32) -> Entry {
        match number {
            0 => Entry::Words,
            2 => Entry::MadeNumbers,
            3 => Entry::Run,
            _ => Entry::MadeWords,
        }
    }
}

// Each number follows from the one before.
fn following(x: u32) -> u32 {
    x.wrapping_mul(1664525).wrapping_add(1013904223)
}

// The float between a half and one, or between minus one and minus a half, whose other bits are those of a word.
fn number_of(x: u32) -> u32 {
    x / 0x8000_0000 * 0x8000_0000 + 0x3F00_0000 + x / 0x100 % 0x80_0000
}

// The capture that is being put together, of which `size` bytes are there, and how many captures were run.
#[derive(Drop)]
struct Captures<'a> {
    bytes: &'a mut [u8],
    size: usize,
    ran: u64,
}

impl Captures<'_> {
    // A byte at the capture's end. What the buffer can't take is left out.
    fn put_byte(&mut self, b: u8) {
        if self.size < self.bytes.len() {
            self.bytes[self.size] = b;
            self.size += 1;
        }
    }

    // A word's four bytes, the lowest first.
    fn put_word(&mut self, word: u32) {
        for byte in word.to_le_bytes() {
            self.put_byte(byte);
        }
    }

    // So many words of the entry that the words begin with, which follow its first two.
    fn put_words(&mut self, words: &[u32], count: u32) {
        for i in 0..count as usize {
            self.put_word(word_at(words, 2 + i));
        }
    }

    // So many words that follow from a seed, each put as what `word` makes of it.
    fn make_words<F: Fn(u32) -> u32 + Drop>(&mut self, count: u32, seed: u32, word: F)
        requires { F.IsAlwaysCallable word }
    {
        let mut x = seed;
        for _ in 0..count {
            x = following(x);
            self.put_word(word(x));
        }
    }

    // Runs the first `size` bytes, if there is room for so many; the next capture starts anew.
    fn run(&mut self, rt: &impl Print, size: usize) {
        let number = self.ran.saturating_add(1);
        self.ran = number;
        self.size = 0;
        if let Some(input) = self.bytes.get(..size) {
            run(rt, input, number);
        }
    }
}

fn run(rt: &impl Print, input: &[u8], number: u64) {
    let mut output = [0u8; 22784];
    let answer = capture::run_capture(input, &mut output);
    let size = capture_calls::printed_size(answer, 0);
    let _ = println!(rt; "capture {number}");
    let _ = rt.write_all(&output[..size]);
}

// The entry that the words begin with; how many words it takes.
fn step(rt: &impl Print, words: &[u32], captures: &mut Captures) -> usize
    ensures { (0 < result) × (result < 2 ^ 33) }
{
    let count = word_at(words, 1);
    match Entry::from(word_at(words, 0)) {
        Entry::Words => {
            captures.put_words(words, count);
            2 + count as usize
        }
        Entry::MadeWords => {
            captures.make_words(count, word_at(words, 2), |x| x);
            3
        }
        Entry::MadeNumbers => {
            captures.make_words(count, word_at(words, 2), number_of);
            3
        }
        Entry::Run => {
            captures.run(rt, count as usize);
            2
        }
    }
}

// The whole list, each capture being put together in `bytes`; how many there were. Its entries are of many lengths, so that no iterator goes over them.
fn replay(rt: &impl Print, words: &[u32], bytes: &mut [u8]) -> u64 {
    let mut captures = Captures {
        bytes,
        size: 0,
        ran: 0,
    };
    let mut at = 0;
    while at < words.len() {
        at += step(rt, &words[at..], &mut captures);
    }
    captures.ran
}

fn main(rt: HostRuntime) {
    let mut words = [0u32; 32768];
    let size = word_text::load_file(&rt, b"captures.txt", &mut words);
    let mut bytes = [0u8; 66560];
    let ran = replay(&rt, &words[..size], &mut bytes);
    let _ = println!(rt; "{ran} captures");
}
