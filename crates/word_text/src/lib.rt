// Words written as text, eight hexadecimal digits each, which the replayed lists of data/ are made of: a library for tests alone.
#![tactic(auto)]

ghost use Rattle.std.specs.Prelude.{◌≡◌, ◌≤◌, ◌<◌, length, get_or, take, drop, false, IfSome};
ghost use Rattle.std.specs.Counts.{IsPrefixLen};
ghost use Rattle.word_text.specs.Text.{digit_of, digits_of, is_gap, in_remark, next_of};
ghost use Rattle.word_text.specs.Load.{loaded, loaded_as, OfSomeText};

use std::fs;
use std::io::Read;
use std::rt::Files;

// Word number `at`; one that isn't there counts as 0.
pub fn word_at(words: &[u32], at: usize) -> u32
    ensures { result ≡ get_or words.now at 0 }
{
    words.get(at).copied().unwrap_or(0)
}

// The digit that a byte writes.
#[tactic(auto, unfolding(crate::specs::Text::digit_of))]
fn digit(b: u8) -> Option<u32>
    ensures value { result ≡ digit_of b }
    ensures bound { IfSome result (λ d. d < 16) }
{
    match b {
        b'0'..=b'9' => Some((b - b'0') as u32),
        b'A'..=b'F' => Some((b - b'A') as u32 + 10),
        _ => None,
    }
}

// The word whose eight digits start at `at`, and the place after it.
fn digits(text: &[u8], at: usize) -> Option<(u32, usize)>
    requires { at ≤ length text.now }
    ensures { result ≡ digits_of 8 0 (drop at text.now) at }
{
    let mut n: u32 = 0;
    for i in at..at + 8 {
        if i >= text.len() {
            return None;
        }
        n = n * 16 + digit(text[i])?;
    }
    Some((n, at + 8))
}

// Whether a byte stands between words: in a remark, or as its start, a space or a line's end.
#[tactic(auto, unfolding(crate::specs::Text::is_gap))]
fn is_gap(remark: bool, b: u8) -> bool
    ensures { result ≡ is_gap remark b }
{
    remark || matches!(b, b'#' | b' ' | b'\n')
}

// Whether the byte after it is in a remark.
#[tactic(auto, unfolding(crate::specs::Text::in_remark))]
fn in_remark(remark: bool, b: u8) -> bool
    ensures { result ≡ in_remark remark b }
{
    b != b'\n' && (remark || b == b'#')
}

// The first word from `at` on, which is not in a remark, and the place after it; none at the text's end, or where something else stands.
fn next_word(text: &[u8], at: usize) -> Option<(u32, usize)>
    ensures { result ≡ next_of false (drop at text.now) at }
{
    let mut remark = false;
    for i in at..text.len() {
        let b = text[i];
        if !is_gap(remark, b) {
            return digits(text, i);
        }
        remark = in_remark(remark, b);
    }
    None
}

// The words of a text into the front of `out`, until that is full, the text ends, or something else than a word stands there; how many there are.
fn load(text: &[u8], out: &mut [u32]) -> usize
    ensures out_after { loaded_as result out.new ≡ loaded (length out.old) text.now 0 0 out.old }
    ensures upper_bound { (result ≤ length out.new) × (result ≡ length (take result out.new)) }
{
    let mut at = 0;
    for n in 0..out.len() {
        let Some((word, next)) = next_word(text, at) else {
            return n;
        };
        out[n] = word;
        at = next;
    }
    out.len()
}

// Reads until the buffer is full, the file ends or a read fails; how many bytes were put at its front. A loop over the reads, since a read may bring fewer
// bytes than there is room for; `read_exact` would not say how many a file has that is shorter than the buffer, and `read_to_end` needs a heap.
fn read_full(file: &mut impl Read, text: &mut [u8]) -> usize
    ensures { IsPrefixLen result text.new }
{
    let mut n = 0;
    while n < text.len() {
        let Ok(more) = file.read(&mut text[n..]) else {
            return n;
        };
        if more == 0 {
            return n;
        }
        n += more;
    }
    n
}

// The file of this name, opened; where it can't be, a line on standard error says why.
fn open<R: Files + Eprint>(rt: &R, name: &[u8]) -> Option<R::File> {
    let name = match str::from_utf8(name) {
        Ok(name) => name,
        Err(e) => {
            let _ = eprintln!(rt; "a file's name is no text: {e}");
            return None;
        }
    };
    match fs::open(rt, name) {
        Ok(file) => Some(file),
        Err(e) => {
            let _ = eprintln!(rt; "{name}: {e}");
            None
        }
    }
}

// The words of a file, so loaded; none, as of an empty text, where it can't be opened. One that is too long to be read whole is said to be. That they are the file's words is
// told by what the programs print.
pub fn load_file(rt: &(impl Files + Print + Eprint), name: &[u8], out: &mut [u32]) -> usize
    ensures of_some_text { OfSomeText result out.old out.new }
    ensures upper_bound { (result ≤ length out.new) × (result ≡ length (take result out.new)) }
{
    let Some(mut file) = open(rt, name) else {
        return 0;
    };
    let mut text = [0u8; 262144];
    let n = read_full(&mut file, &mut text);
    if n == 262144 {
        let _ = rt.write_all(name);
        let _ = rt.write_all(b" is too long to be read whole\n");
    }
    load(&text[..n], out)
}
