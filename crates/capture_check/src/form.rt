// The form of a capture: its count, its contents, and bodies that follow them without gaps to the end.
ghost use Rattle.std.specs.Prelude.{◌≡◌, ◌≤◌};
ghost use Rattle.capture_check.specs.Contents.{gapless as gapless_of, shaped as shaped_of};
ghost use Rattle.capture_check.specs.Steps.{bodies};

use crate::contents::{Entry, triples};

// Whether the bodies follow each other without gaps, from `start` to `end`.
fn gapless(contents: &[[u32; 3]], start: usize, end: usize) -> bool
    requires { start ≤ end }
    ensures { result ≡ gapless_of (bodies contents.now) start end }
{
    let mut at = start;
    for triple in contents {
        let entry = Entry::from(*triple);
        if !entry.lies(at, end) {
            return false;
        }
        at += entry.size as usize;
    }
    at == end
}

// Whether the words have the form of a capture.
pub(crate) fn shaped(words: &[u32]) -> bool
    ensures { result ≡ shaped_of words.now }
{
    if words.is_empty() {
        return false;
    }
    let count = words[0] as usize;
    if count > 16 {
        return false;
    }
    let end = 1 + 3 * count;
    if words.len() < end {
        return false;
    }
    gapless(triples(words), end, words.len())
}
