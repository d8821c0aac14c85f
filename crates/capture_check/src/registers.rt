// The registers of a capture whose form is right.
ghost use Rattle.std.specs.Prelude.{◌≡◌};
ghost use Rattle.capture_check.specs.Contents.{registers_in, body_right, registers_right};
ghost use Rattle.capture_check.specs.Steps.{bodies, Within};

use crate::contents::{BodyKind, Entry, body_words};

// Whether each register of these register, value pairs is one.
fn registers_in(words: &[u32]) -> bool
    ensures { result ≡ registers_in words.now }
{
    let (pairs, _) = words.as_chunks::<2>();
    pairs.iter().all(|[register, _]| *register < 474)
}

// The same of a body of any kind.
#[tactic(auto, using(crate::proofs::registers::ByKind::writes_right, crate::proofs::registers::ByKind::fragments_right, crate::proofs::registers::ByKind::restore_right, crate::proofs::registers::ByKind::none_right))]
fn body_right(kind: u32, body: &[u32]) -> bool
    ensures { result ≡ body_right kind body.now }
{
    match BodyKind::from_number(kind) {
        Some(BodyKind::Writes) => registers_in(body),
        Some(BodyKind::Fragments | BodyKind::Restore) | None => true,
    }
}

// Whether no register of any kind 1 body is too high, each body lying within the words.
pub(crate) fn registers_right(words: &[u32], contents: &[[u32; 3]]) -> bool
    requires { Within words.now contents.now }
    ensures { result ≡ registers_right words.now (bodies contents.now) }
{
    for triple in contents {
        let entry = Entry::from(*triple);
        if !body_right(entry.kind, body_words(words, entry)) {
            return false;
        }
    }
    true
}
