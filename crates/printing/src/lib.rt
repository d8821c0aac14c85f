// The text that a capture prints: a fragment's line, `off`, `refused N`. The lines stand at the front of a buffer that the caller lends, since there is no heap; no line is
// longer than 32 bytes. `decimals` writes a number, and is read first; the lines stand here.
#![tactic(auto)]

mod decimals;

ghost use Rattle.std.specs.Prelude.{◌≡◌, cond, eqb, ◌≤◌, length};

use refusals::Refusal;

// The lines so far, at the front of a buffer that is lent; they have `len` bytes.
#[derive(Drop)]
pub struct Lines<'a> {
    bytes: &'a mut [u8],
    pub len: usize,
    ghost within: { len ≤ length bytes.now },
}

// What follows number i of a line of eight.
fn gap_after(i: usize) -> u8
    ensures { result ≡ cond (eqb i 7) 10 32 }
{
    if i == 7 { b'\n' } else { b' ' }
}

impl<'a> Lines<'a> {
    ghost use Rattle.std.specs.Prelude.{◌≡◌, ◌+◌, ◌<◌, ◌≤◌, [], ◌∷◌, length, take};
    ghost use Rattle.refusals.specs.Refusals.{number_of};
    ghost use Rattle.printing.specs.Steps.{out as out_at, so_far as so_far_of, Adds, HasRoom, Bytes};
    ghost use Rattle.printing.specs.Printing.{line, off_line, refused_line};

    // No line yet.
    pub fn new(bytes: &'a mut [u8]) -> Lines<'a>
        ensures same_reference { result.bytes.ghost_name ≡ bytes.entry.ghost_name }
        ensures none { so_far_of result ≡ out_at bytes.old 0 }
    {
        Lines { bytes, len: 0 }
    }

    // Their bytes.
    pub fn text(&self) -> &[u8]
        ensures { result.now ≡ take self.now.len self.now.bytes.now }
    {
        &self.bytes[..self.len]
    }

    // One byte.
    #[tactic(auto, unfolding(crate::specs::Steps::puts))]
    fn put_byte(&mut self, byte: u8)
        requires { HasRoom self.old 1 }
        ensures { Adds self.old self.new (byte ∷ []) }
    {
        self.bytes[self.len] = byte;
        self.len += 1;
    }

    // A text as it is.
    #[tactic(auto, using(crate::specs::WritingLaws::puts_copied))]
    fn put_text(&mut self, text: &[u8])
        requires { HasRoom self.old (length text.now) }
        ensures { Adds self.old self.new text.now }
    {
        let end = self.len + text.len();
        self.bytes[self.len..end].copy_from_slice(text);
        self.len = end;
    }

    // The eight k of a fragment.
    // Asks: room for the longest line and numbers of at most three digits; the caller lends one buffer for all lines, and what does not fit would have no answer.
    pub fn put_line(&mut self, k: [u32; 8])
        requires room { HasRoom self.old 32 }
        requires bytes { Bytes k }
        ensures text { Adds self.old self.new (line k) }
        ensures room { self.new.len ≤ self.old.len + 32 }
    {
        for (i, number) in k.iter().enumerate() {
            self.put_decimal(*number);
            self.put_byte(gap_after(i));
        }
    }

    // The line of a fragment where the lighting is off.
    // Asks: room for its four bytes.
    pub fn put_off(&mut self)
        requires { HasRoom self.old 4 }
        ensures text { Adds self.old self.new off_line }
        ensures room { self.new.len ≤ self.old.len + 4 }
    {
        self.put_text(b"off\n");
    }

    // The line of a refusal by its number.
    // Asks: room for its longest, and a number of at most three digits, as every refusal has.
    pub fn put_refused_number(&mut self, number: u32)
        requires { HasRoom self.old 12 × (number < 1000) }
        ensures text { Adds self.old self.new (refused_line number) }
        ensures room { self.new.len ≤ self.old.len + 12 }
    {
        self.put_text(b"refused ");
        self.put_decimal(number);
        self.put_byte(b'\n');
    }

    // The line of a refusal.
    // Asks: room for its longest.
    #[tactic(auto, using(crate::specs::AddedLaws::refusal_small))]
    pub fn put_refused(&mut self, refusal: Refusal)
        requires { HasRoom self.old 12 }
        ensures text { Adds self.old self.new (refused_line (number_of refusal)) }
        ensures room { self.new.len ≤ self.old.len + 12 }
    {
        self.put_refused_number(u32::from(refusal));
    }
}
