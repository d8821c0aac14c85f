// Numbers in decimal. By hand, since no number has more than three digits: `itoa` writes one of any size into a buffer of its own, of 40 bytes, from which it would be
// copied.
ghost use Rattle.std.specs.Prelude.{◌≡◌, ◌<◌};
ghost use Rattle.printing.specs.Printing.{digit_byte, decimal};
ghost use Rattle.printing.specs.Steps.{Adds, HasRoom};

use crate::Lines;

// The byte of a digit.
fn digit(n: u32) -> u8
    requires { n < 10 }
    ensures { result ≡ digit_byte n }
{
    b'0' + n as u8
}

impl<'a> Lines<'a> {
    // A number below 1000 in decimal.
    #[tactic(auto, unfolding(crate::specs::Printing::decimal))]
    pub(crate) fn put_decimal(&mut self, k: u32)
        requires { HasRoom self.old 3 × (k < 1000) }
        ensures { Adds self.old self.new (decimal k) }
    {
        if k < 10 {
            self.put_text(&[digit(k)]);
        } else if k < 100 {
            self.put_text(&[digit(k / 10), digit(k % 10)]);
        } else {
            self.put_text(&[digit(k / 100), digit(k / 10 % 10), digit(k % 10)]);
        }
    }
}
