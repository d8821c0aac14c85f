// The quotients of a colour's fields from a constant table: `pairs` has it, two words to an entry.
#![tactic(auto)]

mod pairs;

ghost use Rattle.std.specs.Prelude.{◌≡◌, ◌%◌, get_or};
ghost use Rattle.quotients.specs.Steps.{quotient_words};

use crate::pairs::pair;

// The word of a colour field over 255; the field is the low 10 bits of the value.
pub fn colour_word(value: u32) -> u32
    ensures { result ≡ get_or quotient_words (value % 1024) 0 }
{
    let two = pair(value / 2 % 512);
    ((two >> (value % 2 * 32)) % 0x1_0000_0000) as u32
}
