// The lines that a capture's fragments print, from the copy's block and tables: each is what block shading answers. The block is checked once for all of them.
#![tactic(auto)]

ghost use Rattle.std.specs.Prelude.{◌≡◌, ℕ, ◌+◌, ◌*◌, ◌/◌, ◌≤◌, List, length};
ghost use Rattle.block.specs.Block.{words, block_lighting};
ghost use Rattle.printing.specs.Steps.{Adds, HasRoom};
ghost use Rattle.capture_lines.specs.Lines.{shown_line, fragment_lines};
ghost use Rattle.capture_lines.specs.Steps.{lit_shades, block_shades, found_shades};

use block_reading::lit::{LitBlock, checked};
use printing::Lines;
use refusals::Refusal;
use std::slice;

// What is found of a block and tables, once for all fragments: a refusal, or `None` where the block is off, or a block that colours beside the tables.
fn found<'a>(
    block: &'a [u32],
    tables: &'a [u32],
) -> Result<Option<(LitBlock<'a, u32>, &'a [u32; 12288])>, Refusal>
    ensures { (q : List ℕ) → length q ≡ 23 → block_shades block.now tables.now q ≡ found_shades (λ lit. lit_shades (block_lighting (words lit.0.marked.words.now)) lit.1.now) result q }
{
    let Ok(block) = <&[u32; 328]>::try_from(block) else {
        return Err(Refusal::WrongBlock);
    };
    let Ok(tables) = <&[u32; 12288]>::try_from(tables) else {
        return Err(Refusal::WrongTables);
    };
    match checked(block) {
        Ok(Some(block)) => Ok(Some((block, tables))),
        Ok(None) => Ok(None),
        Err(refusal) => Err(refusal),
    }
}

// The line of a fragment that the block colours. By `shade_each` of the one, though `shade_alone` would need no buffer: with that a capture of 8 lights takes
// 1.9 times the Rust's time, with this 0.9, and one of 1 light 1.3 and 0.8.
fn print_lit(
    block: LitBlock<'_, u32>,
    tables: &[u32; 12288],
    fragment: &[u32; 23],
    lines: &mut Lines<'_>,
)
    requires { HasRoom lines.old 32 }
    ensures text { Adds lines.old lines.new (shown_line (lit_shades (block_lighting (words block.entry.marked.words.now)) tables.now fragment.now)) }
    ensures room { lines.new.len ≤ lines.old.len + 32 }
{
    let mut k = [0u32; 8];
    let unit = block_shading::slots::unit_quaternion_of(fragment);
    block_shading::slots::shade_each(block, tables, slice::from_ref(fragment), unit, &mut k);
    lines.put_line(k);
}

// The line of a fragment, by what was found of the block and the tables: its colours, `off`, or a refusal.
#[tactic(auto, using(crate::specs::FormedLaws::off_found_shown))]
fn print_fragment(
    found: Result<Option<(LitBlock<'_, u32>, &[u32; 12288])>, Refusal>,
    fragment: &[u32; 23],
    lines: &mut Lines<'_>,
)
    requires { HasRoom lines.old 32 }
    ensures text { Adds lines.old lines.new (shown_line (found_shades (λ lit. lit_shades (block_lighting (words lit.0.marked.words.now)) lit.1.now) found.entry fragment.now)) }
    ensures room { lines.new.len ≤ lines.old.len + 32 }
{
    match found {
        Ok(Some((block, tables))) => print_lit(block, tables, fragment, lines),
        Ok(None) => lines.put_off(),
        Err(refusal) => lines.put_refused(refusal),
    }
}

// The lines of fragments of 23 words each.
// Asks: 32 bytes of room for each fragment; a capture's size bounds how many there are, and a line that does not fit would have no answer.
pub fn print_fragments(block: &[u32], tables: &[u32], fragments: &[u32], lines: &mut Lines<'_>)
    requires { HasRoom lines.old (32 * (length fragments.now / 23)) }
    ensures text { Adds lines.old lines.new (fragment_lines (block_shades block.now tables.now) (length fragments.now / 23) fragments.now) }
    ensures room { lines.new.len ≤ lines.old.len + 32 * (length fragments.now / 23) }
{
    let found = found(block, tables);
    for fragment in fragments.as_chunks::<23>().0 {
        print_fragment(found, fragment, lines);
    }
}
