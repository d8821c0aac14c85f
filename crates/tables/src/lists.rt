// A list of register writes in one call.
ghost use Rattle.std.specs.Prelude.{◌≡◌};
ghost use Rattle.tables.specs.Tables.{writes, write_each, writes_of};

use crate::WrittenEach;
use crate::registers::write;

// The pairs of register and value one after another, up to the first that is refused: those before it are made. A word that is left over at the end is none.
#[tactic(auto, using(crate::proofs::ListLaws::none_left, crate::proofs::ListLaws::made, crate::proofs::ListLaws::pair_at))]
pub fn write_each(
    file: &mut [u32],
    tables: &mut [u32],
    generation: u64,
    pairs: &[u32],
) -> WrittenEach
    ensures { writes_of result file.new tables.new ≡ write_each (writes 0 0 file.old tables.old generation) pairs.now }
{
    let (whole, _) = pairs.as_chunks::<2>();
    let mut g = generation;
    for (done, &[register, value]) in whole.iter().enumerate() {
        match write(file, tables, g, register, value) {
            Err(refusal) => {
                return WrittenEach {
                    outcome: Err(refusal),
                    done,
                    generation: g,
                };
            }
            Ok(raised) => {
                g = raised;
            }
        }
    }
    WrittenEach {
        outcome: Ok(()),
        done: whole.len(),
        generation: g,
    }
}
