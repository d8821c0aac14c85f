// The refusals that the number of words of each slice decides; past them a file is one whose registers are all there.
ghost use Rattle.std.specs.Prelude.{◌≡◌, length, take, MatchResult};
ghost use Rattle.refusals.specs.Refusals.{number_of, file_refusal, block_refusal, ◌else◌};
ghost use Rattle.unit.specs.Unit.{hand_over_refusal};

use decoding::{RegisterFile, registers_of};
use refusals::Refusal;

// 1 and 6.
pub(crate) fn read_lengths(file: &[u32], block: usize) -> Result<&RegisterFile, Refusal>
    ensures { MatchResult result (λ words. (words.now ≡ take 474 file.now) × (0 ≡ file_refusal (length file.now) else block_refusal block)) (λ refusal. number_of refusal ≡ file_refusal (length file.now) else block_refusal block) }
{
    let file = registers_of(file)?;
    if block != 328 {
        return Err(Refusal::WrongBlock);
    }
    Ok(file)
}

// 1, 2 and 6.
pub(crate) fn hand_over_lengths(
    file: &[u32],
    tables: usize,
    copied: usize,
    block: usize,
) -> Result<&RegisterFile, Refusal>
    ensures { MatchResult result (λ words. (words.now ≡ take 474 file.now) × (0 ≡ hand_over_refusal (length file.now) tables copied block)) (λ refusal. number_of refusal ≡ hand_over_refusal (length file.now) tables copied block) }
{
    let file = registers_of(file)?;
    if tables != 12288 {
        return Err(Refusal::WrongTables);
    }
    if copied != 12288 {
        return Err(Refusal::WrongTables);
    }
    if block != 328 {
        return Err(Refusal::WrongBlock);
    }
    Ok(file)
}
