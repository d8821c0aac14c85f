// The whole tables copied: restore and save.
ghost use Rattle.std.specs.Prelude.{◌≡◌};
ghost use Rattle.tables.specs.Tables.{restore as restore_of, save as save_of, restored_of, saved_of};

use refusals::Refusal;
use sources::words::copy;

// The entries that a saved state had, as they are; the generation afterwards.
#[tactic(auto, unfolding(crate::specs::Tables::restore_if, crate::specs::Tables::last, refusals::specs::Refusals::tables_refusal, refusals::specs::Refusals::saved_refusal))]
pub fn restore(tables: &mut [u32], generation: u64, saved: &[u32]) -> Result<u64, Refusal>
    ensures { restored_of result generation tables.new ≡ restore_of tables.old generation saved.now }
{
    if tables.len() != 12288 {
        return Err(Refusal::WrongTables);
    }
    if saved.len() != 12288 {
        return Err(Refusal::WrongSaved);
    }
    let raised = generation.checked_add(1).ok_or(Refusal::LastGeneration)?;
    copy(tables, saved);
    Ok(raised)
}

// Every entry, table after table, for a saved state.
#[tactic(auto, unfolding(crate::specs::Tables::save_if, refusals::specs::Refusals::tables_refusal, refusals::specs::Refusals::saved_refusal))]
pub fn save(tables: &[u32], output: &mut [u32]) -> Result<(), Refusal>
    ensures { saved_of result output.new ≡ save_of tables.now output.old }
{
    if tables.len() != 12288 {
        return Err(Refusal::WrongTables);
    }
    if output.len() != 12288 {
        return Err(Refusal::WrongSaved);
    }
    copy(output, tables);
    Ok(())
}
