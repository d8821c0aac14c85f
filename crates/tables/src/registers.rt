// The write to a register: a word of table data is uploaded, any other word is stored.
ghost use Rattle.std.specs.Prelude.{◌≡◌, ◌≤◌, length};
ghost use Rattle.tables.specs.Tables.{moved as moved_of, upload as upload_of, write as write_of, wrote_of};

use refusals::Refusal;

const REG_TABLE_INDEX: usize = 0x1C5;

const REG_TABLE_DATA: u32 = 0x1C8;

const REG_TABLE_DATA_END: u32 = 0x1CF;

// The index register's word with its entry moved on by one, 255 going to 0; the bits above stay.
#[tactic(auto, unfolding(crate::specs::Tables::moved))]
fn moved(index: u32) -> u32
    ensures { result ≡ moved_of index }
{
    let entry = index % 256;
    index - entry + (entry as u8).wrapping_add(1) as u32
}

// Takes a word of table data, into the table and entry that the index register names, which then moves on to the next entry; the generation afterwards.
#[tactic(auto, unfolding(crate::specs::Tables::changes, crate::specs::Tables::stored, crate::specs::Tables::same_entry, crate::specs::Tables::place, crate::specs::Tables::put_entry, crate::specs::Tables::last), using(crate::proofs::WriteLaws::upload_same, crate::proofs::WriteLaws::upload_refused, crate::proofs::WriteLaws::upload_changed))]
fn upload(
    file: &mut [u32],
    tables: &mut [u32; 12288],
    generation: u64,
    value: u32,
) -> Result<u64, Refusal>
    requires { 474 ≤ length file.old }
    ensures { wrote_of result generation file.new tables.new ≡ upload_of file.old tables.old generation value }
{
    let index = file[REG_TABLE_INDEX];
    let table = index / 256 % 32;
    if table >= 24 {
        file[REG_TABLE_INDEX] = moved(index);
        return Ok(generation);
    }
    let next = moved(index);
    let at = (2 * (256 * table + index % 256)) as usize;
    let bits = fields::upload::upload_value_bits(value);
    let step = fields::upload::upload_step_bits(value);
    if tables[at] == bits && tables[at + 1] == step {
        file[REG_TABLE_INDEX] = next;
        return Ok(generation);
    }
    let raised = generation.checked_add(1).ok_or(Refusal::LastGeneration)?;
    tables[at] = bits;
    tables[at + 1] = step;
    file[REG_TABLE_INDEX] = next;
    Ok(raised)
}

// A write past the refusals by length.
#[tactic(auto, unfolding(crate::specs::Tables::write_if, crate::specs::Tables::is_data, refusals::specs::Refusals::file_refusal, refusals::specs::Refusals::tables_refusal, refusals::specs::Refusals::register_refusal))]
fn write_whole(
    file: &mut [u32],
    tables: &mut [u32; 12288],
    generation: u64,
    register: u32,
    value: u32,
) -> Result<u64, Refusal>
    requires { 474 ≤ length file.old }
    ensures { wrote_of result generation file.new tables.new ≡ write_of file.old tables.old generation register value }
{
    if register >= 474 {
        return Err(Refusal::HighRegister);
    }
    if (REG_TABLE_DATA..=REG_TABLE_DATA_END).contains(&register) {
        return upload(file, tables, generation, value);
    }
    file[register as usize] = value;
    Ok(generation)
}

// A write to a register: table data goes into the tables, any other word into the file; the generation afterwards.
#[tactic(auto, unfolding(crate::specs::Tables::write_if, refusals::specs::Refusals::file_refusal, refusals::specs::Refusals::tables_refusal))]
pub fn write(
    file: &mut [u32],
    tables: &mut [u32],
    generation: u64,
    register: u32,
    value: u32,
) -> Result<u64, Refusal>
    ensures { wrote_of result generation file.new tables.new ≡ write_of file.old tables.old generation register value }
{
    if file.len() < 474 {
        return Err(Refusal::ShortFile);
    }
    match tables.as_mut_array() {
        Some(tables) => write_whole(file, tables, generation, register, value),
        None => Err(Refusal::WrongTables),
    }
}
