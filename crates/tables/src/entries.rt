// The number that a table's entry gives.
ghost use Rattle.std.specs.Prelude.{◌≡◌};
ghost use Rattle.tables.specs.Tables.{table_lookup, interpolated as interpolated_of};

// Value + step · delta, from an entry's two words, which may be any bits.
#[tactic(auto, unfolding(crate::specs::Tables::interpolated))]
pub fn interpolated(value: u32, step: u32, delta: f32) -> f32
    ensures { result ≡ interpolated_of value step delta }
{
    binary32::float_of(value) + binary32::float_of(step) * delta
}

// What a table gives at an entry. In 12,288 words every entry of tables 0 to 23 stands; a word that isn't there counts as 0.
#[tactic(auto, unfolding(crate::specs::Tables::table_lookup))]
pub fn lookup(tables: &[u32], table: u32, entry: u8, delta: f32) -> f32
    ensures { result ≡ table_lookup tables.now table entry delta }
{
    let at = 2 * (256 * table as usize + entry as usize);
    let value = tables.get(at).copied().unwrap_or(0);
    let step = tables.get(at + 1).copied().unwrap_or(0);
    interpolated(value, step, delta)
}
