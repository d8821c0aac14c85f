// What the tables give where a light reads them. They come as words or as bytes, and only the fetching of an entry knows which.
ghost use Rattle.std.specs.Prelude.{◌≡◌, map};
ghost use Rattle.light_steps.specs.Steps.{at_place, read_value, read_all};

use crate::types::{Reading, Readings, Values};
use binary32::Place;
use sources::words::{Word, value_at};

// What a table gives at a place. `tables::entries::lookup` takes words alone, and any number of them, so that it tests each of the two words for itself.
#[inline(always)]
#[tactic(auto, unfolding(tables::specs::Tables::table_lookup))]
fn fetch<W: Word>(tables: &[W; 12288], reading: Reading) -> f32
    ensures { result ≡ at_place (map W.value tables.now) reading.table reading.place }
{
    let Place { entry, delta } = reading.place;
    let at = 2 * (256 * reading.table as usize + entry as usize);
    if at < 12288 {
        let value = value_at(tables, at);
        let step = value_at(tables, at + 1);
        tables::entries::interpolated(value, step, delta)
    } else {
        tables::entries::interpolated(0, 0, delta)
    }
}

#[inline(always)]
#[tactic(auto, unfolding(crate::specs::Steps::read_value))]
pub(crate) fn read<W: Word>(tables: &[W; 12288], reading: Option<Reading>) -> f32
    ensures { result ≡ read_value (map W.value tables.now) reading }
{
    match reading {
        None => 1.0,
        Some(reading) => fetch(tables, reading),
    }
}

#[inline(always)]
#[tactic(auto, unfolding(crate::specs::Steps::read_all))]
pub(crate) fn read_all<W: Word>(tables: &[W; 12288], readings: Readings, distance: f32) -> Values
    ensures { result ≡ read_all (map W.value tables.now) readings distance }
{
    Values {
        distance,
        spot: read(tables, readings.spot),
        distribution0: read(tables, readings.distribution0),
        red: read(tables, readings.red),
        green: read(tables, readings.green),
        blue: read(tables, readings.blue),
        distribution1: read(tables, readings.distribution1),
        fresnel: read(tables, readings.fresnel),
    }
}
