// The registers that `read` takes: compared with the kept ones, and kept.
ghost use Rattle.std.specs.Prelude.{◌≡◌, ◌+◌, ◌≤◌, length};
ghost use Rattle.decoding.specs.Read.{registers_read};
ghost use Rattle.decoding.specs.Steps.{differences};
ghost use Rattle.sources.specs.Sources.{same_words};

use crate::RegisterFile;
use crate::registers::{REG_DISABLE, REG_ENABLE, REG_LIGHT_SLOTS, REG_LIGHTS, REG_TABLE_ABSOLUTE};
use sources::words::copy;

// How many of `count` words differ, from `from` on in the file and from `at` on in the kept words. It looks at all of them: that is
// quicker than to stop at the first.
fn differing(file: &[u32], from: usize, kept: &[u32], at: usize, count: usize) -> u32
    requires { (from + count ≤ length file.now) × (at + count ≤ length kept.now) × (count ≤ 139) }
    ensures { (result ≡ differences file.now from kept.now at count) × (result ≤ count) }
{
    let mut found = 0;
    for j in 0..count {
        found += (file[from + j] != kept[at + j]) as u32;
    }
    found
}

// Whether the words that `read` takes are the kept ones.
pub fn are_kept(file: &RegisterFile, kept: &[u32; 139]) -> bool
    ensures { result ≡ same_words kept.now (registers_read file.now) }
{
    let enable = differing(file, REG_ENABLE, kept, 0, 1);
    let lights = differing(file, REG_LIGHTS, kept, 1, 133);
    let disable = differing(file, REG_DISABLE, kept, 134, 1);
    let tables = differing(file, REG_TABLE_ABSOLUTE, kept, 135, 3);
    let slots = differing(file, REG_LIGHT_SLOTS, kept, 138, 1);
    enable + lights + disable + tables + slots == 0
}

// The words that `read` takes, of all the lights whichever it decodes, into the kept ones.
// Asks: the places of all of them, which are a part of a cache's words.
pub fn keep_registers(file: &RegisterFile, kept: &mut [u32])
    requires { length kept.old ≡ 139 }
    ensures { kept.new ≡ registers_read file.now }
{
    kept[0] = file[REG_ENABLE];
    copy(&mut kept[1..134], &file[REG_LIGHTS..REG_LIGHTS + 133]);
    kept[134] = file[REG_DISABLE];
    kept[135..138].copy_from_slice(&file[REG_TABLE_ABSOLUTE..REG_TABLE_ABSOLUTE + 3]);
    kept[138] = file[REG_LIGHT_SLOTS];
}

// The same as a value.
pub fn kept_registers(file: &RegisterFile) -> [u32; 139]
    ensures { result ≡ registers_read file.now }
{
    let mut kept = [0; 139];
    keep_registers(file, &mut kept);
    kept
}
