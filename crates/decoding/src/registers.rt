// The registers that `read` takes, by name; the words of a register file, and the bits of a word.
ghost use Rattle.std.specs.Prelude.{◌≡◌, ◌<◌};
ghost use Rattle.decoding.specs.Registers.{register_of, bits_of, flag_of};

use crate::RegisterFile;

pub(crate) const REG_ENABLE: usize = 0x08F;

// The first word of light 0's block.
pub(crate) const REG_LIGHTS: usize = 0x140;

pub(crate) const REG_GLOBAL_AMBIENT: usize = 0x1C0;

pub(crate) const REG_LIGHT_COUNT: usize = 0x1C2;

// Configuration, bump, shadow, fresnel and clamp; then a disable bit for each table, and for the shadow, spotlight and distance of each light.
pub(crate) const REG_CONFIG0: usize = 0x1C3;

pub(crate) const REG_CONFIG1: usize = 0x1C4;

pub(crate) const REG_DISABLE: usize = 0x1C6;

// Four bits for each table in each of the three.
pub(crate) const REG_TABLE_ABSOLUTE: usize = 0x1D0;

pub(crate) const REG_TABLE_INPUT: usize = 0x1D1;

pub(crate) const REG_TABLE_SCALE: usize = 0x1D2;

// Four bits for each slot: the number of the light that it holds.
pub(crate) const REG_LIGHT_SLOTS: usize = 0x1D9;

// The word of a register.
pub(crate) fn register(file: &RegisterFile, at: usize) -> u32
    requires { at < 474 }
    ensures { result ≡ register_of file.now at }
{
    file[at]
}

// `width` bits of a word, from bit `from` on.
pub(crate) fn bits(word: u32, from: u32, width: u32) -> u32
    ensures { result ≡ bits_of word from width }
{
    if 32 <= from {
        return 0;
    }
    let high = word >> from;
    if 32 <= width {
        return high;
    }
    high % (1 << width)
}

// Whether bit `at` of a word is set.
pub(crate) fn flag(word: u32, at: u32) -> bool
    ensures { result ≡ flag_of word at }
{
    bits(word, at, 1) == 1
}
