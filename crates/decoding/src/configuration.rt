// The lighting configuration, and which tables it has room for.
ghost use Rattle.std.specs.Prelude.{◌≡◌};
ghost use Rattle.decoding.specs.Read.{config as config_of, supported as supported_of};

use crate::RegisterFile;
use crate::registers::{REG_CONFIG0, bits, register};
use lighting::tables::{DISTRIBUTION0, DISTRIBUTION1, FRESNEL, REFLECT_RED, SPOTLIGHT};

#[tactic(auto, unfolding(crate::specs::Read::config))]
pub(crate) fn configuration(file: &RegisterFile) -> u32
    ensures { result ≡ config_of file.now }
{
    bits(register(file, REG_CONFIG0), 4, 4)
}

// Which tables a lighting configuration has room for.
#[tactic(auto, unfolding(crate::specs::Read::supported))]
pub(crate) fn supported(config: u32, table: u32) -> bool
    ensures { result ≡ supported_of config table }
{
    match table {
        DISTRIBUTION0 => config != 1,
        DISTRIBUTION1 => !matches!(config, 0 | 1 | 5),
        SPOTLIGHT => !matches!(config, 2 | 3),
        FRESNEL => !matches!(config, 0 | 2 | 4),
        REFLECT_RED => config != 3,
        _ => matches!(config, 4 | 5 | 8),
    }
}
