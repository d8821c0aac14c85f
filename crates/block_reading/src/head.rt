// The head of a block: what it says of the whole lighting, its lights left out.
ghost use Rattle.std.specs.Prelude.{◌≡◌, ◌+◌, ◌≤◌, map};
ghost use Rattle.block.specs.Block.{words, from, block_bump, block_shadow, block_lookup, block_optional_lookup, block_lighting_with};
ghost use Rattle.block_reading.specs.Steps.{head_options, head_lookups};

use crate::lit::MarkedBlock;
use binary32::float_of;
use lighting::{Bump, Light, Lighting, Lookup, Shadow, TableLookups};
use sources::words::Word;

// The words before the lookups but the count.
#[derive(Clone, Copy)]
struct Options {
    config: u32,
    bump: Bump,
    shadow: Option<Shadow>,
    fresnel_primary: bool,
    fresnel_secondary: bool,
    clamp_highlights: bool,
    needs_half: bool,
    needs_view: bool,
}

#[inline(always)]
#[tactic(auto, unfolding(block::specs::Block::block_bump))]
fn bump_of(n: u32) -> Bump
    ensures { result ≡ block_bump n }
{
    if n % 16 == 1 {
        Bump::Normal((n / 16 % 16) as usize, n / 256 % 2 == 1)
    } else if n % 16 == 2 {
        Bump::Tangent((n / 16 % 16) as usize)
    } else {
        Bump::Flat
    }
}

#[inline(always)]
#[tactic(auto, unfolding(block::specs::Block::block_shadow))]
fn shadow_of(n: u32) -> Option<Shadow>
    ensures { result ≡ block_shadow n }
{
    if n % 16 == 1 {
        Some(Shadow {
            unit: (n / 16 % 16) as usize,
            invert: n / 256 % 2 == 1,
            primary: n / 512 % 2 == 1,
            secondary: n / 1024 % 2 == 1,
            alpha: n / 2048 % 2 == 1,
        })
    } else {
        None
    }
}

// The lookup of the four words from `at` on: presence, input, absolute, scale. A part is told by its place, as the definitions tell it, and read where it stands.
#[inline(always)]
#[tactic(auto, unfolding(block::specs::Block::block_lookup))]
fn lookup_of<W: Word>(block: MarkedBlock<'_, W>, at: usize) -> Lookup
    requires { at + 4 ≤ 328 }
    ensures { result ≡ block_lookup (from (words (map W.value block.entry.words.now)) at) }
{
    Lookup {
        input: block.word(at + 1),
        absolute: block.word(at + 2) == 1,
        scale: float_of(block.word(at + 3)),
    }
}

#[inline(always)]
#[tactic(auto, unfolding(block::specs::Block::block_optional_lookup))]
fn optional_lookup_of<W: Word>(block: MarkedBlock<'_, W>, at: usize) -> Option<Lookup>
    requires { at + 4 ≤ 328 }
    ensures { result ≡ block_optional_lookup (from (words (map W.value block.entry.words.now)) at) }
{
    if block.word(at) == 1 {
        Some(lookup_of(block, at))
    } else {
        None
    }
}

#[inline(always)]
#[tactic(auto, unfolding(crate::specs::Steps::head_options))]
fn options_of<W: Word>(block: MarkedBlock<'_, W>) -> Options
    ensures { result ≡ head_options (words (map W.value block.entry.words.now)) }
{
    let needs = block.word(7);
    Options {
        config: block.word(0),
        bump: bump_of(block.word(2)),
        shadow: shadow_of(block.word(3)),
        fresnel_primary: block.word(4) == 1,
        fresnel_secondary: block.word(5) == 1,
        clamp_highlights: block.word(6) == 1,
        needs_half: needs % 2 == 1,
        needs_view: needs / 2 % 2 == 1,
    }
}

#[inline(always)]
#[tactic(auto, unfolding(crate::specs::Steps::head_lookups))]
fn lookups_of<W: Word>(block: MarkedBlock<'_, W>) -> TableLookups
    ensures { result ≡ head_lookups (words (map W.value block.entry.words.now)) }
{
    TableLookups {
        distribution0: optional_lookup_of(block, 8),
        distribution1: optional_lookup_of(block, 12),
        fresnel: optional_lookup_of(block, 16),
        reflect_red: optional_lookup_of(block, 20),
        reflect_green: optional_lookup_of(block, 24),
        reflect_blue: optional_lookup_of(block, 28),
        spotlight: lookup_of(block, 32),
    }
}

// How many lights are on.
#[inline(always)]
pub(crate) fn light_count<W: Word>(block: MarkedBlock<'_, W>) -> usize
    ensures { result ≡ words (map W.value block.entry.words.now) 1 }
{
    block.word(1) as usize
}

// The lighting of a block, with these lights. The block shader reads them where it needs them, and has blank ones here.
#[inline(always)]
pub fn lighting_with<W: Word>(block: MarkedBlock<'_, W>, lights: [Light; 8]) -> Lighting
    ensures { result ≡ block_lighting_with (words (map W.value block.entry.words.now)) lights }
{
    let options = options_of(block);
    let lookups = lookups_of(block);
    Lighting {
        lights,
        light_count: light_count(block),
        global_ambient: block.vector(36),
        config: options.config,
        distribution0: lookups.distribution0,
        distribution1: lookups.distribution1,
        fresnel: lookups.fresnel,
        reflect_red: lookups.reflect_red,
        reflect_green: lookups.reflect_green,
        reflect_blue: lookups.reflect_blue,
        spotlight: lookups.spotlight,
        fresnel_primary: options.fresnel_primary,
        fresnel_secondary: options.fresnel_secondary,
        clamp_highlights: options.clamp_highlights,
        needs_half: options.needs_half,
        needs_view: options.needs_view,
        bump: options.bump,
        shadow: options.shadow,
    }
}
