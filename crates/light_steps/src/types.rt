// What shading passes from one step to the next, in the order in which the steps make it; a fragment's frame is `surface::Frame`.
use binary32::Place;
use lighting::TableLookups;

// What a lighting's lights read: the configuration, whether anything reads the half vector, and the lookups of the tables.
#[derive(Clone, Copy)]
pub struct LightingLookups {
    pub config: u32,
    pub needs_half: bool,
    pub tables: TableLookups,
}

// Where a value is read: the table, and the place in it.
#[derive(Clone, Copy)]
pub struct Reading {
    pub table: u32,
    pub place: Place,
}

// Where the values of the lookups are read, none where a lookup is missing.
#[derive(Clone, Copy)]
pub struct Readings {
    pub spot: Option<Reading>,
    pub distribution0: Option<Reading>,
    pub red: Option<Reading>,
    pub green: Option<Reading>,
    pub blue: Option<Reading>,
    pub distribution1: Option<Reading>,
    pub fresnel: Option<Reading>,
}

// The values that are read: what the entries give there, 1 where none is read, and after it what the lookups make of that, each its scale's multiple, 1 where it
// is missing, but green and blue fall back to red.
#[derive(Clone, Copy)]
pub struct Values {
    pub distance: f32,
    pub spot: f32,
    pub distribution0: f32,
    pub red: f32,
    pub green: f32,
    pub blue: f32,
    pub distribution1: f32,
    pub fresnel: f32,
}

// What the sums take of a lighting: whether highlights are clamped, whether each sum is in the shadow
// and the shadow itself, and each alpha's flag of fresnel.
#[derive(Clone, Copy)]
pub struct Settings {
    pub clamp_highlights: bool,
    pub shadow_primary: bool,
    pub shadow_secondary: bool,
    pub shadow: [f32; 4],
    pub fresnel_primary: bool,
    pub fresnel_secondary: bool,
}

// Red, green, blue and alpha of the two colours.
#[derive(Clone, Copy)]
pub struct Sums {
    pub diffuse: [f32; 4],
    pub specular: [f32; 4],
}
