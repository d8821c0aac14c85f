// The tables, by number: the specular distributions, fresnel, the reflections, and a spotlight and a distance table for each light.
pub const DISTRIBUTION0: u32 = 0;

pub const DISTRIBUTION1: u32 = 1;

pub const FRESNEL: u32 = 3;

pub const REFLECT_BLUE: u32 = 4;

pub const REFLECT_GREEN: u32 = 5;

pub const REFLECT_RED: u32 = 6;

// eight for the spotlights and eight for the distances, by the light's number
pub const SPOTLIGHT: u32 = 8;

pub const DISTANCE: u32 = 16;
