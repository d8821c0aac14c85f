// The lighting of a draw, as it is decoded from the registers, packed into a block and read back from one.
#![tactic(auto)]

pub mod tables;

ghost use Rattle.std.specs.Prelude.{◌≡◌};
ghost use Rattle.lighting.specs.Lighting.{blank_light, blank_lighting, is_scaled, bump_unit, shadow_unit};

// A slot of the lighting: the first `light_count` of the eight are lit. Of slots and of light numbers any number may be one, as in a lighting of a caller's making, of
// which packing refuses those above 7: so that it is one of the eight is asked where words are taken by it, and is not in the type.
#[derive(Clone, Copy)]
pub struct Slot(pub usize);

// Which of the eight lights of the registers it is: this, and never the slot, picks a spotlight or distance table.
#[derive(Clone, Copy)]
pub struct LightNumber(pub usize);

// How a table is read: the dot product it takes, whether that is taken as its absolute value, and the scale on the result.
#[derive(Clone, Copy)]
pub struct Lookup {
    pub input: u32,
    pub absolute: bool,
    pub scale: f32,
}

// The tables of a draw, some of which it may do without; those of the spotlights are read alike, and always have a lookup.
#[derive(Clone, Copy)]
pub struct TableLookups {
    pub distribution0: Option<Lookup>,
    pub distribution1: Option<Lookup>,
    pub fresnel: Option<Lookup>,
    pub reflect_red: Option<Lookup>,
    pub reflect_green: Option<Lookup>,
    pub reflect_blue: Option<Lookup>,
    pub spotlight: Lookup,
}

// How a light's distance table is read: the bias and the scale of the distance.
#[derive(Clone, Copy)]
pub struct Distance {
    pub bias: f32,
    pub scale: f32,
}

#[derive(Clone, Copy)]
pub struct Light {
    pub specular0: [f32; 3],
    pub specular1: [f32; 3],
    pub diffuse: [f32; 3],
    pub ambient: [f32; 3],
    pub position: [f32; 3],
    // the unit vector toward a directional light
    pub direction: [f32; 3],
    // the inverse spotlight direction
    pub spot: [f32; 3],
    pub directional: bool,
    pub two_sided: bool,
    pub geometric0: bool,
    pub geometric1: bool,
    // none where the distance table is not read
    pub distance: Option<Distance>,
    pub spotlight: bool,
    pub shadowed: bool,
    pub number: LightNumber,
}

// The texture unit that holds the normals or the tangents, and of normals whether z is rebuilt.
#[derive(Clone, Copy)]
pub enum Bump {
    Flat,
    Normal(usize, bool),
    Tangent(usize),
}

#[derive(Clone, Copy)]
pub struct Shadow {
    pub unit: usize,
    pub invert: bool,
    pub primary: bool,
    pub secondary: bool,
    pub alpha: bool,
}

#[derive(Clone, Copy)]
pub struct Lighting {
    pub lights: [Light; 8],
    pub light_count: usize,
    pub global_ambient: [f32; 3],
    pub config: u32,
    pub distribution0: Option<Lookup>,
    pub distribution1: Option<Lookup>,
    pub fresnel: Option<Lookup>,
    pub reflect_red: Option<Lookup>,
    pub reflect_green: Option<Lookup>,
    pub reflect_blue: Option<Lookup>,
    pub spotlight: Lookup,
    // whether fresnel replaces the primary and the secondary alpha
    pub fresnel_primary: bool,
    pub fresnel_secondary: bool,
    pub clamp_highlights: bool,
    // whether anything reads the half vector, or the unit vector toward the viewer
    pub needs_half: bool,
    pub needs_view: bool,
    pub bump: Bump,
    pub shadow: Option<Shadow>,
}

// What stands in a slot that isn't lit.
#[tactic(auto, unfolding(crate::specs::Lighting::blank_light))]
pub fn blank_light() -> Light
    ensures { result ≡ blank_light }
{
    Light {
        specular0: [0.0, 0.0, 0.0],
        specular1: [0.0, 0.0, 0.0],
        diffuse: [0.0, 0.0, 0.0],
        ambient: [0.0, 0.0, 0.0],
        position: [0.0, 0.0, 0.0],
        direction: [0.0, 0.0, 0.0],
        spot: [0.0, 0.0, 0.0],
        directional: false,
        two_sided: false,
        geometric0: false,
        geometric1: false,
        distance: None,
        spotlight: false,
        shadowed: false,
        number: LightNumber(0),
    }
}

// The lighting that gives nothing: no light is on, and every optional part is missing.
#[tactic(auto, unfolding(crate::specs::Lighting::blank_lighting))]
pub fn blank_lighting() -> Lighting
    ensures { result ≡ blank_lighting }
{
    let blank = blank_light();
    Lighting {
        lights: [blank; 8],
        light_count: 0,
        global_ambient: [0.0, 0.0, 0.0],
        config: 0,
        distribution0: None,
        distribution1: None,
        fresnel: None,
        reflect_red: None,
        reflect_green: None,
        reflect_blue: None,
        spotlight: Lookup {
            input: 0,
            absolute: false,
            scale: 0.0,
        },
        fresnel_primary: false,
        fresnel_secondary: false,
        clamp_highlights: false,
        needs_half: false,
        needs_view: false,
        bump: Bump::Flat,
        shadow: None,
    }
}

// The texture unit that perturbs the surface, 0 where there is none.
#[tactic(auto, unfolding(crate::specs::Lighting::bump_unit))]
pub fn bump_unit(bump: Bump) -> usize
    ensures { result ≡ bump_unit bump }
{
    match bump {
        Bump::Flat => 0,
        Bump::Normal(unit, _) => unit,
        Bump::Tangent(unit) => unit,
    }
}

// The texture unit that holds the shadow, 0 where there is none.
#[tactic(auto, unfolding(crate::specs::Lighting::shadow_unit))]
pub fn shadow_unit(shadow: Option<Shadow>) -> usize
    ensures { result ≡ shadow_unit shadow }
{
    match shadow {
        None => 0,
        Some(shadow) => shadow.unit,
    }
}

// Whether a light has a distance table.
#[tactic(auto, unfolding(crate::specs::Lighting::is_scaled))]
pub fn is_scaled(distance: Option<Distance>) -> bool
    ensures { result ≡ is_scaled distance }
{
    distance.is_some()
}
