// What the lights on and the lookups that are read need: the half vector, and the unit vector toward the viewer.
ghost use Rattle.std.specs.Prelude.{◌≡◌, ◌≤◌, take};
ghost use Rattle.std.specs.List.{list_any};
ghost use Rattle.decoding.specs.Steps.{has_spotlight, is_geometric, input_half, input_view, lookup_half, lookup_view, half_input, view_input};

use lighting::{Light, Lookup, TableLookups};

// What some light on has.
#[derive(Clone, Copy)]
pub(crate) struct SomeLight {
    pub spotlit: bool,
    pub geometric: bool,
}

// Of the first `count` lights, those that are on. A loop over their places: to lend the array takes three copies of it.
pub(crate) fn some_light(lights: [Light; 8], count: usize) -> SomeLight
    requires { count ≤ 8 }
    ensures { (result.spotlit ≡ list_any has_spotlight (take count lights)) × (result.geometric ≡ list_any is_geometric (take count lights)) }
{
    let mut some = SomeLight {
        spotlit: false,
        geometric: false,
    };
    for slot in 0..count {
        let light = lights[slot];
        some.spotlit |= light.spotlight;
        some.geometric |= light.geometric0 | light.geometric1;
    }
    some
}

// Half and view apart, each as the Rust tells it: one function over the test would say in its contract what the test gives, and be longer than both.

// The inputs that read the half vector.
#[tactic(auto, unfolding(crate::specs::Steps::input_half))]
fn input_half(config: u32, input: u32) -> bool
    ensures { result ≡ input_half config input }
{
    (input == 0) | (input == 1) | ((input == 5) & (config == 8))
}

// The inputs that read the unit vector toward the viewer.
#[tactic(auto, unfolding(crate::specs::Steps::input_view))]
fn input_view(input: u32) -> bool
    ensures { result ≡ input_view input }
{
    (input == 1) | (input == 2)
}

#[tactic(auto, unfolding(crate::specs::Steps::lookup_half))]
fn lookup_half(config: u32, lookup: Option<Lookup>) -> bool
    ensures { result ≡ lookup_half config lookup }
{
    lookup.is_some_and(|found| input_half(config, found.input))
}

#[tactic(auto, unfolding(crate::specs::Steps::lookup_view))]
fn lookup_view(lookup: Option<Lookup>) -> bool
    ensures { result ≡ lookup_view lookup }
{
    lookup.is_some_and(|found| input_view(found.input))
}

// Whether a lookup that is read takes the half vector; the spotlights' is read where a light on has one.
#[tactic(auto, unfolding(crate::specs::Steps::half_input))]
pub(crate) fn half_input(config: u32, spotlit: bool, tables: TableLookups) -> bool
    ensures { result ≡ half_input config spotlit tables }
{
    lookup_half(config, tables.distribution0)
        | lookup_half(config, tables.distribution1)
        | lookup_half(config, tables.fresnel)
        | lookup_half(config, tables.reflect_red)
        | lookup_half(config, tables.reflect_green)
        | lookup_half(config, tables.reflect_blue)
        | (spotlit & input_half(config, tables.spotlight.input))
}

// The same of the unit vector toward the viewer.
#[tactic(auto, unfolding(crate::specs::Steps::view_input))]
pub(crate) fn view_input(spotlit: bool, tables: TableLookups) -> bool
    ensures { result ≡ view_input spotlit tables }
{
    lookup_view(tables.distribution0)
        | lookup_view(tables.distribution1)
        | lookup_view(tables.fresnel)
        | lookup_view(tables.reflect_red)
        | lookup_view(tables.reflect_green)
        | lookup_view(tables.reflect_blue)
        | (spotlit & input_view(tables.spotlight.input))
}
