// The float operations under plain names, for the host's comparisons with rustc's own: a library for tests alone.
#![tactic(auto)]

ghost use Rattle.std.specs.Prelude.{◌≡◌, [], ◌∷◌, ◌%◌, get_or};
ghost use Rattle.std.specs.Float.{nan};
ghost use Rattle.binary32.specs.Binary32.{float_of, word_of, magnitude_of, max_of, min_of, clamp_of, floor_of, unsigned_place_of, signed_place_of, quantized_of};
ghost use Rattle.fields.specs.Fields.{upload_value_bits, upload_step_bits, colour_of, fixed_of, short_float};
ghost use Rattle.root.specs.Root.{root_of};
ghost use Rattle.short_float_census.specs.Census.{census_of, four_of};
ghost use Rattle.tables.specs.Tables.{table_lookup};
ghost use Rattle.vectors.specs.Vectors.{dot_of, cross_of, normalized_of, rotate_of};

#[unsafe(no_mangle)]
pub extern "C" fn compare_root(x: f32) -> f32
    ensures { result ≡ root_of x }
{
    root::root(x)
}

// A word as a float, and back.
#[unsafe(no_mangle)]
pub extern "C" fn compare_word(n: u32) -> u32
    ensures { result ≡ word_of (float_of n) }
{
    binary32::word_of(binary32::float_of(n))
}

#[unsafe(no_mangle)]
pub extern "C" fn compare_floor(x: f32) -> f32
    ensures { result ≡ floor_of x }
{
    binary32::whole_parts::floor(x)
}

#[unsafe(no_mangle)]
pub extern "C" fn compare_magnitude(x: f32) -> f32
    ensures { result ≡ magnitude_of x }
{
    binary32::order::magnitude(x)
}

#[unsafe(no_mangle)]
pub extern "C" fn compare_max(x: f32, y: f32) -> f32
    ensures { result ≡ max_of x y }
{
    binary32::order::max(x, y)
}

#[unsafe(no_mangle)]
pub extern "C" fn compare_min(x: f32, y: f32) -> f32
    ensures { result ≡ min_of x y }
{
    binary32::order::min(x, y)
}

#[unsafe(no_mangle)]
pub extern "C" fn compare_clamp(x: f32, low: f32, high: f32) -> f32
    ensures { result ≡ clamp_of x low high }
{
    binary32::order::clamp(x, low, high)
}

#[unsafe(no_mangle)]
pub extern "C" fn compare_unsigned_entry(x: f32) -> u8
    ensures { result ≡ (unsigned_place_of x).entry }
{
    binary32::places::unsigned_place(x).entry
}

#[unsafe(no_mangle)]
pub extern "C" fn compare_unsigned_delta(x: f32) -> f32
    ensures { result ≡ (unsigned_place_of x).delta }
{
    binary32::places::unsigned_place(x).delta
}

#[unsafe(no_mangle)]
pub extern "C" fn compare_signed_entry(x: f32) -> u8
    ensures { result ≡ (signed_place_of x).entry }
{
    binary32::places::signed_place(x).entry
}

#[unsafe(no_mangle)]
pub extern "C" fn compare_signed_delta(x: f32) -> f32
    ensures { result ≡ (signed_place_of x).delta }
{
    binary32::places::signed_place(x).delta
}

#[unsafe(no_mangle)]
pub extern "C" fn compare_quantized(x: f32) -> u32
    ensures { result ≡ quantized_of x }
{
    binary32::whole_parts::quantized(x)
}

#[unsafe(no_mangle)]
pub extern "C" fn compare_half(bits: u32) -> f32
    ensures { result ≡ short_float 10 5 bits }
{
    fields::short_floats::half(bits)
}

#[unsafe(no_mangle)]
pub extern "C" fn compare_float20(bits: u32) -> f32
    ensures { result ≡ short_float 12 7 bits }
{
    fields::short_floats::float20(bits)
}

// One of the four totals that visiting every pattern gives.
#[unsafe(no_mangle)]
pub extern "C" fn compare_count(mantissa: u32, exponent: u32, at: u32) -> u32
    ensures { result ≡ get_or (four_of (census_of mantissa exponent)) (at % 4) 0 }
{
    let totals = <[u32; 4]>::from(short_float_census::counting::count(mantissa, exponent));
    totals[(at % 4) as usize]
}

#[unsafe(no_mangle)]
pub extern "C" fn compare_fixed(value: u32) -> f32
    ensures { result ≡ fixed_of value }
{
    fields::fixed(value)
}

// One of the three fields.
#[unsafe(no_mangle)]
pub extern "C" fn compare_color(value: u32, at: u32) -> f32
    ensures { result ≡ get_or (colour_of value) (at % 3) nan }
{
    let c = fields::color(value);
    c[(at % 3) as usize]
}

#[unsafe(no_mangle)]
pub extern "C" fn compare_upload_value(word: u32) -> u32
    ensures { result ≡ upload_value_bits word }
{
    fields::upload::upload_value_bits(word)
}

#[unsafe(no_mangle)]
pub extern "C" fn compare_upload_step(word: u32) -> u32
    ensures { result ≡ upload_step_bits word }
{
    fields::upload::upload_step_bits(word)
}

#[unsafe(no_mangle)]
pub extern "C" fn compare_dot(a0: f32, a1: f32, a2: f32, b0: f32, b1: f32, b2: f32) -> f32
    ensures { result ≡ dot_of (a0 ∷ a1 ∷ a2 ∷ []) (b0 ∷ b1 ∷ b2 ∷ []) }
{
    vectors::dot([a0, a1, a2], [b0, b1, b2])
}

// One of the three components, here and below.
#[unsafe(no_mangle)]
pub extern "C" fn compare_cross(
    a0: f32,
    a1: f32,
    a2: f32,
    b0: f32,
    b1: f32,
    b2: f32,
    at: u32,
) -> f32
    ensures { result ≡ get_or (cross_of (a0 ∷ a1 ∷ a2 ∷ []) (b0 ∷ b1 ∷ b2 ∷ [])) (at % 3) nan }
{
    let v = vectors::rotation::cross([a0, a1, a2], [b0, b1, b2]);
    v[(at % 3) as usize]
}

#[unsafe(no_mangle)]
pub extern "C" fn compare_normalized(v0: f32, v1: f32, v2: f32, at: u32) -> f32
    ensures { result ≡ get_or (normalized_of (v0 ∷ v1 ∷ v2 ∷ [])) (at % 3) nan }
{
    let v = vectors::normalized([v0, v1, v2]);
    v[(at % 3) as usize]
}

#[unsafe(no_mangle)]
pub extern "C" fn compare_rotate(
    q0: f32,
    q1: f32,
    q2: f32,
    q3: f32,
    v0: f32,
    v1: f32,
    v2: f32,
    at: u32,
) -> f32
    ensures { result ≡ get_or (rotate_of (q0 ∷ q1 ∷ q2 ∷ q3 ∷ []) (v0 ∷ v1 ∷ v2 ∷ [])) (at % 3) nan }
{
    let v = vectors::rotation::rotate([q0, q1, q2, q3], [v0, v1, v2]);
    v[(at % 3) as usize]
}

#[unsafe(no_mangle)]
pub extern "C" fn compare_lookup(entries: &[u32], table: u32, entry: u8, delta: f32) -> f32
    ensures { result ≡ table_lookup entries.now table entry delta }
{
    tables::entries::lookup(entries, table, entry, delta)
}
