// Short floats: the half and the 20-bit float.
ghost use Rattle.std.specs.Prelude.{◌≡◌, ◌^◌, ◌≤◌, ◌<◌};
ghost use Rattle.fields.specs.Steps.{ShortWidths};
ghost use Rattle.fields.specs.Fields.{short_exponent, short_word, short_float};

// 2 to the k: the compiler makes shifts and masks of products, quotients and remainders by it.
// Asks: a power that a word holds.
pub fn power(k: u32) -> u32
    requires { k < 32 }
    ensures { (result ≡ 2 ^ k) × (0 < result) }
{
    1 << k
}

// The binary32 exponent of a short float's exponent field. A zero field is not denormal but just the smallest one.
#[tactic(auto, unfolding(crate::specs::Fields::short_exponent), using(crate::specs::ShortFloatLaws::half_power, crate::specs::ShortFloatLaws::half_power_le, crate::specs::ShortFloatLaws::exponent_lt))]
fn pica_exponent(field: u32, exponent: u32) -> u32
    requires { (2 ≤ exponent) × (exponent ≤ 7) × (field < 2 ^ exponent) }
    ensures { (result ≡ short_exponent exponent field) × (result < 256) }
{
    if field == power(exponent) - 1 {
        255
    } else {
        field + 128 - power(exponent - 1)
    }
}

// The binary32 word of a short float.
#[tactic(auto, unfolding(crate::specs::Fields::short_word, crate::specs::Fields::short_sign), using(crate::specs::ShortFloatLaws::mantissa_lt))]
fn pica_word(bits: u32, mantissa: u32, exponent: u32) -> u32
    requires { ShortWidths mantissa exponent }
    ensures { result ≡ short_word mantissa exponent bits }
{
    let under = power(mantissa + exponent);
    let sign = bits / under % 2 * 0x8000_0000;
    if bits % under == 0 {
        return sign;
    }
    let unit = power(mantissa);
    let biased = pica_exponent(bits / unit % power(exponent), exponent);
    sign + biased * 0x80_0000 + bits % unit * power(23 - mantissa)
}

// A short float with the given mantissa and exponent widths. Two numbers and no struct of them: the papers tell them one by one, of the census too, whose caller
// may give any two.
// Asks: a mantissa of 1 to 12 bits and an exponent of 2 to 7, which no bit pattern decides: the census tests them, all else has constants.
#[tactic(auto, unfolding(crate::specs::Fields::short_float))]
pub fn pica_float(bits: u32, mantissa: u32, exponent: u32) -> f32
    requires { ShortWidths mantissa exponent }
    ensures { result ≡ short_float mantissa exponent bits }
{
    binary32::float_of(pica_word(bits, mantissa, exponent))
}

// The half in the low 16 bits.
pub fn half(bits: u32) -> f32
    ensures { result ≡ short_float 10 5 bits }
{
    pica_float(bits, 10, 5)
}

// The float in the low 20 bits.
pub fn float20(bits: u32) -> f32
    ensures { result ≡ short_float 12 7 bits }
{
    pica_float(bits, 12, 7)
}
