// The totals by visiting every pattern.
ghost use Rattle.std.specs.Prelude.{◌≡◌};
ghost use Rattle.binary32.specs.Binary32.{word_of};
ghost use Rattle.short_float_census.specs.Census.{class_of, more, census_of};
ghost use Rattle.short_float_census.specs.Steps.{Room};

use crate::{Class, Totals};
use fields::short_floats::{pica_float, power};

// What a float is: under the sign words stand in the order zero, numbers, infinity, NaN.
#[tactic(auto, using(crate::specs::PatternLaws::zero_class, crate::specs::PatternLaws::number_class, crate::specs::PatternLaws::infinity_class, crate::specs::PatternLaws::nan_class))]
fn class_of(x: f32) -> Class
    ensures { result ≡ class_of (word_of x) }
{
    let word = binary32::word_of(x);
    match word % 0x8000_0000 {
        0 => Class::Zero,
        1..=0x7f7f_ffff => Class::Number,
        0x7f80_0000 => Class::Infinity,
        _ => Class::Nan,
    }
}

// The totals with one pattern more.
#[tactic(auto, unfolding(crate::specs::Census::more))]
fn with_one(mut totals: Totals, class: Class) -> Totals
    requires { Room totals }
    ensures { result ≡ more 1 class totals }
{
    match class {
        Class::Zero => totals.zeros += 1,
        Class::Infinity => totals.infinities += 1,
        Class::Nan => totals.nans += 1,
        Class::Number => totals.numbers += 1,
    }
    totals
}

// The census, pattern by pattern, each decoded as the unit decodes it.
#[tactic(auto, unfolding(crate::specs::Census::census_of, crate::specs::Census::totals_below), using(crate::proofs::counting::Turn::next, crate::proofs::counting::Turn::room, crate::proofs::counting::Turn::widths, crate::proofs::counting::Turn::few, crate::specs::CensusLaws::counts_all))]
pub fn count(mantissa: u32, exponent: u32) -> Totals
    ensures { result ≡ census_of mantissa exponent }
{
    let mut totals = Totals::default();
    if !crate::counted(mantissa, exponent) {
        return totals;
    }
    let patterns = power(mantissa + exponent + 1);
    for bits in 0..patterns {
        totals = with_one(totals, class_of(pica_float(bits, mantissa, exponent)));
    }
    totals
}
