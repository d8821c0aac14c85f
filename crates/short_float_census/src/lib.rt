// How many patterns of a short float end as zero, infinity, NaN or another number, for the widths that a modeller may choose. `census` works the totals out;
// `counting` visits every pattern, through the function that decodes it, and comes to the same.
#![tactic(auto)]

pub mod counting;

ghost use Rattle.std.specs.Prelude.{◌≡◌};
ghost use Rattle.short_float_census.specs.Census.{counted as counted_of, census_of, four_of};

use fields::short_floats::power;

// What a pattern ends as.
#[derive(Clone, Copy)]
pub(crate) enum Class {
    Zero,
    Infinity,
    Nan,
    // another number
    Number,
}

// How many patterns there are of each class.
#[derive(Clone, Copy, Default)]
pub struct Totals {
    pub zeros: u32,
    pub infinities: u32,
    pub nans: u32,
    pub numbers: u32,
}

// The four in this order.
impl From<Totals> for [u32; 4] {
    fn from(totals: Totals) -> [u32; 4]
        ensures { result ≡ four_of totals }
    {
        [totals.zeros, totals.infinities, totals.nans, totals.numbers]
    }
}

// Whether there is a census for these widths: mantissas of 1 to 12 bits, exponents of 2 to 7.
#[tactic(auto, unfolding(crate::specs::Census::counted))]
pub(crate) fn counted(mantissa: u32, exponent: u32) -> bool
    ensures { result ≡ counted_of mantissa exponent }
{
    (1..=12).contains(&mantissa) && (2..=7).contains(&exponent)
}

// The four totals over all patterns with these widths and a sign; four zeros where there is no census.
#[tactic(auto, unfolding(crate::specs::Census::census_of), using(crate::specs::CensusLaws::counted_widths, crate::specs::CensusLaws::every_width))]
pub fn census(mantissa: u32, exponent: u32) -> Totals
    ensures { result ≡ census_of mantissa exponent }
{
    if !counted(mantissa, exponent) {
        return Totals::default();
    }
    let unit = power(mantissa);
    let nans = 2 * (unit - 1);
    let numbers = power(mantissa + exponent + 1) - 4 - nans;
    Totals {
        zeros: 2,
        infinities: 2,
        nans,
        numbers,
    }
}
