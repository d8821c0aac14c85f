// Counts what the patterns of a short float end as, by visiting every one of them, and prints the four totals on a line: zeros, infinities, NaNs and other
// numbers. Without arguments it counts the half; with two, a mantissa's and an exponent's width, the float of these. All that counts is the library's.
#![tactic(auto)]

ghost use Rattle.std.specs.Prelude.{◌≡◌};
ghost use Rattle.census.specs.Arguments.{width_of};

use short_float_census::Totals;
use std::env::FillError;
use std::io;
use std::rt::Env;

// The width that decimal digits write. A number above 1000 becomes 1000, which is as much too wide.
#[tactic(auto, using(crate::proofs::Digits::none, crate::proofs::Digits::some, crate::proofs::Digits::at_end, crate::proofs::Digits::no_digit, crate::proofs::Digits::digit))]
fn width_of(text: &[u8]) -> Option<u32>
    ensures { result ≡ width_of text.now }
{
    if text.is_empty() {
        return None;
    }
    let mut n: u32 = 0;
    for byte in text {
        if !byte.is_ascii_digit() {
            return None;
        }
        n = (n * 10 + (*byte - b'0') as u32).min(1000);
    }
    Some(n)
}

fn argument(rt: &impl Env, i: usize) -> Option<u32> {
    let mut text = [0u8; 4096];
    let n = rt.arg(i, &mut text).ok()?;
    width_of(&text[..n])
}

// One that is too long for the text is given too.
fn is_given(rt: &impl Env, i: usize) -> bool {
    let mut text = [0u8; 4096];
    !matches!(rt.arg(i, &mut text), Err(FillError::NotPresent))
}

fn print_line(rt: &impl Print, totals: Totals) -> io::Result<()> {
    let Totals {
        zeros,
        infinities,
        nans,
        numbers,
    } = totals;
    println!(rt; "{zeros} {infinities} {nans} {numbers}")
}

fn print_census(rt: &(impl Print + Eprint), mantissa: u32, exponent: u32) {
    let totals = short_float_census::counting::count(mantissa, exponent);
    if let Err(e) = print_line(rt, totals) {
        let _ = eprintln!(rt; "standard output: {e}");
    }
}

fn print_usage(rt: &impl Eprint) {
    let _ = rt.eprint(
        "usage: census [MANTISSA EXPONENT]     (widths in bits; 1 to 12 and 2 to 7 are counted)\n",
    );
}

// The census of the widths that the two arguments say.
fn print_asked(rt: &(impl Env + Print + Eprint)) {
    match (argument(rt, 1), argument(rt, 2)) {
        (Some(mantissa), Some(exponent)) => print_census(rt, mantissa, exponent),
        _ => print_usage(rt),
    }
}

fn main(rt: HostRuntime) {
    if !is_given(&rt, 1) {
        print_census(&rt, 10, 5);
    } else if is_given(&rt, 2) && !is_given(&rt, 3) {
        print_asked(&rt);
    } else {
        print_usage(&rt);
    }
}
