// The capture program's library call: the bytes that a capture prints, worked out from the bytes of the input. To be read from the call inwards, here and then `fresh`, a run on a
// fresh unit and copy, and `bodies`, its bodies in order; one body is `capture_body`.
#![tactic(auto)]

mod bodies;
mod fresh;

ghost use Rattle.std.specs.Prelude.{◌≡◌, ℕ, ◌≤◌, MatchResult, length};
ghost use Rattle.refusals.specs.Refusals.{outcome_number};
ghost use Rattle.sources.specs.Sources.{words_of};
ghost use Rattle.lists.specs.Plain.{zero_machine};
ghost use Rattle.printing.specs.Steps.{Adds, HasRoom};
ghost use Rattle.capture_check.specs.Contents.{contents, capture_words_refusal, capture_refusal};
ghost use Rattle.capture_calls.specs.Capture.{largest_output, size_of, captured_by, machine_prints, printed, captures};

use crate::fresh::run_fresh;
use capture_calls::Answer;
use capture_check::check_words;
use capture_check::contents::sized;
use capture_check::words::to_words;
use printing::Lines;
use refusals::Refusal;

// The lines of an input's words whose size is right: both refusals come before any body runs. Room for the largest output is asked, here and below, and is no type of
// its own: what is printed uses it up.
fn run_words(words: &[u32], lines: &mut Lines<'_>) -> Result<(), Refusal>
    requires { (length words.now ≤ 16384) × HasRoom lines.old largest_output }
    ensures number { outcome_number result ≡ capture_words_refusal words.now }
    ensures text { MatchResult result (λ _. Adds lines.old lines.new (machine_prints words.now (contents words.now) zero_machine)) (λ _. lines.new ≡ lines.old) }
{
    check_words(words)?;
    run_fresh(words, lines);
    Ok(())
}

// The lines of an input, if it is not refused.
fn run_input(input: &[u8], lines: &mut Lines<'_>) -> Result<(), Refusal>
    requires { HasRoom lines.old largest_output }
    ensures number { outcome_number result ≡ capture_refusal input.now }
    ensures text { MatchResult result (λ _. Adds lines.old lines.new (machine_prints (words_of input.now) (contents (words_of input.now)) zero_machine)) (λ _. lines.new ≡ lines.old) }
{
    if !sized(input.len()) {
        return Err(Refusal::BadCapture);
    }
    let mut words = [0u32; 16384];
    let n = to_words(input, &mut words);
    run_words(&words[..n], lines)
}

// What a capture prints: its lines, or what it is refused with.
fn print_text(input: &[u8], lines: &mut Lines<'_>) -> Result<(), Refusal>
    requires { HasRoom lines.old largest_output }
    ensures number { outcome_number result ≡ capture_refusal input.now }
    ensures text { Adds lines.old lines.new (printed input.now) }
{
    let outcome = run_input(input, lines);
    if let Err(refusal) = outcome {
        lines.put_refused(refusal);
    }
    outcome
}

// What a capture prints, at the start of `output`, if it has room for that. No capture prints more than 22,784 bytes.
pub fn run_capture(input: &[u8], output: &mut [u8]) -> Answer
    ensures by_index { (n : ℕ) → captured_by result n output.new ≡ captures input.now n output.old }
    ensures result_in_bounds { size_of 0 result ≤ length output.new }
{
    let mut room = [0u8; 22784];
    let mut lines = Lines::new(&mut room);
    let outcome = print_text(input, &mut lines);
    let text = lines.text();
    if output.len() < text.len() {
        return Answer {
            outcome,
            printed: None,
        };
    }
    output[..text.len()].copy_from_slice(text);
    Answer {
        outcome,
        printed: Some(text.len()),
    }
}
