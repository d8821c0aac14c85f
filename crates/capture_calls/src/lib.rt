// What a capture does and prints, and what the library call answers of it. specs/Capture is the law: the calls of a body, what the plain machine prints after them, the library call's
// answer; proofs/MachineLaws has why unit and copy print the same. Code there is only for the answer.
#![tactic(auto)]

ghost use Rattle.std.specs.Prelude.{◌≡◌};
ghost use Rattle.capture_calls.specs.Capture.{size_of, number_by};

use refusals::Refusal;

// What the call answers. A refused capture prints its line too, so that the two are told beside each other.
#[derive(Clone, Copy)]
pub struct Answer {
    // whether the capture was run, or refused
    pub outcome: Result<(), Refusal>,
    // how many bytes it printed; none where the output has no room for them, and nothing was written
    pub printed: Option<usize>,
}

// How many bytes are printed after an answer, where it was `before`.
pub fn printed_size(answer: Answer, before: usize) -> usize
    ensures { result ≡ size_of before answer }
{
    answer.printed.unwrap_or(before)
}

// An answer's number: 0, the refusal's, or 101 for a short output.
pub fn answer_number(answer: Answer) -> u32
    ensures { result ≡ number_by answer }
{
    match answer.outcome {
        Err(refusal) => u32::from(refusal),
        Ok(()) if answer.printed.is_none() => 101,
        Ok(()) => 0,
    }
}
