// Document 01's refusals, one case for each of its numbers, and the number of what a call answers: that it is done, that a lighting is off, or a refusal.
#![tactic(auto)]

ghost use Rattle.std.specs.Prelude.{◌≡◌};
ghost use Rattle.refusals.specs.Refusals.{number_of, outcome_number, switch_number};

#[derive(Clone, Copy, PartialEq, Eq)]
pub enum Refusal {
    // 1: a register file under 474 words
    ShortFile,
    // 2: a table slice that isn't 12,288 words
    WrongTables,
    // 3: a register of 474 or above
    HighRegister,
    // 4: the last generation, where it would have to rise
    LastGeneration,
    // 5: saved words, or an output for them, that aren't 12,288
    WrongSaved,
    // 6: a block that isn't 328 words
    WrongBlock,
    // 7: a lighting that can't be packed, or a block that isn't well formed
    NotWellFormed,
    // 8: a capture that breaks the rules of its form
    BadCapture,
    // 9: a fragment that isn't 23 words, or an answer that isn't 8
    WrongFragment,
}

// Whether the lighting that a call was given is on: off is no refusal, though nothing is coloured.
#[derive(Clone, Copy, PartialEq, Eq)]
pub enum Switch {
    On,
    Off,
}

// The paper's number.
impl From<Refusal> for u32 {
    fn from(refusal: Refusal) -> u32
        ensures { result ≡ number_of refusal }
    {
        match refusal {
            Refusal::ShortFile => 1,
            Refusal::WrongTables => 2,
            Refusal::HighRegister => 3,
            Refusal::LastGeneration => 4,
            Refusal::WrongSaved => 5,
            Refusal::WrongBlock => 6,
            Refusal::NotWellFormed => 7,
            Refusal::BadCapture => 8,
            Refusal::WrongFragment => 9,
        }
    }
}

// 0 where the call is done.
pub fn outcome_number(outcome: Result<(), Refusal>) -> u32
    ensures { result ≡ outcome_number outcome }
{
    match outcome {
        Ok(()) => 0,
        Err(refusal) => u32::from(refusal),
    }
}

// 0 where the call is done, 100 where the lighting is off.
pub fn switch_number(answer: Result<Switch, Refusal>) -> u32
    ensures { result ≡ switch_number answer }
{
    match answer {
        Ok(Switch::On) => 0,
        Ok(Switch::Off) => 100,
        Err(refusal) => outcome_number(Err(refusal)),
    }
}
