// The tables and what their calls answer: the register write, with the upload of table data, is in `registers`, a list of writes in `lists`, restore and save in
// `copies`, what an entry gives in `entries`.
// File, tables and generation are three parameters: C hands them over one by one, the definitions have three, and of a struct with two `&mut` slices
// each contract would have to say twice that it holds the same slice as before.
#![tactic(auto)]

pub mod copies;
pub mod entries;
pub mod lists;
pub mod registers;

use refusals::Refusal;

// What a list of writes answers: that all are done, or the refusal of the first write that was refused; how many were made, and the generation after them,
// which the caller needs in either case.
#[derive(Clone, Copy)]
pub struct WrittenEach {
    pub outcome: Result<(), Refusal>,
    pub done: usize,
    pub generation: u64,
}
