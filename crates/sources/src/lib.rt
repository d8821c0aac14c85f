// Words that a caller has as words or as bytes, four to a word, the least first: `words` has the code that serves both.
#![tactic(auto)]

pub mod words;
