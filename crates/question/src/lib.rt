// The answer to a question file, and its text behind what is still to be written.
#![tactic(auto)]

pub mod answer;
pub mod serving;
