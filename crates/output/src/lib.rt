// What the programs say, to standard output in large pieces.
#![tactic(auto)]

pub mod pending;
pub mod say;
