// The match of sound lists: what comes of the variables that are packed.
#![tactic(auto)]

pub mod clear;
pub mod gathering;
pub mod search;
