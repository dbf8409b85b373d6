// The answer as lines of text.
#![tactic(auto)]

pub mod answer;
pub mod filling;
pub mod line;
