// The table file: the rules that its arities and pairs keep, and what it says of its symbols and pairs.
#![tactic(auto)]

pub mod lanes;
pub mod number;
pub mod read;
pub mod rules;
pub mod sound_table;
