// The list of known strings with their numbers, as it is lent: which entry may not be listed, and the number of a string.
#![tactic(auto)]

pub mod bad;
mod chains;
pub mod check;
mod compare;
pub mod list;
pub mod tested;
