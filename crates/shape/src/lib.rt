// The question file taken apart.
#![tactic(auto)]

pub mod nodes;
pub mod parts;
pub mod room;
