// What faces the pattern's nodes in the heading, and the subterms that face one variable.
#![tactic(auto)]

pub mod faces;
pub mod gather;
pub mod notes;
