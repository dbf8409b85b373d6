// What stands at one position of a variable, over all subterms that face it, and what may stand there for the variable.
#![tactic(auto)]

pub mod faced;
pub mod rated;
pub mod shared;
