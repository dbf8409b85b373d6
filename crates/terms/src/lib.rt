// Lists of nodes as they are lent: what kind a node is, where a term in a list ends, whether a list is a term, and the degree of two headings.
#![tactic(auto)]

pub mod asked;
pub mod degree;
pub mod head;
pub mod kind;
pub mod reading;
pub mod walk;
