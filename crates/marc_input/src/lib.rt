// The records of standard input, one by one, by way of a buffer.
#![tactic(auto)]

pub mod cutting;
pub mod passing;
pub mod rest;
