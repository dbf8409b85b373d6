// Bytes from standard input in large pieces, and the questions of a batch in them.
#![tactic(auto)]

pub mod batch;
pub mod reading;
pub mod unread;
