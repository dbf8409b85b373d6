// The exchange record: its numbers, the tests of its frame, its first 100 field, and the text of a subfield.
#![tactic(auto)]

pub mod fields;
pub mod frame;
pub mod number;
