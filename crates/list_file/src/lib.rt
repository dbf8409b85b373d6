// The list of known strings as a file: its lines are gathered into one text with the ends of the strings, and their numbers, as the call on exchange
// records takes them.
#![tactic(auto)]

pub mod gathering;
pub mod numeral;
pub mod reading;
