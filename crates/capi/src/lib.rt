// The public calls as C sees them. A call that can be refused answers one number: the refusal's in its low 16 bits and the place in its high
// 16, or 0; the call on an exchange record answers a number of 64 bits, so that the place has 48. What else a call gives goes out through
// lent memory.
#![tactic(auto)]

pub mod answer;
pub mod files;
pub mod heading;
pub mod saving;
pub mod search;
pub mod term;
pub mod writing;
