// The rules of pairs as tests on single numbers, for a run of pairs at once. The run's numbers stand one behind the other, and each goes
// through the same tests, in a lane of its own, of which those count that are for its place in its pair: so no test waits for another,
// and the compiler makes eight at a time. A test tells a fault, which is 0 only if nothing is wrong, and faults are joined by `|`. What
// a fault is, and where, is not told: for that the pairs are gone over one by one.
ghost use Rattle.std.specs.Prelude.{◌≡◌, true, ◌+◌, ◌%◌, ◌≤◌, ◌<◌};
ghost use Rattle.theory.specs.Pairs.{listed_top};
ghost use Rattle.table.specs.Keys.{key_of};
ghost use Rattle.table.specs.Runs.{Passes};

use crate::rules::LISTED_TOP;

// How many pairs a run has, and how many numbers.
pub const RUN: usize = 16;

pub const LANES: usize = 3 * RUN;

// How far a number is above the other: 0 only if it is not.
fn above(a: u16, b: u16) -> u16
    ensures { result ≡ 0 → a ≤ b }
{
    a.saturating_sub(b)
}

// One less than a number; of 0 the highest there is, so that what 1 to a limit may not be is above the limit, 0 too.
fn one_less(n: u16) -> u16
    ensures { result < 65535 → result + 1 ≡ n }
{
    n.wrapping_sub(1)
}

// A fault that counts only where it is asked for.
fn only_if(asked: bool, fault: u16) -> u16
    ensures { result ≡ 0 → asked ≡ true → fault ≡ 0 }
{
    if asked { fault } else { 0 }
}

// The fault of a pair, `lower` and one more than `less`, that does not rise, or does not come after the pair `low`, `high`.
#[tactic(auto, using(crate::proofs::Runs::or_none))]
fn disorder(low: u16, high: u16, lower: u16, less: u16) -> u16
    ensures { result ≡ 0 → (lower ≤ less) × (key_of low high ≤ key_of lower less) }
{
    above(lower, less) | above(low, lower) | only_if(low == lower, above(high, less))
}

// What one less than the number in a lane may be at most. The lanes have a higher symbol, a degree, and the lower symbol of the next pair
// in turn; that one may be anything here, as it is tested with its higher symbol.
fn limit(lane: usize, symbols: u16) -> u16
    requires { 2 ≤ symbols }
    ensures { (lane % 3 ≡ 0 → result + 2 ≡ symbols) × (lane % 3 ≡ 1 → result + 1 ≡ listed_top) }
{
    match lane % 3 {
        0 => symbols - 2,
        1 => LISTED_TOP - 1,
        _ => u16::MAX,
    }
}

// The fault of the number `here`, which has `lower` before it, and before that the pair `low`, `high`.
#[tactic(auto, using(crate::proofs::Runs::or_none))]
pub fn lane_fault(lane: usize, symbols: u16, low: u16, high: u16, lower: u16, here: u16) -> u16
    requires { 2 ≤ symbols }
    ensures { result ≡ 0 → Passes lane symbols low high lower here }
{
    let less = one_less(here);
    above(less, limit(lane, symbols)) | only_if(lane % 3 == 0, disorder(low, high, lower, less))
}
