// Pairs in a row, three numbers each: the first of them that may not be listed where it stands. They are tested in runs of 16, whose numbers are
// tested side by side (`table::lanes`); a run that fails is not searched there: from it on the pairs are tested one by one.
#![tactic(auto)]

pub mod in_bytes;
pub mod in_list;
pub mod numbers;
mod runs;

ghost use Rattle.std.specs.Prelude.{◌≡◌, ◌≤◌};
ghost use Rattle.theory.specs.Least.{least_below};
ghost use Rattle.meaning.specs.Refusals.{bad_pair_lem};
ghost use Rattle.table.specs.Keys.{key_before_lem};
ghost use Rattle.table.specs.Places.{place_in};

use crate::numbers::PairNumbers;
use crate::runs::good_until;
use table::rules::{key, may_follow};

// The key of the pair before pair k; 0 before the first.
fn key_before<N: PairNumbers>(numbers: &N, k: usize) -> u32
    requires { k ≤ N.whole numbers.now }
    ensures { result ≡ key_before_lem (N.listed numbers.now) k }
{
    if k == 0 {
        return 0;
    }
    let before = numbers.pair(k - 1);
    key(before.lower, before.higher)
}

// The first pair that may not be listed where it stands.
pub fn bad_pair<N: PairNumbers>(arities: &[u8], numbers: &N) -> Option<usize>
    ensures { least_below (N.whole numbers.now) (bad_pair_lem arities.now (N.listed numbers.now)) ≡ place_in result }
{
    let pairs = numbers.pairs();
    let good = good_until(arities, numbers, pairs);
    let mut previous = key_before(numbers, good);
    for k in good..pairs {
        let next = numbers.pair(k);
        if !may_follow(arities, previous, next) {
            return Some(k);
        }
        previous = key(next.lower, next.higher);
    }
    None
}
