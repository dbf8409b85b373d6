// The pairs in runs of 16, whose numbers are tested side by side. A run that fails is not searched here.
ghost use Rattle.std.specs.Prelude.{◌≡◌, true, false, ◌+◌, ◌*◌, ◌≤◌, ◌<◌, length};
ghost use Rattle.std.proofs.Math.Option.{none};
ghost use Rattle.theory.specs.Least.{least_below};
ghost use Rattle.meaning.specs.Limits.{most_symbols};
ghost use Rattle.meaning.specs.Refusals.{bad_pair_lem};
ghost use Rattle.table.specs.Runs.{OrderedRun, AlikeRun};
ghost use Rattle.pairs.specs.Reads.{numbers_from};

use crate::numbers::PairNumbers;
use table::lanes::{LANES, RUN, lane_fault};
use table::rules::{MOST_SYMBOLS, may_follow};

// Whether the pairs of a run are in order and in their ranges. The pair before them begins at number `at`.
#[tactic(auto, using(table::proofs::Runs::or_none))]
fn in_order<N: PairNumbers>(numbers: &N, at: usize, symbols: u16) -> bool
    requires { (at + 52 ≤ 3 * N.whole numbers.now) × (2 ≤ symbols) }
    ensures { result ≡ true → OrderedRun symbols (numbers_from (N.number_of numbers.now) at) }
{
    let mut fault: u16 = 0;
    for lane in 0..LANES {
        let i = at + lane;
        fault |= lane_fault(
            lane,
            symbols,
            numbers.number(i),
            numbers.number(i + 1),
            numbers.number(i + 3),
            numbers.number(i + 4),
        );
    }
    fault == 0
}

// Whether both symbols of each pair of a run have one arity.
fn alike<N: PairNumbers>(numbers: &N, at: usize, arities: &[u8]) -> bool
    requires { (at + 52 ≤ 3 * N.whole numbers.now) × OrderedRun (length arities.now) (numbers_from (N.number_of numbers.now) at) }
    ensures { result ≡ true → AlikeRun arities.now (numbers_from (N.number_of numbers.now) at) }
{
    for j in 0..RUN {
        let i = at + 3 * (j + 1);
        let lower = numbers.number(i) as usize;
        let higher = numbers.number(i + 1) as usize;
        if arities[lower] != arities[higher] {
            return false;
        }
    }
    true
}

// So many of the runs after the first pair are good, up to one that fails, where that pair is good. (The last lane of a run looks at the pair
// behind it.)
#[tactic(auto, using(crate::proofs::Read::two_symbols))]
fn good_runs<N: PairNumbers>(arities: &[u8], numbers: &N, runs: usize) -> usize
    requires { (length arities.now ≤ most_symbols) × (16 * runs + 1 < N.whole numbers.now) × (bad_pair_lem arities.now (N.listed numbers.now) 0 ≡ false) }
    ensures { (result ≤ runs) × (least_below (16 * result + 1) (bad_pair_lem arities.now (N.listed numbers.now)) ≡ none) }
{
    let symbols = arities.len() as u16;
    for run in 0..runs {
        let at = LANES * run;
        if !in_order(numbers, at, symbols) || !alike(numbers, at, arities) {
            return run;
        }
    }
    runs
}

// So many pairs, from the first on, are good: the first one and those of the runs after it. The last pair is in no run.
pub fn good_until<N: PairNumbers>(arities: &[u8], numbers: &N, pairs: usize) -> usize
    requires { pairs ≡ N.whole numbers.now }
    ensures { (result ≤ pairs) × (least_below result (bad_pair_lem arities.now (N.listed numbers.now)) ≡ none) }
{
    if pairs < RUN + 2 || arities.len() > MOST_SYMBOLS {
        return 0;
    }
    if !may_follow(arities, 0, numbers.pair(0)) {
        return 0;
    }
    RUN * good_runs(arities, numbers, (pairs - 2) / RUN) + 1
}
