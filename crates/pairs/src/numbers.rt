// The numbers of pairs, three to a pair, wherever they stand.
ghost use Rattle.std.specs.Prelude.{◌≡◌, List, ℕ, ◌*◌, ◌<◌};
ghost use Rattle.theory.specs.Pairs.{Pair as ListedPair};
ghost use Rattle.table.specs.Read.{pair_in};
ghost use Rattle.table.specs.Runs.{pair_of};
ghost use Rattle.pairs.specs.Reads.{Reads};

use table::read::Pair;

pub trait PairNumbers {
    // number i
    ghost number_of: { Self → ℕ → ℕ };

    // the pairs that they are
    ghost listed: { Self → List ListedPair };

    // so many of these have all three numbers
    ghost whole: { Self → ℕ };

    fn pairs(&self) -> usize
        ensures { result ≡ whole self.now };

    fn number(&self, i: usize) -> u16
        requires { i < 3 * whole self.now }
        ensures { result ≡ number_of self.now i };

    ghost laws: { (s : Self) → Reads (number_of s) (listed s) (whole s) };

    final fn pair(&self, k: usize) -> Pair
        requires { k < whole self.now }
        ensures { pair_in result ≡ pair_of (number_of self.now) k }
    {
        Pair {
            lower: self.number(3 * k),
            higher: self.number(3 * k + 1),
            degree: self.number(3 * k + 2),
        }
    }
}
