// The numbers of pairs in a list. A last pair that is not whole is not read.
ghost use Rattle.std.specs.Prelude.{ℕ, ◌^◌, ◌/◌, ◌<◌, length, get_or};
ghost use Rattle.meaning.specs.File.{pairs_of};
ghost use Rattle.pairs.specs.InList.{list_reads};

use crate::numbers::PairNumbers;

#[derive(Clone, Copy)]
pub struct InList<'a> {
    pub numbers: &'a [u16],
    pub ghost short: { (i : ℕ) → get_or numbers.now i 0 < 65536 },
    pub ghost fits: { length numbers.now < 2 ^ 63 },
}

impl<'a> PairNumbers for InList<'a> {
    ghost number_of = { λ s i. get_or s.numbers.now i 0 };

    ghost listed = { λ s. pairs_of s.numbers.now };

    ghost whole = { λ s. length s.numbers.now / 3 };

    ghost laws = { λ s. list_reads s.numbers.now s.short s.fits };

    fn pairs(&self) -> usize {
        self.numbers.len() / 3
    }

    fn number(&self, i: usize) -> u16 {
        self.numbers[i]
    }
}
