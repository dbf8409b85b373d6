// The numbers of pairs in bytes, six to a pair, from a byte on.
ghost use Rattle.std.specs.Prelude.{ℕ, ◌+◌, ◌*◌, ◌^◌, ◌<◌, ◌≤◌, length, get_or};
ghost use Rattle.meaning.specs.File.{number, pairs_from};
ghost use Rattle.pairs.specs.InBytes.{bytes_read};

use crate::numbers::PairNumbers;
use table::number::number_at;

#[derive(Clone, Copy)]
pub struct InBytes<'a> {
    pub bytes: &'a [u8],
    pub from: usize,
    pub pairs: usize,
    pub ghost short: { (i : ℕ) → get_or bytes.now i 0 < 256 },
    pub ghost inside: { from + 6 * pairs ≤ length bytes.now },
    pub ghost fits: { length bytes.now < 2 ^ 63 },
}

impl<'a> PairNumbers for InBytes<'a> {
    ghost number_of = { λ s i. number s.bytes.now (s.from + 2 * i) };

    ghost listed = { λ s. pairs_from s.bytes.now s.from s.pairs };

    ghost whole = { λ s. s.pairs };

    ghost laws = { λ s. bytes_read s.bytes.now s.from s.pairs s.short s.inside s.fits };

    fn pairs(&self) -> usize {
        self.pairs
    }

    fn number(&self, i: usize) -> u16 {
        number_at(self.bytes, self.from + 2 * i)
    }
}
