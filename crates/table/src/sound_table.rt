// A file that was tested to be a table, with the counts that it begins with: who has one need not test or read them again.
ghost use Rattle.std.specs.Prelude.{◌≡◌, ◌<◌, ◌≤◌, get_or};
ghost use Rattle.theory.specs.Pairs.{pair};
ghost use Rattle.meaning.specs.Limits.{most_symbols};
ghost use Rattle.meaning.specs.File.{pair_count_lem, pairs_in, table_in};
ghost use Rattle.meaning.specs.Refusals.{SoundFile};
ghost use Rattle.table.specs.Read.{pair_in};

use crate::number::number_at;
use crate::read::{Pair, pair_from};

#[derive(Clone, Copy)]
pub struct SoundTable<'a> {
    pub file: &'a [u8],
    pub symbols: u16,
    pub pairs: u16,
    pub ghost sound: { SoundFile file.now },
    pub ghost symbols_are: { symbols ≡ (table_in file.now).size },
    pub ghost pairs_are: { pairs ≡ pair_count_lem file.now },
    pub ghost few: { symbols ≤ most_symbols },
}

impl<'a> SoundTable<'a> {
    pub fn new(file: &'a [u8]) -> SoundTable<'a>
        requires { SoundFile file.now }
        ensures { result.file.now ≡ file.entry.now }
    {
        SoundTable {
            file,
            symbols: number_at(file, 0),
            pairs: number_at(file, 2),
        }
    }

    pub fn arity(self, symbol: u16) -> u8
        requires { symbol < (table_in self.file.now).size }
        ensures { (result ≡ (table_in self.entry.file.now).arity symbol) × (result ≤ 8) }
    {
        self.file[10 + symbol as usize]
    }

    pub fn pair(self, k: usize) -> Pair
        requires { k < pair_count_lem self.file.now }
        ensures { pair_in result ≡ get_or (pairs_in self.entry.file.now) k (pair 0 0 0) }
    {
        pair_from(self.file, 10 + self.symbols as usize + 6 * k)
    }
}
