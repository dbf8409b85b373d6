// The degree of two symbol numbers.
#![tactic(auto)]

pub mod rows;

ghost use Rattle.std.specs.Prelude.{◌≡◌, ◌+◌, ◌<◌, length};
ghost use Rattle.meaning.specs.File.{number, pair_count_lem, table_in};
ghost use Rattle.table.specs.Keys.{key_of};
ghost use Rattle.degrees.specs.Sought.{key_at, Between};

use table::number::number_at;
use table::rules::key;
use table::sound_table::SoundTable;

// The key of the pair whose bytes start at i. The pair's four bytes are one number with the higher symbol above, which the compiler reads at once; turned
// by half it has the lower symbol above, as the key has.
fn key_from(bytes: &[u8], i: usize) -> u32
    requires { i + 3 < length bytes.now }
    ensures { result ≡ key_of (number bytes.now i) (number bytes.now (i + 2)) }
{
    key(number_at(bytes, i + 2), number_at(bytes, i)).rotate_left(16)
}

// The degree listed for two symbols, 0 if none is. Their pair is sought from pair `first` to below pair `end`: pairs stand by rising keys, so
// halving finds it.
fn listed_between(table: SoundTable, first: usize, end: usize, lower: u16, higher: u16) -> u16
    requires in_order { lower < higher }
    requires between { Between (key_at table.file.now) (pair_count_lem table.file.now) (key_of lower higher) first end }
    ensures { result ≡ (table_in table.entry.file.now).deg lower higher }
{
    let wanted = key(lower, higher);
    let start = 10 + table.symbols as usize;
    let mut low = first;
    let mut high = end;
    while low < high {
        let middle = (low + high) / 2;
        let at = start + 6 * middle;
        let found = key_from(table.file, at);
        if found == wanted {
            return number_at(table.file, at + 4);
        }
        if found < wanted {
            low = middle + 1;
        } else {
            high = middle;
        }
    }
    0
}

pub fn degree(table: SoundTable, a: u16, b: u16) -> u16
    ensures { result ≡ (table_in table.entry.file.now).deg a b }
{
    let lower = a.min(b);
    let higher = a.max(b);
    // what is no symbol of the table is near nothing
    if higher >= table.symbols {
        return 0;
    }
    if lower == higher {
        return 1000;
    }
    listed_between(table, 0, table.pairs as usize, lower, higher)
}
