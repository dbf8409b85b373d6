// The degrees of one symbol with every symbol, in a row of numbers. Only the symbol's own pairs are walked: with all others its degree is 0.
ghost use Rattle.std.specs.Prelude.{◌≡◌, ℕ, ◌<◌, ◌≤◌, length, get_or};
ghost use Rattle.table.specs.Sound.{table_of};
ghost use Rattle.degrees.specs.Rows.{Rows};
ghost use Rattle.wide.specs.Index.{Chained};
ghost use Rattle.wide.specs.Laid.{InRow, RowFrom, Laid, DegreesOf};

use crate::WHOLE;
use crate::links::{heads, links};
use table::sound_table::SoundTable;

// The first pair that is not before the row of symbol `a`. Where rows are laid out it is the first that is looked at, unless the symbol has no row: then
// halving finds where it would stand.
fn row_start(table: SoundTable, index: &[u16], a: u16) -> usize
    requires { Rows table.file.now index.now × (a < (table_of table).size) }
    ensures { RowFrom table.entry.file.now a result }
{
    let own = 2 * a as usize;
    let mut low = index[own] as usize;
    let mut high = (table.pairs - index[own + 1]) as usize;
    while low < high {
        if table.pair(low).lower >= a {
            return low;
        }
        let middle = (low + high) / 2;
        if table.pair(middle).lower < a {
            low = middle + 1;
        } else {
            high = middle;
        }
    }
    low
}

// Zeros, and the degrees of symbol `a` with the higher symbols of its pairs, which stand side by side.
fn lay_row(table: SoundTable, index: &[u16], a: u16, row: &mut [u16])
    requires { Rows table.file.now index.now × (a < (table_of table).size) × ((table_of table).size ≤ length row.old) }
    ensures { Laid table.entry.file.now a (InRow table.entry.file.now a) row.new }
{
    row.fill(0);
    for k in row_start(table, index, a)..table.pairs as usize {
        let pair = table.pair(k);
        if pair.lower != a {
            return;
        }
        row[pair.higher as usize] = pair.degree;
    }
}

// Adds its degrees with the lower symbols of its pairs, from pair to pair of its chain.
fn lay_chain(table: SoundTable, index: &[u16], a: u16, row: &mut [u16])
    requires chained { Chained table.file.now index.now × (a < (table_of table).size) }
    requires laid { Laid table.file.now a (InRow table.file.now a) row.old }
    ensures { (s : ℕ) → s < (table_of table.entry).size → (s ≡ a → ⊥) → get_or row.new s 0 ≡ (table_of table.entry).deg s a }
{
    let links = links(table);
    // a chain tells a pair by 1 and its number
    let mut next = index[heads(table) + a as usize] as usize;
    while next > 0 {
        let pair = table.pair(next - 1);
        row[pair.lower as usize] = pair.degree;
        next = index[links + next - 1] as usize;
    }
}

// The degrees of symbol `a` with every symbol.
pub fn lay_degrees(table: SoundTable, index: &[u16], a: u16, row: &mut [u16])
    requires { Chained table.file.now index.now × (a < (table_of table).size) × ((table_of table).size ≤ length row.old) }
    ensures { DegreesOf table.entry.file.now a row.new }
{
    lay_row(table, index, a, row);
    lay_chain(table, index, a, row);
    row[a as usize] = WHOLE;
}
