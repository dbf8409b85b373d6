// Each symbol's row: the pairs whose lower symbol it is. They stand side by side, so one who asks often seeks a pair there alone.
ghost use Rattle.std.specs.Prelude.{◌≡◌, ◌≤◌, ◌<◌};
ghost use Rattle.meaning.specs.File.{pair_count_lem, table_in};
ghost use Rattle.meaning.specs.Tables.{lower_at};
ghost use Rattle.degrees.specs.Rows.{Rows, RowsLaid, NoneBefore, PassedRow};

use crate::listed_between;
use table::number::number_at;
use table::sound_table::SoundTable;

// How many pairs of a row are passed at a time, but for its last ones.
const STRETCH: u16 = 8;

// The lower symbol of pair k.
fn lower_of(table: SoundTable, k: usize) -> u16
    requires { k < pair_count_lem table.file.now }
    ensures { result ≡ lower_at table.entry.file.now k }
{
    number_at(table.file, 10 + table.symbols as usize + 6 * k)
}

// Passes pairs of the row of symbol `row`, from pair `first` on, so many at a time, for as long as the last of them is of the row; pairs rise, so
// those before it are too. Gives the pair behind them.
fn pass_row(table: SoundTable, row: u16, first: usize, stretch: u16) -> usize
    requires within { (first ≤ pair_count_lem table.file.now) × (0 < stretch) }
    requires none_before { NoneBefore table.file.now row first }
    ensures { PassedRow table.entry.file.now row first stretch result }
{
    let pairs = table.pairs as usize;
    let step = stretch as usize;
    let mut k = first;
    while k + step <= pairs {
        if lower_of(table, k + step - 1) != row {
            return k;
        }
        k += step;
    }
    k
}

// Narrows each symbol's range to its row, one row after the other.
pub fn lay_rows(table: SoundTable, rows: &mut [u16])
    requires { Rows table.file.now rows.old }
    ensures { RowsLaid table.entry.file.now rows.old rows.new }
{
    let pairs = table.pairs as usize;
    let mut k: usize = 0;
    while k < pairs {
        let row = lower_of(table, k);
        let near = pass_row(table, row, k, STRETCH);
        let end = pass_row(table, row, near, 1);
        rows[2 * row as usize] = k as u16;
        rows[2 * row as usize + 1] = (pairs - end) as u16;
        k = end;
    }
}

// Whether the rows are laid out: then that of the first pair ends somewhere, unless all pairs are in it. This decides speed alone.
fn are_laid(table: SoundTable, rows: &[u16]) -> bool
    requires { Rows table.file.now rows.now }
{
    if table.pairs == 0 {
        return true;
    }
    rows[2 * lower_of(table, 0) as usize + 1] != 0
}

// Lays the rows out, unless they are, for one who is about to look up more degrees than there are symbols: a row costs about as much as a look-up
// among all pairs.
pub fn lay_where_worth(table: SoundTable, rows: &mut [u16], asked: usize)
    requires { Rows table.file.now rows.old }
    ensures { RowsLaid table.entry.file.now rows.old rows.new }
{
    if asked <= table.symbols as usize {
        return;
    }
    if are_laid(table, rows) {
        return;
    }
    lay_rows(table, rows);
}

// The degree of two symbols of the table, sought in the lower one's row.
pub fn degree_in_row(table: SoundTable, rows: &[u16], a: u16, b: u16) -> u16
    requires rows { Rows table.file.now rows.now }
    requires symbols { (a < (table_in table.file.now).size) × (b < (table_in table.file.now).size) }
    ensures { result ≡ (table_in table.entry.file.now).deg a b }
{
    if a == b {
        return 1000;
    }
    let lower = a.min(b);
    let row = 2 * lower as usize;
    let end = table.pairs - rows[row + 1];
    listed_between(table, rows[row] as usize, end as usize, lower, a.max(b))
}
