// The degree of two headings.
ghost use Rattle.std.specs.Prelude.{◌≡◌, ◌*◌, ◌≤◌, length};
ghost use Rattle.meaning.specs.File.{table_in};
ghost use Rattle.terms.specs.Degrees.{Heading, degree_of};

use degrees::rows::{degree_in_row, lay_where_worth};
use sets::SymbolSet;
use table::sound_table::SoundTable;

// A list of rows has two numbers for each symbol. One for few symbols is cleared at little cost.
const FEW_SYMBOLS: u16 = 16;

const FEW_ROWS: usize = 2 * FEW_SYMBOLS as usize;

const ALL_ROWS: usize = 2 * SymbolSet::ROOM as usize;

// The least degree over the positions of two headings of one length, by a list of so many numbers for the rows.
fn least_degree<const ROWS: usize>(table: SoundTable, one: &[u16], two: &[u16]) -> u16
    requires room { (2 * (table_in table.file.now).size ≤ ROWS) × (ROWS ≤ 65536) }
    requires headings { Heading (table_in table.file.now) one.now × Heading (table_in table.file.now) two.now }
    requires alike { length one.now ≡ length two.now }
    ensures { result ≡ degree_of (table_in table.entry.file.now) one.now two.now }
{
    let mut rows = [0u16; ROWS];
    lay_where_worth(table, &mut rows, one.len());
    let mut least: u16 = 1000;
    for (i, symbol) in one.iter().enumerate() {
        let here = degree_in_row(table, &rows, *symbol, two[i]);
        if here == 0 {
            return 0;
        }
        least = least.min(here);
    }
    least
}

// The degree of two headings. Near symbols have equal arities, so lists of unlike length have a position of degree 0.
pub fn heading_degree(table: SoundTable, one: &[u16], two: &[u16]) -> u16
    requires { Heading (table_in table.file.now) one.now × Heading (table_in table.file.now) two.now }
    ensures { result ≡ degree_of (table_in table.entry.file.now) one.now two.now }
{
    if one.len() != two.len() {
        return 0;
    }
    if table.symbols <= FEW_SYMBOLS {
        least_degree::<FEW_ROWS>(table, one, two)
    } else {
        least_degree::<ALL_ROWS>(table, one, two)
    }
}
