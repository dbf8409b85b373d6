// The degrees of symbols that were asked for last, kept in the index: a position faces much the same symbols as the one before it. Each symbol has one
// place, which it shares with others, and a tag tells whose degrees are there.
ghost use Rattle.std.specs.Prelude.{◌≡◌, ◌+◌, ◌%◌, ◌<◌, ◌≤◌, length};
ghost use Rattle.table.specs.Sound.{table_of};
ghost use Rattle.wide.specs.Index.{kept_rows, small_table, tags_at, row_at, Chained, DegreesFrom};

use crate::links::tags;
use crate::row::lay_degrees;
use crate::{KEPT_ROWS, ROOM};
use table::sound_table::SoundTable;

// Lays the degrees of symbol `a` out at its place, where those of another are lost, and then sets the tag.
fn keep_row(table: SoundTable, index: &mut [u16], a: u16, tag: usize, from: usize)
    requires chained { Chained table.file.now index.old × (small_table < (table_of table).size) × (a < (table_of table).size) }
    requires tag_value { (tag ≡ tags_at table.file.now + a % kept_rows) × (from ≡ row_at table.file.now (a % kept_rows)) }
    ensures { Chained table.entry.file.now index.new × DegreesFrom table.entry.file.now a from index.new }
{
    let symbols = table.symbols as usize;
    let mut room = [0u16; ROOM];
    let row = &mut room[..symbols];
    lay_degrees(table, index, a, row);
    index[from..from + symbols].copy_from_slice(row);
    index[tag] = a + 1;
}

// Where in the index the degrees of symbol `a` begin. They are laid out if they are not kept.
pub fn kept_row(table: SoundTable, index: &mut [u16], a: u16) -> usize
    requires { Chained table.file.now index.old × (small_table < (table_of table).size) × (a < (table_of table).size) }
    ensures { Chained table.entry.file.now index.new × DegreesFrom table.entry.file.now a result index.new × (result + (table_of table.entry).size ≤ length index.new) }
{
    let tags = tags(table);
    let slot = (a % KEPT_ROWS) as usize;
    let from = tags + KEPT_ROWS as usize + slot * table.symbols as usize;
    if index[tags + slot] == a + 1 {
        return from;
    }
    keep_row(table, index, a, tags + slot, from);
    from
}
