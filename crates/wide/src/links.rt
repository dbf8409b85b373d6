// The index of a table's pairs: the rows of its symbols, and a chain of the pairs of each higher symbol.
ghost use Rattle.std.specs.Prelude.{◌≡◌, ◌≤◌, ◌<◌, length};
ghost use Rattle.meaning.specs.File.{pair_count_lem};
ghost use Rattle.table.specs.Sound.{table_of};
ghost use Rattle.degrees.specs.Rows.{Rows};
ghost use Rattle.wide.specs.Index.{small_table, index_room, heads_at, links_at, tags_at, Linked, Index, Chained};

use crate::KEPT_ROWS;
use degrees::rows::lay_rows;
use table::sound_table::SoundTable;

// The mark of an index whose chains are laid out.
const LINKED: u16 = 1;

// Where the heads of the chains begin, which is behind the mark.
pub fn heads(table: SoundTable) -> usize
    ensures { result ≡ heads_at table.entry.file.now }
{
    2 * table.symbols as usize + 1
}

// Where the links begin.
pub fn links(table: SoundTable) -> usize
    ensures { result ≡ links_at table.entry.file.now }
{
    3 * table.symbols as usize + 1
}

// Where the tags of the symbols begin whose degrees are kept.
pub fn tags(table: SoundTable) -> usize
    ensures { result ≡ tags_at table.entry.file.now }
{
    links(table) + table.pairs as usize
}

// Makes a list an index in which nothing is laid out, whatever stood in it.
pub fn open_index(table: SoundTable, index: &mut [u16])
    requires { index_room table.file.now ≤ length index.old }
    ensures { Index table.entry.file.now index.new }
{
    index[..heads(table)].fill(0);
}

// Chains the pairs of each higher symbol: a pair is linked to the one that was the head, and is then the head itself.
fn lay_links(table: SoundTable, index: &mut [u16])
    requires { Rows table.file.now index.old × (index_room table.file.now ≤ length index.old) }
    ensures { Rows table.entry.file.now index.new × Linked table.entry.file.now (pair_count_lem table.entry.file.now) index.new }
{
    let heads = heads(table);
    let links = links(table);
    index[heads..links].fill(0);
    for k in 0..table.pairs {
        let head = heads + table.pair(k as usize).higher as usize;
        index[links + k as usize] = index[head];
        index[head] = k + 1;
    }
}

// Lays out rows and chains, if that was not done before. No degrees are kept yet.
pub fn link_pairs(table: SoundTable, index: &mut [u16])
    requires { Index table.file.now index.old × (small_table < (table_of table).size) }
    ensures { Chained table.entry.file.now index.new }
{
    let mark = 2 * table.symbols as usize;
    if index[mark] == LINKED {
        return;
    }
    lay_rows(table, index);
    lay_links(table, index);
    let tags = tags(table);
    index[tags..tags + KEPT_ROWS as usize].fill(0);
    index[mark] = LINKED;
}
