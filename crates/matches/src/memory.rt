// The match in memory of its own size, for input that is accepted: near sets and the index of the pairs by the table's size, and notes by the pattern's
// length. Neither grows with the other, so that a small pattern does not pay for what only a large one needs, nor a small table for a large one's.
ghost use Rattle.std.specs.Prelude.{◌≡◌, true, ◌*◌, ◌≤◌, length};
ghost use Rattle.table.specs.Sound.{table_of};
ghost use Rattle.meaning.specs.Calls.{match_call};
ghost use Rattle.meaning.specs.Demands.{Accepted};
ghost use Rattle.near.specs.Near.{near_words};
ghost use Rattle.wide.specs.Index.{index_room};
ghost use Rattle.refusal.specs.Outcomes.{result_of};

use facing::notes::Note;
use matching::search::search;
use near::{NEAR_WORDS, NOT_GATHERED};
use refusal::{Degrees, Refusal};
use sets::SymbolSet;
use table::sound_table::SoundTable;
use terms::asked::Asked;
use wide::{KEPT_ROWS, SMALL_TABLE};

// What stands in memory before it is written. Nothing reads it; it is no 0, since zeros are laid byte by byte where other numbers are laid by
// whole words.
const UNWRITTEN: u16 = 1;

const UNWRITTEN_NOTE: Note = Note {
    start: UNWRITTEN,
    size: UNWRITTEN,
};

// The symbols and the pairs of a small table and of a modest one, the symbols of one that is not yet large, and the pairs of any.
const FEW_SYMBOLS: u16 = SMALL_TABLE;

const FEW_PAIRS: u16 = 128;

const SOME_SYMBOLS: u16 = 64;

const SOME_PAIRS: u16 = 512;

const MORE_SYMBOLS: u16 = 256;

const ALL_PAIRS: usize = 8192;

// Near sets for so many symbols, and for as many as a table may have.
const FEW_NEAR: usize = FEW_SYMBOLS as usize * NEAR_WORDS;

const SOME_NEAR: usize = SOME_SYMBOLS as usize * NEAR_WORDS;

const MORE_NEAR: usize = MORE_SYMBOLS as usize * NEAR_WORDS;

const ALL_NEAR: usize = SymbolSet::ROOM as usize * NEAR_WORDS;

// The index of as many: two numbers of its row and one head of a chain for each symbol, a mark, and a link for each pair. A table that is not
// small has the degrees of some symbols with all others besides, and a tag for each.
const FEW_INDEX: usize = 3 * FEW_SYMBOLS as usize + 1 + FEW_PAIRS as usize;

const SOME_KEPT: usize = KEPT_ROWS as usize * (SOME_SYMBOLS as usize + 1);

const SOME_INDEX: usize = 3 * SOME_SYMBOLS as usize + 1 + SOME_PAIRS as usize + SOME_KEPT;

const MORE_KEPT: usize = KEPT_ROWS as usize * (MORE_SYMBOLS as usize + 1);

const MORE_INDEX: usize = 3 * MORE_SYMBOLS as usize + 1 + ALL_PAIRS + MORE_KEPT;

const ALL_KEPT: usize = KEPT_ROWS as usize * (SymbolSet::ROOM as usize + 1);

const ALL_INDEX: usize = 3 * SymbolSet::ROOM as usize + 1 + ALL_PAIRS + ALL_KEPT;

// The nodes of a small pattern, and of any: there is a note for each.
const FEW_NODES: usize = 64;

const ALL_NODES: usize = 1024;

// The match in memory for near sets of so many words, for an index of so many numbers, and for so many notes.
fn search_in<const NEAR: usize, const INDEX: usize, const NOTES: usize>(
    asked: Asked,
    spans: &mut [u16],
    sets: &mut [u64],
) -> Result<Degrees, Refusal>
    requires of_near { (near_words * (table_of asked.table).size ≤ NEAR) × (NEAR ≤ 65536) }
    requires of_index { (index_room asked.table.file.now ≤ INDEX) × (INDEX ≤ 65536) }
    requires of_notes { (length asked.pattern.now ≤ NOTES) × (NOTES ≤ 65536) }
    requires accepted { Accepted asked.table.file.now asked.pattern.now asked.heading.now asked.cut spans.old sets.old }
    ensures { result_of result spans.new sets.new ≡ match_call asked.entry.table.file.now asked.entry.pattern.now asked.entry.heading.now asked.entry.cut spans.old sets.old }
{
    let mut near = [NOT_GATHERED; NEAR];
    let mut index = [UNWRITTEN; INDEX];
    let mut notes = [UNWRITTEN_NOTE; NOTES];
    let mut own = [UNWRITTEN_NOTE; NOTES];
    search(
        asked, &mut near, &mut index, &mut notes, &mut own, spans, sets,
    )
}

// Whether a table has no more symbols and no more pairs than these.
fn has_at_most(table: SoundTable, symbols: u16, pairs: u16) -> bool
    ensures { result ≡ true → (table.entry.symbols ≤ symbols) × (table.entry.pairs ≤ pairs) }
{
    table.symbols <= symbols && table.pairs <= pairs
}

// The match with so many notes, and in memory of its table's size.
fn search_noted<const NOTES: usize>(
    asked: Asked,
    spans: &mut [u16],
    sets: &mut [u64],
) -> Result<Degrees, Refusal>
    requires of_notes { (length asked.pattern.now ≤ NOTES) × (NOTES ≤ 65536) }
    requires accepted { Accepted asked.table.file.now asked.pattern.now asked.heading.now asked.cut spans.old sets.old }
    ensures { result_of result spans.new sets.new ≡ match_call asked.entry.table.file.now asked.entry.pattern.now asked.entry.heading.now asked.entry.cut spans.old sets.old }
{
    let table = asked.table;
    if has_at_most(table, FEW_SYMBOLS, FEW_PAIRS) {
        search_in::<FEW_NEAR, FEW_INDEX, NOTES>(asked, spans, sets)
    } else if has_at_most(table, SOME_SYMBOLS, SOME_PAIRS) {
        search_in::<SOME_NEAR, SOME_INDEX, NOTES>(asked, spans, sets)
    } else if table.symbols <= MORE_SYMBOLS {
        search_in::<MORE_NEAR, MORE_INDEX, NOTES>(asked, spans, sets)
    } else {
        search_in::<ALL_NEAR, ALL_INDEX, NOTES>(asked, spans, sets)
    }
}

// The match in memory of its own size.
pub fn search_sound(asked: Asked, spans: &mut [u16], sets: &mut [u64]) -> Result<Degrees, Refusal>
    requires { Accepted asked.table.file.now asked.pattern.now asked.heading.now asked.cut spans.old sets.old }
    ensures { result_of result spans.new sets.new ≡ match_call asked.entry.table.file.now asked.entry.pattern.now asked.entry.heading.now asked.entry.cut spans.old sets.old }
{
    if asked.pattern.len() <= FEW_NODES {
        search_noted::<FEW_NODES>(asked, spans, sets)
    } else {
        search_noted::<ALL_NODES>(asked, spans, sets)
    }
}
