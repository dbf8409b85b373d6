// The lowest and the highest degree at a position of a variable where many symbols are shared. The degrees of each faced symbol with all symbols
// are laid out in one row of numbers, by its own pairs alone, and the least of these rows is gone over once: so no pair is sought.
#![tactic(auto)]

mod kept;
pub mod links;
mod row;

ghost use Rattle.std.specs.Prelude.{◌≡◌, ℕ, ◌<◌, ◌≤◌, min, cond, leb, length, get_or};
ghost use Rattle.table.specs.Sound.{table_of};
ghost use Rattle.wide.specs.Index.{small_table, Index, Chained};
ghost use Rattle.wide.specs.Shared.{shared_by_lem, lowest_from, highest_from};

use crate::kept::kept_row;
use crate::links::link_pairs;
use refusal::Degrees;
use sets::SymbolSet;
use table::sound_table::SoundTable;

// The degree of a symbol with itself, and the highest that there is.
const WHOLE: u16 = 1000;

// A table has no more symbols than a set has room for.
const ROOM: usize = SymbolSet::ROOM as usize;

// The degrees of so many symbols are kept at most.
pub const KEPT_ROWS: u16 = 32;

// A table of no more symbols keeps none, so that its index need not be larger: its degrees are found without these rows.
pub const SMALL_TABLE: u16 = 16;

// Lowers each symbol's number to the one in a row, where that is less.
fn lower_to(least: &mut [u16], row: &[u16])
    requires { length least.old ≤ length row.now }
    ensures { (s : ℕ) → s < length least.old → get_or least.new s 0 ≡ min (get_or least.old s 0) (get_or row.now s 0) }
{
    for (s, degree) in least.iter_mut().enumerate() {
        *degree = (*degree).min(row[s]);
    }
}

// Lowers each symbol's number, the highest at first, to what it shares with the faced symbols.
fn lower_to_shared(table: SoundTable, index: &mut [u16], faced: SymbolSet, least: &mut [u16])
    requires chained { Chained table.file.now index.old × (small_table < (table_of table).size) }
    requires whole { (length least.old ≡ (table_of table).size) × ((s : ℕ) → s < (table_of table).size → get_or least.old s 0 ≡ 1000) }
    ensures chained { Chained table.entry.file.now index.new }
    ensures shared { (s : ℕ) → s < (table_of table.entry).size → get_or least.new s 0 ≡ shared_by_lem (table_of table.entry) faced.words s }
{
    for a in faced.members(table.symbols) {
        let from = kept_row(table, index, a);
        let end = from + table.symbols as usize;
        lower_to(least, &index[from..end]);
    }
}

// A degree that is not below `floor`, and another number in the place of one that is.
fn from_floor(degree: u16, floor: u16, other: u16) -> u16
    ensures { result ≡ cond (leb floor degree) degree other }
{
    if floor <= degree { degree } else { other }
}

// The lowest and the highest of the symbols' numbers that are not below `floor`.
fn rate(least: &[u16], floor: u16) -> Degrees
    ensures { (f : ℕ → ℕ) → ((s : ℕ) → s < length least.now → get_or least.now s 0 ≡ f s) → (result.lowest ≡ lowest_from floor (length least.now) f) × (result.highest ≡ highest_from floor (length least.now) f) }
{
    let mut lowest = WHOLE;
    let mut highest: u16 = 0;
    for degree in least {
        lowest = lowest.min(from_floor(*degree, floor, WHOLE));
        highest = highest.max(from_floor(*degree, floor, 0));
    }
    Degrees { lowest, highest }
}

// The lowest and the highest degree that a symbol shares with the faced ones, of those that share at least `floor`.
pub fn wide_degrees(table: SoundTable, index: &mut [u16], faced: SymbolSet, floor: u16) -> Degrees
    requires { Index table.file.now index.old × (small_table < (table_of table).size) }
    ensures index { Index table.entry.file.now index.new }
    ensures lowest_value { result.lowest ≡ lowest_from floor (table_of table.entry).size (shared_by_lem (table_of table.entry) faced.words) }
    ensures highest_value { result.highest ≡ highest_from floor (table_of table.entry).size (shared_by_lem (table_of table.entry) faced.words) }
{
    link_pairs(table, index);
    let mut whole = [WHOLE; ROOM];
    let least = &mut whole[..table.symbols as usize];
    lower_to_shared(table, index, faced, least);
    rate(least, floor)
}
