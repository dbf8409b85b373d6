// The lowest and the highest degree at a position, with those of the positions before it.
ghost use Rattle.std.specs.Prelude.{◌≡◌, true, ◌≤◌, ◌<◌};
ghost use Rattle.table.specs.Sound.{table_of};
ghost use Rattle.degrees.specs.Rows.{Rows};
ghost use Rattle.wide.specs.Index.{small_table, Index};
ghost use Rattle.wide.specs.Shared.{shared_by_lem};
ghost use Rattle.positions.specs.Looked.{AloneBelow, RatedBy, RatedAt, DegreesAt};

use crate::faced::Faced;
use crate::shared::Shared;
use degrees::rows::degree_in_row;
use refusal::Degrees;
use sets::SymbolSet;
use table::sound_table::SoundTable;
use wide::{SMALL_TABLE, wide_degrees};

// A set is large where it has more symbols than a sixteenth of the table, at least these few and at most these. A row of degrees has a number for each
// symbol, so it costs the less the smaller the table is. In a large table rows would pay for smaller sets where the same symbols stand at every position,
// since these are kept; where others stand at each, a row is laid out for every one of them, and that costs more than looking so few up.
const LEAST_FEW: u16 = 4;

const MOST_FEW: u16 = 16;

// What a symbol shares with those that stand there: the least of its degrees with them.
fn shared_degree(table: SoundTable, index: &[u16], faced: SymbolSet, symbol: u16) -> u16
    requires { Rows table.file.now index.now × (symbol < (table_of table).size) }
    ensures { result ≡ shared_by_lem (table_of table.entry) faced.words symbol }
{
    let mut least: u16 = 1000;
    for h in faced.members(table.symbols) {
        least = least.min(degree_in_row(table, index, symbol, h));
    }
    least
}

// How many symbols a set has at most where they are looked up.
fn few_of(symbols: u16) -> u16
    ensures { result ≤ 16 }
{
    (symbols / 16).clamp(LEAST_FEW, MOST_FEW)
}

// Whether degrees are to be laid out side by side. Either way of finding them gives the same ones, so this decides speed alone.
fn is_large(symbols: u16, set: &SymbolSet) -> bool
    ensures { result ≡ true → small_table < symbols }
{
    if symbols <= SMALL_TABLE {
        return false;
    }
    let mut left = few_of(symbols) + 1;
    for word in &set.words {
        left = left.saturating_sub(word.count_ones() as u16);
    }
    left == 0
}

// The degrees where few symbols tell them: all of the set, or the first ones where the others can change neither.
fn few_degrees(
    table: SoundTable,
    index: &[u16],
    faced: SymbolSet,
    shared: Shared,
    before: Degrees,
) -> Degrees
    requires { Rows table.file.now index.now × (before.lowest ≤ 1000) }
    ensures { RatedAt (table_of table.entry) faced.words shared.set.words shared.floor before result }
{
    let set = shared.set;
    let mut lowest = before.lowest;
    let mut best: u16 = 0;
    for s in set.members(table.symbols) {
        let least = shared_degree(table, index, faced, s);
        lowest = lowest.min(least);
        best = best.max(least);
        // no further symbol can change either
        if best >= before.highest && lowest <= shared.floor {
            return Degrees {
                lowest,
                highest: before.highest,
            };
        }
    }
    Degrees {
        lowest,
        highest: before.highest.min(best),
    }
}

// The degrees where many symbols would have to be looked up.
fn many_degrees(
    table: SoundTable,
    index: &mut [u16],
    faced: SymbolSet,
    floor: u16,
    before: Degrees,
) -> Degrees
    requires { Index table.file.now index.old × (small_table < (table_of table).size) }
    ensures index { Index table.entry.file.now index.new }
    ensures rated_by { RatedBy (table_of table.entry) faced.words floor before result }
{
    let here = wide_degrees(table, index, faced, floor);
    Degrees {
        lowest: before.lowest.min(here.lowest),
        highest: before.highest.min(here.highest),
    }
}

// The degrees where these symbols, two at least, stand in all subterms.
fn rate(
    table: SoundTable,
    index: &mut [u16],
    faced: SymbolSet,
    shared: Shared,
    before: Degrees,
) -> Degrees
    requires { Index table.file.now index.old × (before.lowest ≤ 1000) × (before.highest ≤ 1000) }
    ensures index { Index table.entry.file.now index.new }
    ensures rated_at { RatedAt (table_of table.entry) faced.words shared.set.words shared.floor before result }
{
    if is_large(table.symbols, &shared.set) {
        return many_degrees(table, index, faced, shared.floor, before);
    }
    few_degrees(table, index, faced, shared, before)
}

// The degrees at a position, with those of the positions before it.
pub fn degrees_at(
    table: SoundTable,
    index: &mut [u16],
    faced: Option<Faced>,
    shared: Shared,
    before: Degrees,
) -> Degrees
    requires index { Index table.file.now index.old × (before.lowest ≤ 1000) × (before.highest ≤ 1000) }
    requires alone_below { AloneBelow (table_of table).size faced }
    ensures index { Index table.entry.file.now index.new }
    ensures degrees_at { DegreesAt (table_of table.entry) faced shared.set.words shared.floor before result }
{
    match faced {
        None => Degrees {
            lowest: before.lowest,
            highest: 0,
        },
        // then the set is the near set of that symbol: its lowest degree is the floor, and the symbol itself is in it
        Some(Faced::Alone(_)) => Degrees {
            lowest: before.lowest.min(shared.floor),
            highest: before.highest,
        },
        Some(Faced::Several(there)) => rate(table, index, there, shared, before),
    }
}
