// The rules that arities and pairs have to keep, for a file that is read and for one that is to be written.
ghost use Rattle.std.specs.Prelude.{◌≡◌, ◌&&◌, not, ◌+◌, ◌*◌, ◌<◌, ltb};
ghost use Rattle.meaning.specs.Refusals.{row, at0, row2, row3, unsound};
ghost use Rattle.table.specs.Places.{place_in};
ghost use Rattle.table.specs.Keys.{key_of, pair_key};
ghost use Rattle.table.specs.Read.{pair_in};

use crate::read::Pair;
use sets::SymbolSet;

// A table has no more symbols than a set has room for, and no more pairs than this.
pub const MOST_SYMBOLS: usize = SymbolSet::ROOM as usize;

pub const MOST_PAIRS: usize = 8192;

// A symbol takes no more arguments than this.
const MOST_ARGUMENTS: u8 = 8;

// Whether a table may have so many symbols and pairs.
#[tactic(auto, unfolding(meaning::specs::Refusals::row2))]
pub fn allowed(symbols: usize, pairs: usize) -> bool
    ensures { row2 symbols pairs ≡ row 2 (at0 (not result)) }
{
    1 <= symbols && symbols <= MOST_SYMBOLS && pairs <= MOST_PAIRS
}

// The first symbol whose arity is too high.
pub fn high_arity(arities: &[u8]) -> Option<usize>
    ensures { row3 arities.now ≡ row 3 (place_in result) }
{
    arities.iter().position(|arity| *arity > MOST_ARGUMENTS)
}

// Two symbols as one number, by which pairs rise.
pub fn key(lower: u16, higher: u16) -> u32
    ensures { result ≡ key_of lower higher }
{
    lower as u32 * 65536 + higher as u32
}

// The highest degree that a pair may have: 1000 is a symbol's with itself alone.
pub const LISTED_TOP: u16 = 999;

// Whether the pair may be listed after one with the key `previous`; 0 stands before every pair.
pub fn may_follow(arities: &[u8], previous: u32, next: Pair) -> bool
    ensures { result ≡ (not (unsound arities.now (pair_in next)) && ltb previous (pair_key (pair_in next))) }
{
    let lower = next.lower as usize;
    let higher = next.higher as usize;
    if lower >= higher || higher >= arities.len() {
        return false;
    }
    if arities[lower] != arities[higher] {
        return false;
    }
    if next.degree < 1 || next.degree > LISTED_TOP {
        return false;
    }
    previous < key(next.lower, next.higher)
}
