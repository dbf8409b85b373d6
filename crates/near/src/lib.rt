// The symbols near each symbol of a heading.
#![tactic(auto)]

ghost use Rattle.std.specs.Prelude.{◌≡◌, ℕ, ◌+◌, ◌-◌, ◌*◌, ◌<◌, ◌≤◌, length, get_or};
ghost use Rattle.meaning.specs.Limits.{set_room};
ghost use Rattle.table.specs.Sound.{table_of};
ghost use Rattle.meaning.specs.Buffers.{member};
ghost use Rattle.near.specs.Near.{near_words, in_row, kept, Fresh, Kept, NearSets, Ready, Alone, Opened, OwnJoined, Joined, PairJoined};

use sets::SymbolSet;
use table::read::Pair;
use table::sound_table::SoundTable;

// How many words a symbol has: its set, and a number that is kept with it.
pub const NEAR_WORDS: usize = SymbolSet::WORDS + 1;

// What a list for near sets is filled with at first: then no set is gathered.
pub const NOT_GATHERED: u64 = 1;

// What is kept with a set in which a symbol is alone. From here on the number says how far the lowest degree in the set is below the top.
const ALONE: u64 = NOT_GATHERED + 1;

// The degree of a symbol with itself.
const TOP: u64 = 1000;

// What would be kept with a set in which a degree is 0; with a higher one it is as much less.
const FARTHEST: u64 = ALONE + TOP;

// The set of a symbol h whose set is gathered.
pub fn set_of(near: &[u64], h: u16) -> SymbolSet
    requires { near_words * (h + 1) ≤ length near.now }
    ensures { (k : ℕ) → k < set_room → member result.words k ≡ in_row near.now h k }
{
    SymbolSet::read(near, NEAR_WORDS * h as usize)
}

// The lowest degree in the set of symbol h.
pub fn lowest_of(near: &[u64], h: u16) -> u16
    requires { Kept near.now h }
    ensures { result ≡ 1002 - kept near.now h }
{
    (FARTHEST - near[NEAR_WORDS * h as usize + SymbolSet::WORDS]) as u16
}

// Begins the set of symbol h, unless that is gathered. Its words are written anew, so that whatever stood there is gone.
fn open(near: &mut [u64], h: u16)
    requires { (near_words * (h + 1) ≤ length near.old) × (h < set_room) }
    ensures { Opened h near.old near.new }
{
    let at = NEAR_WORDS * h as usize;
    let last = at + SymbolSet::WORDS;
    if near[last] == NOT_GATHERED {
        near[at..last].fill(0);
        near[at + (h / SymbolSet::BITS) as usize] = 1u64 << (h % SymbolSet::BITS);
        near[last] = ALONE;
    }
}

// Begins the sets of the symbols of a heading.
fn open_sets(heading: &[u16], near: &mut [u64])
    requires { (i : ℕ) → i < length heading.now → Ready near.old (get_or heading.now i 0) }
    ensures { (i : ℕ) → i < length heading.now → Alone near.new (get_or heading.now i 0) }
{
    for symbol in heading {
        open(near, *symbol);
    }
}

// Puts symbol k into the set of the symbol whose own words these are and which it has this degree with, if that set is gathered. One bit is
// set in place, so that this costs the same however many words a set has.
fn join_own(own: &mut [u64], k: u16, degree: u16)
    requires { (near_words ≤ length own.old) × (k < set_room) × (degree ≤ 1000) }
    ensures { OwnJoined k degree own.old own.new }
{
    if own[SymbolSet::WORDS] != NOT_GATHERED {
        let word = (k / SymbolSet::BITS) as usize;
        own[word] |= 1u64 << (k % SymbolSet::BITS);
        own[SymbolSet::WORDS] = own[SymbolSet::WORDS].max(FARTHEST - degree as u64);
    }
}

// Puts symbol k, which has this degree with symbol h, into the set of h, if that is gathered.
fn join(near: &mut [u64], h: u16, k: u16, degree: u16)
    requires { (near_words * (h + 1) ≤ length near.old) × (k < set_room) × (degree ≤ 1000) }
    ensures { Joined h k degree near.old near.new }
{
    let at = NEAR_WORDS * h as usize;
    join_own(&mut near[at..at + NEAR_WORDS], k, degree);
}

// Puts the symbols of a pair into each other's sets, if its degree reaches the cut.
fn join_pair(near: &mut [u64], pair: Pair, cut: u16)
    requires lower_lt_set_room { (pair.lower < set_room) × (pair.higher < set_room) × (pair.degree ≤ 1000) }
    requires lower_in_bounds { (near_words * (pair.lower + 1) ≤ length near.old) × (near_words * (pair.higher + 1) ≤ length near.old) }
    ensures { PairJoined cut pair.lower pair.higher pair.degree near.old near.new }
{
    if cut <= pair.degree {
        join(near, pair.lower, pair.higher, pair.degree);
        join(near, pair.higher, pair.lower, pair.degree);
    }
}

// Gathers the sets of the symbols of the heading, in a list in which none is gathered yet. One look at each pair serves both its symbols.
pub fn near_sets(table: SoundTable, cut: u16, heading: &[u16], near: &mut [u64])
    requires cut_in_range { (0 < cut) × (cut ≤ 1000) }
    requires by_index { (i : ℕ) → i < length heading.now → get_or heading.now i 0 < (table_of table).size }
    requires fresh { Fresh (table_of table) near.old }
    ensures { NearSets (table_of table.entry) cut heading.now near.new }
{
    open_sets(heading, near);
    for k in 0..table.pairs {
        join_pair(near, table.pair(k as usize), cut);
    }
}
