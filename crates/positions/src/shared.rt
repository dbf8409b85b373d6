// The symbols that may stand at a position for the variable: those near enough to all that stand there.
ghost use Rattle.std.specs.Prelude.{◌≡◌, false, List, ℕ, eqb, Option, MatchOption, IfSome};
ghost use Rattle.meaning.specs.Buffers.{member};
ghost use Rattle.near.specs.Near.{Kept};
ghost use Rattle.positions.specs.Position.{KeptOf, SharedBy};
ghost use Rattle.positions.specs.Looked.{words_of};

use crate::faced::Faced;
use near::{lowest_of, set_of};
use sets::SymbolSet;

#[derive(Clone, Copy)]
pub struct Shared {
    pub set: SymbolSet,
    // no symbol of the set has a lower degree with one that stands there
    pub floor: u16,
}

// No symbol at all.
fn none_shared() -> Shared
    ensures { (k : ℕ) → member result.set.words k ≡ false }
{
    Shared {
        set: SymbolSet::empty(),
        floor: 1000,
    }
}

// The symbols near to all of these, of which there is one at least, over a table of so many symbols.
fn shared_by(near: &[u64], symbols: u16, faced: SymbolSet) -> Shared
    requires { KeptOf near.now symbols faced.words }
    ensures { SharedBy near.now symbols faced.words result.set.words result.floor }
{
    let mut others = faced.members(symbols);
    let Some(first) = others.next() else {
        return none_shared();
    };
    let mut set = set_of(near, first);
    let mut floor = lowest_of(near, first);
    for h in others {
        set = set.intersect(set_of(near, h));
        floor = floor.min(lowest_of(near, h));
    }
    Shared { set, floor }
}

// The symbols near to one that stands there alone.
fn shared_alone(near: &[u64], first: u16) -> Shared
    requires { Kept near.now first }
    ensures { (symbols : ℕ) (faced : List ℕ) → ((h : ℕ) → member faced h ≡ eqb h first) → SharedBy near.now symbols faced result.set.words result.floor }
{
    Shared {
        set: set_of(near, first),
        floor: lowest_of(near, first),
    }
}

// The same of what stands at a position: nothing is near where a subterm has no symbol.
pub fn shared_at(near: &[u64], symbols: u16, faced: Option<Faced>) -> Shared
    requires { IfSome faced (λ there. KeptOf near.now symbols (words_of there)) }
    ensures { MatchOption faced
        ((k : ℕ) → member result.set.words k ≡ false)
        (λ there. SharedBy near.now symbols (words_of there) result.set.words result.floor) }
{
    match faced {
        None => none_shared(),
        Some(Faced::Alone(symbol)) => shared_alone(near, symbol),
        Some(Faced::Several(there)) => shared_by(near, symbols, there),
    }
}
