// What kind of node a number is.
ghost use Rattle.std.specs.Prelude.{◌≡◌, ◌≤◌};
ghost use Rattle.meaning.specs.Limits.{most_symbols};
ghost use Rattle.terms.specs.Kinds.{kind_of};

use sets::SymbolSet;

#[derive(Clone, Copy)]
pub enum Kind {
    Symbol(u16),
    // by its number, from 0
    Variable(u16),
    Neither,
}

// No table has a symbol above.
const LAST_SYMBOL: u16 = SymbolSet::ROOM - 1;
// The nodes that are variables, the first and the last.
pub const FIRST_VARIABLE: u16 = 32768;

const LAST_VARIABLE: u16 = FIRST_VARIABLE + 31;

// The kind of a node over a table of so many symbols.
#[tactic(auto, unfolding(crate::specs::Kinds::kind_of))]
pub fn kind_of(symbols: u16, node: u16) -> Kind
    requires { symbols ≤ most_symbols }
    ensures { result ≡ kind_of symbols node }
{
    match node {
        0..=LAST_SYMBOL => if node < symbols {
            Kind::Symbol(node)
        } else {
            Kind::Neither
        },
        FIRST_VARIABLE..=LAST_VARIABLE => Kind::Variable(node - FIRST_VARIABLE),
        _ => Kind::Neither,
    }
}
