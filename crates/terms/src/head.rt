// How many arguments follow a node, where it may stand in a term.
ghost use Rattle.std.specs.Prelude.{◌≡◌};
ghost use Rattle.meaning.specs.File.{table_in};
ghost use Rattle.terms.specs.Heads.{following, takes_in};

use crate::kind::{Kind, kind_of};
use table::sound_table::SoundTable;

// How many arguments follow a node as the head of a term; none where it may not stand in one.
#[tactic(auto, unfolding(crate::specs::Kinds::kind_of, crate::specs::Heads::following))]
pub fn head_of(table: SoundTable, variables: bool, node: u16) -> Option<u8>
    ensures { takes_in result ≡ following (table_in table.entry.file.now) variables node }
{
    match kind_of(table.symbols, node) {
        Kind::Symbol(symbol) => Some(table.arity(symbol)),
        Kind::Variable(_) => if variables { Some(0) } else { None },
        Kind::Neither => None,
    }
}
