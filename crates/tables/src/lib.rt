// What can be asked of a table: whether bytes are one, the degree of two symbol numbers, the arity of a symbol and the pair at an index, read
// back; and the table writer. Every call takes any bytes and any lists; its answer, and what it leaves in lent memory, are fixed by its
// promise in specs/.
#![tactic(auto)]

pub mod writing;

ghost use Rattle.tables.specs.Tables.{IsTable, SymbolDegree, ArityOf, PairAt};

use degrees::degree;
use refusal::Refusal;
use sound::check;
use table::read::Pair;

// Whether the bytes are a table.
pub fn is_table(table: &[u8]) -> Result<(), Refusal>
    ensures { IsTable table.now result }
{
    check(table)?;
    Ok(())
}

// How near two symbols are; where a number is none, which of the two.
#[tactic(auto, using(crate::proofs::Tables::degree_refused))]
pub fn symbol_degree(table: &[u8], a: u16, b: u16) -> Result<u16, Refusal>
    ensures { SymbolDegree table.now a b result }
{
    let table = check(table)?; // the table's own fault comes first
    if a >= table.symbols {
        return Err(Refusal::NoSymbol(0));
    }
    if b >= table.symbols {
        return Err(Refusal::NoSymbol(1));
    }
    Ok(degree(table, a, b))
}

// How many arguments a symbol takes.
pub fn arity_of(table: &[u8], symbol: u16) -> Result<u8, Refusal>
    ensures { ArityOf table.now symbol result }
{
    let table = check(table)?;
    if symbol >= table.symbols {
        return Err(Refusal::Absent);
    }
    Ok(table.arity(symbol))
}

// The pair that stands at an index of the table's list.
pub fn pair_of(table: &[u8], index: usize) -> Result<Pair, Refusal>
    ensures { PairAt table.now index result }
{
    let table = check(table)?;
    if index >= table.pairs as usize {
        return Err(Refusal::Absent);
    }
    Ok(table.pair(index))
}
