// The calls on a table.
ghost use Rattle.capi.specs.Tables.{ShxTable, ShxSymbolDegree, ShxArity, ShxPair};

use crate::answer::{note, refused};
use tables::{arity_of, is_table, pair_of, symbol_degree};

// Whether the bytes are a table.
#[unsafe(no_mangle)]
pub extern "C" fn shx_table(table: &[u8]) -> u32
    ensures { ShxTable table.now result }
{
    match is_table(table) {
        Ok(()) => 0,
        Err(why) => refused(why),
    }
}

// How near two symbols are.
#[unsafe(no_mangle)]
pub extern "C" fn shx_symbol_degree(table: &[u8], a: u16, b: u16, degree: &mut u16) -> u32
    ensures { ShxSymbolDegree table.now a b degree.old result degree.new }
{
    note(symbol_degree(table, a, b), degree)
}

// How many arguments a symbol takes.
#[unsafe(no_mangle)]
pub extern "C" fn shx_arity(table: &[u8], symbol: u16, arity: &mut u8) -> u32
    ensures { ShxArity table.now symbol arity.old result arity.new }
{
    note(arity_of(table, symbol), arity)
}

// The pair that stands at an index of the table's list.
#[unsafe(no_mangle)]
pub extern "C" fn shx_pair(
    table: &[u8],
    index: usize,
    lower: &mut u16,
    higher: &mut u16,
    degree: &mut u16,
) -> u32
    ensures { ShxPair table.now index lower.old higher.old degree.old result lower.new higher.new degree.new }
{
    match pair_of(table, index) {
        Ok(pair) => {
            *lower = pair.lower;
            *higher = pair.higher;
            *degree = pair.degree;
            0
        }
        Err(why) => refused(why),
    }
}
