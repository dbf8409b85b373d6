// The library for C: each export hands what it is lent to the function of its name in `capi`, and promises the same.
#![tactic(auto)]

ghost use Rattle.capi.specs.Marc.{ShxMarcHeading};
ghost use Rattle.capi.specs.Matching.{ShxMatch};
ghost use Rattle.capi.specs.Saving.{ShxWiden};
ghost use Rattle.capi.specs.Tables.{ShxTable, ShxSymbolDegree, ShxArity, ShxPair};
ghost use Rattle.capi.specs.Terms.{ShxHeadingDegree, ShxSubterm, ShxNearer};
ghost use Rattle.capi.specs.Writing.{ShxWriteTable};

use capi::{files, heading, saving, search, term, writing};
use table::read::Pair;

// Whether the bytes are a table.
#[unsafe(no_mangle)]
pub extern "C" fn shx_table(table: &[u8]) -> u32
    ensures { ShxTable table.now result }
{
    files::shx_table(table)
}

// How near two symbols are.
#[unsafe(no_mangle)]
pub extern "C" fn shx_symbol_degree(table: &[u8], a: u16, b: u16, degree: &mut u16) -> u32
    ensures { ShxSymbolDegree table.now a b degree.old result degree.new }
{
    files::shx_symbol_degree(table, a, b, degree)
}

// How many arguments a symbol takes.
#[unsafe(no_mangle)]
pub extern "C" fn shx_arity(table: &[u8], symbol: u16, arity: &mut u8) -> u32
    ensures { ShxArity table.now symbol arity.old result arity.new }
{
    files::shx_arity(table, symbol, arity)
}

// The pair that stands at an index of the table's list.
#[unsafe(no_mangle)]
pub extern "C" fn shx_pair(
    table: &[u8],
    index: usize,
    lower: &mut u16,
    higher: &mut u16,
    degree: &mut u16,
) -> u32
    ensures { ShxPair table.now index lower.old higher.old degree.old result lower.new higher.new degree.new }
{
    files::shx_pair(table, index, lower, higher, degree)
}

// How near two headings are.
#[unsafe(no_mangle)]
pub extern "C" fn shx_heading_degree(
    table: &[u8],
    first: &[u16],
    second: &[u16],
    degree: &mut u16,
) -> u32
    ensures { ShxHeadingDegree table.now first.now second.now degree.old result degree.new }
{
    term::shx_heading_degree(table, first, second, degree)
}

// How many nodes the subterm at an index has; 0 where there is none.
#[unsafe(no_mangle)]
pub extern "C" fn shx_subterm(table: &[u8], term: &[u16], index: usize) -> usize
    ensures { ShxSubterm table.now term.now index result }
{
    term::shx_subterm(table, term, index)
}

// Which candidate is nearer to the heading: 1 for the first, 2 for the second, 0 where something is refused.
#[unsafe(no_mangle)]
pub extern "C" fn shx_nearer(table: &[u8], heading: &[u16], first: &[u16], second: &[u16]) -> u8
    ensures { ShxNearer table.now heading.now first.now second.now result }
{
    term::shx_nearer(table, heading, first, second)
}

// The match, with its degrees; 0 and 0 where it is refused.
#[unsafe(no_mangle)]
pub extern "C" fn shx_match(
    table: &[u8],
    pattern: &[u16],
    heading: &[u16],
    cut: u16,
    spans: &mut [u16],
    sets: &mut [u64],
    lowest: &mut u16,
    highest: &mut u16,
) -> u32
    ensures { ShxMatch table.now pattern.now heading.now cut spans.old sets.old result spans.new sets.new lowest.new highest.new }
{
    search::shx_match(table, pattern, heading, cut, spans, sets, lowest, highest)
}

// The table file of these arities and pairs, written to the front of the output.
#[unsafe(no_mangle)]
pub extern "C" fn shx_write_table(
    arities: &[u8],
    pairs: &[Pair],
    output: &mut [u8],
    total: &mut usize,
) -> u32
    ensures { ShxWriteTable arities.now pairs.now output.old total.old result output.new total.new }
{
    writing::shx_write_table(arities, pairs, output, total)
}

// The sets of an answer that was saved when a set had four words, made sets of today at the front of the output.
#[unsafe(no_mangle)]
pub extern "C" fn shx_widen(words: &[u64], output: &mut [u64], written: &mut usize) -> u32
    ensures { ShxWiden words.now output.old written.old result output.new written.new }
{
    saving::shx_widen(words, output, written)
}

// The heading of an exchange record, by the strings that are known: the heading symbol, and the numbers of the name and the dates.
#[unsafe(no_mangle)]
pub extern "C" fn shx_marc_heading(
    bytes: &[u8],
    text: &[u8],
    ends: &[u32],
    numbers: &[u16],
    heading: u16,
    absent: u16,
    nodes: &mut [u16],
) -> u64
    ensures { ShxMarcHeading bytes.now text.now ends.now numbers.now heading absent nodes.old result nodes.new }
{
    heading::shx_marc_heading(bytes, text, ends, numbers, heading, absent, nodes)
}
