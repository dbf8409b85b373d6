// The calls, by the kind of case.
use crate::input::{Header, Kind};
use crate::saves::ask_widen;
use crate::writes::ask_write;
use crate::{on_records, on_terms, say};
use tables::{arity_of, is_table, pair_of, symbol_degree};

pub fn ask(rt: HostRuntime, kind: Kind, header: Header, table: &[u8], first: &[u8]) {
    let asked = header.asked;
    match kind {
        Kind::SymbolDegree => say::degree(rt, symbol_degree(table, asked.x, asked.y)),
        Kind::Table => say::table(rt, is_table(table)),
        Kind::Arity => say::arity(rt, arity_of(table, asked.x)),
        Kind::Pair => say::pair(
            rt,
            pair_of(table, usize::from(asked.x) + usize::from(asked.y)),
        ),
        Kind::Write => ask_write(rt, asked.x, table, first),
        Kind::Widen => ask_widen(rt, asked.x, first),
        Kind::Record => on_records::ask(rt, header, table, first),
        Kind::Terms(which) => on_terms::ask(rt, which, header, table, first),
    }
}
