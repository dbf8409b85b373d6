// The calls that take terms.
use crate::buffers::ask_match;
use crate::input::{Header, LONGEST, OnTerms, read_numbers, values_of};
use crate::say;
use headings::{degree_of_headings, nearer, subterm};

pub fn ask(rt: HostRuntime, which: OnTerms, header: Header, table: &[u8], first: &[u8]) {
    let mut room = [0u16; LONGEST];
    let first = values_of(first.as_chunks().0, &mut room, u16::from_le_bytes);
    let mut more = [0u16; LONGEST];
    let second = read_numbers(rt, &mut more, header.second);
    match which {
        OnTerms::Degree => say::degree(rt, degree_of_headings(table, first, second)),
        OnTerms::Subterm => {
            say::nodes(rt, " part ", subterm(table, first, header.asked.x as usize))
        }
        OnTerms::Nearer => ask_nearer(rt, header.third, table, first, second),
        OnTerms::Match => ask_match(rt, header.asked, table, first, second),
    }
}

// The one call that takes three lists.
fn ask_nearer(rt: HostRuntime, third: u16, table: &[u8], heading: &[u16], one: &[u16]) {
    let mut room = [0u16; LONGEST];
    let two = read_numbers(rt, &mut room, third);
    say::nodes(rt, " nearer ", nearer(table, heading, one, two))
}
