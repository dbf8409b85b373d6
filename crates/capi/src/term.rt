// The calls on terms.
ghost use Rattle.capi.specs.Terms.{ShxHeadingDegree, ShxSubterm, ShxNearer};

use crate::answer::note;
use headings::{Candidate, choose, degree_of_headings, subterm};

// How near two headings are.
#[unsafe(no_mangle)]
pub extern "C" fn shx_heading_degree(
    table: &[u8],
    first: &[u16],
    second: &[u16],
    degree: &mut u16,
) -> u32
    ensures { ShxHeadingDegree table.now first.now second.now degree.old result degree.new }
{
    note(degree_of_headings(table, first, second), degree)
}

// How many nodes the subterm at an index has; 0 where there is none.
#[unsafe(no_mangle)]
pub extern "C" fn shx_subterm(table: &[u8], term: &[u16], index: usize) -> usize
    ensures { ShxSubterm table.now term.now index result }
{
    subterm(table, term, index).len()
}

// Which candidate is nearer to the heading: 1 for the first, 2 for the second, 0 where something is refused.
#[unsafe(no_mangle)]
pub extern "C" fn shx_nearer(table: &[u8], heading: &[u16], first: &[u16], second: &[u16]) -> u8
    ensures { ShxNearer table.now heading.now first.now second.now result }
{
    match choose(table, heading, first, second) {
        None => 0,
        Some(Candidate::First) => 1,
        Some(Candidate::Second) => 2,
    }
}
