// What can be asked of headings and terms: the degree of two headings, the subterm at an index, the nearer of two candidates. Every call takes
// any bytes and any lists; its answer is fixed by its promise in specs/.
#![tactic(auto)]

ghost use Rattle.std.specs.Prelude.{◌≡◌, is_some, IfSome};
ghost use Rattle.meaning.specs.Refusals.{first as first_of};
ghost use Rattle.meaning.specs.Calls.{subterm_rows, nearer_rows};
ghost use Rattle.headings.specs.Terms.{DegreeOfHeadings, Subterm, Nearer, Choose, accepted};

use refusal::Refusal;
use sound::check;
use table::sound_table::SoundTable;
use terms::degree::heading_degree;
use terms::reading::read;
use terms::walk::end_from;

// One of two candidates.
#[derive(Clone, Copy)]
pub enum Candidate {
    First,
    Second,
}

// How near two headings are. A fault in the first is told as a pattern's is.
pub fn degree_of_headings(table: &[u8], first: &[u16], second: &[u16]) -> Result<u16, Refusal>
    ensures { DegreeOfHeadings table.now first.now second.now result }
{
    let table = check(table)?;
    read(table, false, first).map_err(Refusal::Pattern)?;
    read(table, false, second).map_err(Refusal::Heading)?;
    Ok(heading_degree(table, first, second))
}

// The part of the list that is the subterm at an index; the empty part at its start where there is none.
pub fn subterm<'a>(table: &[u8], term: &'a [u16], index: usize) -> &'a [u16]
    ensures { Subterm table.now term.entry index result }
{
    let Some(table) = table_for_term(table, term) else {
        return &term[..0];
    };
    if index >= term.len() {
        return &term[..0];
    }
    let end = end_from(table, term, index);
    &term[index..end]
}

// The candidate that is nearer to the heading, the first where both are equally near; the empty part at the first's start where
// something is refused.
pub fn nearer<'a>(table: &[u8], heading: &[u16], first: &'a [u16], second: &'a [u16]) -> &'a [u16]
    ensures { Nearer table.now heading.now first.entry second.entry result }
{
    match choose(table, heading, first, second) {
        Some(Candidate::First) => first,
        Some(Candidate::Second) => second,
        None => &first[..0],
    }
}

// Which candidate is nearer, told without handing it back; none where something is refused.
pub fn choose(table: &[u8], heading: &[u16], first: &[u16], second: &[u16]) -> Option<Candidate>
    ensures { Choose table.now heading.now first.now second.now result }
{
    let Some(table) = table_for_headings(table, heading, first, second) else {
        return None;
    };
    if heading_degree(table, heading, first) < heading_degree(table, heading, second) {
        Some(Candidate::Second)
    } else {
        Some(Candidate::First)
    }
}

// The table, where neither it nor the term is refused.
fn table_for_term<'a>(table: &'a [u8], term: &[u16]) -> Option<SoundTable<'a>>
    ensures accepts { is_some result ≡ accepted (first_of (subterm_rows table.entry.now term.now)) }
    ensures same_file { IfSome result (λ sound. sound.file.now ≡ table.entry.now) }
{
    let table = check(table).ok()?;
    read(table, true, term).ok()?;
    Some(table)
}

// The table, where neither it nor one of the three headings is refused.
fn table_for_headings<'a>(
    table: &'a [u8],
    heading: &[u16],
    first: &[u16],
    second: &[u16],
) -> Option<SoundTable<'a>>
    ensures accepts { is_some result ≡ accepted (first_of (nearer_rows table.entry.now heading.now first.now second.now)) }
    ensures same_file { IfSome result (λ sound. sound.file.now ≡ table.entry.now) }
{
    let table = check(table).ok()?;
    read(table, false, heading).ok()?;
    read(table, false, first).ok()?;
    read(table, false, second).ok()?;
    Some(table)
}
