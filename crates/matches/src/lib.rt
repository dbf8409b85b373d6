// The match. It takes any bytes, any lists and any cut; its answer, and what it leaves in both buffers, are fixed
// by its promise in specs/.
#![tactic(auto)]

mod memory;

ghost use Rattle.std.specs.Prelude.{◌≡◌, not, ◌≤◌, length, IfOk};
ghost use Rattle.meaning.specs.Refusals.{row, at0, first, row5, row8};
ghost use Rattle.sound.specs.Found.{found};
ghost use Rattle.matches.specs.Matching.{MatchHeading, asked_rows};

use crate::memory::search_sound;
use refusal::{Degrees, Refusal};
use sets::SymbolSet;
use sound::check;
use table::sound_table::SoundTable;
use terms::asked::Asked;
use terms::reading::read;

// How many numbers the spans of all variables have.
const ALL_SPANS: usize = 128;

// The lowest and the highest degree of the terms that match, with what may stand for each variable in the two buffers; or why there is none.
pub fn match_heading(
    table: &[u8],
    pattern: &[u16],
    heading: &[u16],
    cut: u16,
    spans: &mut [u16],
    sets: &mut [u64],
) -> Result<Degrees, Refusal>
    ensures { MatchHeading table.now pattern.now heading.now cut spans.old sets.old result spans.new sets.new }
{
    let table = check(table)?;
    let asked = check_asked(table, pattern, heading, cut, spans, sets)?;
    search_sound(asked, spans, sets)
}

// What is asked of a sound table, or else the first of the refusals 5 to 8.
fn check_asked<'a>(
    table: SoundTable<'a>,
    pattern: &'a [u16],
    heading: &'a [u16],
    cut: u16,
    spans: &[u16],
    sets: &[u64],
) -> Result<Asked<'a>, Refusal>
    ensures checked { found result ≡ first (asked_rows table.entry.file.now pattern.entry.now heading.entry.now cut spans.now sets.now) }
    ensures table { IfOk result (λ asked. asked.table.file.now ≡ table.entry.file.now) }
    ensures lists { IfOk result (λ asked. (asked.pattern.now ≡ pattern.entry.now) × (asked.heading.now ≡ heading.entry.now)) }
    ensures cut { IfOk result (λ asked. asked.cut ≡ cut) }
{
    if !is_cut(cut) {
        return Err(Refusal::Cut);
    }
    read(table, true, pattern).map_err(Refusal::Pattern)?;
    read(table, false, heading).map_err(Refusal::Heading)?;
    if !has_room(heading, spans, sets) {
        return Err(Refusal::Room);
    }
    Ok(Asked {
        table,
        pattern,
        heading,
        cut,
    })
}

// Whether the cut is a degree above 0.
fn is_cut(cut: u16) -> bool
    ensures { row5 cut ≡ row 5 (at0 (not result)) }
{
    (1..=1000).contains(&cut)
}

// Whether there is room for the span of every variable, and for a set at each node of the heading.
fn has_room(heading: &[u16], spans: &[u16], sets: &[u64]) -> bool
    requires { length heading.now ≤ 1024 }
    ensures { row8 heading.now spans.now sets.now ≡ row 8 (at0 (not result)) }
{
    spans.len() >= ALL_SPANS && SymbolSet::WORDS * heading.len() <= sets.len()
}
