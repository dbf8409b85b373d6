// The match of sound lists at a sound cut, in buffers that have room.
ghost use Rattle.std.specs.Prelude.{◌≡◌, ◌*◌, ◌≤◌, length, IfOk, IfErr};
ghost use Rattle.meaning.specs.Limits.{set_words_lem};
ghost use Rattle.table.specs.Sound.{table_of};
ghost use Rattle.meaning.specs.Calls.{match_call};
ghost use Rattle.meaning.specs.Demands.{Accepted};
ghost use Rattle.near.specs.Near.{Fresh};
ghost use Rattle.wide.specs.Index.{index_room};
ghost use Rattle.refusal.specs.Outcomes.{result_of};
ghost use Rattle.matching.specs.Outcomes.{emptied, kept};

use crate::clear::clear_words;
use crate::gathering::gather_near;
use facing::faces::face;
use facing::notes::Note;
use packing::{Search, pack};
use refusal::{Degrees, Refusal};
use sets::SymbolSet;
use terms::asked::Asked;
use wide::links::open_index;

// Packs the variables of the pattern, or finds why there is no match: symbols that clash, or a variable without a form.
fn pack_matched(
    asked: Asked,
    near: &mut [u64],
    index: &mut [u16],
    notes: &mut [Note],
    own: &mut [Note],
    spans: &mut [u16],
    sets: &mut [u64],
) -> Result<Search, Refusal>
    requires accepted { Accepted asked.table.file.now asked.pattern.now asked.heading.now asked.cut spans.old sets.old }
    requires fresh { Fresh (table_of asked.table) near.old × (index_room asked.table.file.now ≤ length index.old) }
    requires pattern_in_bounds { (length asked.pattern.now ≤ length notes.old) × (length asked.pattern.now ≤ length own.old) }
    ensures inside { IfOk result (λ found. set_words_lem * found.packed ≤ length sets.old) }
    ensures matched { IfOk result (λ found. kept found spans.new sets.new ≡ match_call asked.entry.table.file.now asked.entry.pattern.now asked.entry.heading.now asked.entry.cut spans.old sets.old) }
    ensures refused { IfErr result (λ why. emptied why spans.old sets.old ≡ match_call asked.entry.table.file.now asked.entry.pattern.now asked.entry.heading.now asked.entry.cut spans.old sets.old) }
{
    open_index(asked.table, index);
    let least = match face(
        asked.table,
        asked.pattern,
        asked.heading,
        asked.cut,
        index,
        notes,
    ) {
        Ok(least) => least,
        Err(node) => return Err(Refusal::Clash(node as u16)),
    };
    gather_near(asked.table, asked.pattern, asked.heading, asked.cut, near);
    spans.fill(0);
    let found = pack(asked, near, index, notes, own, least, spans, sets);
    match found.lacking {
        Some(v) => Err(Refusal::NoForm(v)),
        None => Ok(found),
    }
}

// The match. It is lent memory for near sets, for the index of the table's pairs, for notes of what faces the pattern's nodes, and for those of one
// variable at a time. A search that finds none leaves zeros in both buffers.
pub fn search(
    asked: Asked,
    near: &mut [u64],
    index: &mut [u16],
    notes: &mut [Note],
    own: &mut [Note],
    spans: &mut [u16],
    sets: &mut [u64],
) -> Result<Degrees, Refusal>
    requires accepted { Accepted asked.table.file.now asked.pattern.now asked.heading.now asked.cut spans.old sets.old }
    requires fresh { Fresh (table_of asked.table) near.old × (index_room asked.table.file.now ≤ length index.old) }
    requires pattern_in_bounds { (length asked.pattern.now ≤ length notes.old) × (length asked.pattern.now ≤ length own.old) }
    ensures { result_of result spans.new sets.new ≡ match_call asked.entry.table.file.now asked.entry.pattern.now asked.entry.heading.now asked.entry.cut spans.old sets.old }
{
    match pack_matched(asked, near, index, notes, own, spans, sets) {
        Ok(found) => {
            clear_words(sets, SymbolSet::WORDS * found.packed);
            Ok(found.degrees)
        }
        Err(why) => {
            spans.fill(0);
            clear_words(sets, 0);
            Err(why)
        }
    }
}
