// What faces the pattern's nodes in the heading.
ghost use Rattle.std.specs.Prelude.{◌≡◌, true, false, ◌-◌, ◌<◌, ◌≤◌, length};
ghost use Rattle.theory.specs.Read.{walk, ends, reading, whole};
ghost use Rattle.theory.specs.Stands.{put_note_lem};
ghost use Rattle.meaning.specs.File.{table_in};
ghost use Rattle.degrees.specs.Rows.{Rows, RowsLaid};
ghost use Rattle.terms.specs.Ends.{EndsIn};
ghost use Rattle.facing.specs.Faced.{FacedBy};
ghost use Rattle.facing.specs.Notes.{numbers_of};

use crate::notes::Note;
use degrees::rows::{degree_in_row, lay_where_worth};
use table::sound_table::SoundTable;
use terms::kind::{Kind, kind_of};
use terms::walk::end_from;

// A clash before this node of the pattern is an early one, and does not pay for rows.
const EARLY: usize = 8;

// Notes the subterm of the heading that begins at this index, as what faces node i of the pattern; answers where it ends.
fn note_subterm(
    table: SoundTable,
    heading: &[u16],
    at: usize,
    notes: &mut [Note],
    i: usize,
) -> usize
    requires stands { EndsIn (table_in table.file.now) true heading.now at × (length heading.now ≤ 1024) }
    requires room { i < length notes.old }
    ensures at_value { walk (table_in table.entry.file.now) true heading.now 64 at ≡ ends result }
    ensures notes_after { numbers_of notes.new ≡ put_note_lem (numbers_of notes.old) i at (result - at) }
{
    let end = end_from(table, heading, at);
    let start = at as u16;
    let size = (end - at) as u16;
    notes[i] = Note { start, size };
    end
}

// Goes along the pattern and the heading together, and notes where the subterm that faces each variable's node stands. Where no symbol clashes it gives
// the least degree of one with the one that faces it; else the pattern's node at which one is not near enough.
pub fn face(
    table: SoundTable,
    pattern: &[u16],
    heading: &[u16],
    cut: u16,
    rows: &mut [u16],
    notes: &mut [Note],
) -> Result<u16, usize>
    requires rows { Rows table.file.now rows.old }
    requires pattern_reads { reading (table_in table.file.now) true pattern.now ≡ whole }
    requires heading_reads { reading (table_in table.file.now) false heading.now ≡ whole }
    requires room { (0 < cut) × (length pattern.now ≤ length notes.old) }
    ensures faced_by { FacedBy table.entry.file.now cut pattern.now heading.now result (numbers_of notes.new) }
    ensures rows_laid { RowsLaid table.entry.file.now rows.old rows.new }
{
    let mut least: u16 = 1000;
    // i goes along the pattern, and this along the heading
    let mut at: usize = 0;
    for (i, node) in pattern.iter().enumerate() {
        if i == EARLY {
            lay_where_worth(table, rows, pattern.len());
        }
        match kind_of(table.symbols, *node) {
            Kind::Symbol(symbol) => {
                let degree = degree_in_row(table, rows, symbol, heading[at]);
                if degree < cut {
                    return Err(i);
                }
                least = least.min(degree);
                at += 1;
            }
            Kind::Variable(_) => at = note_subterm(table, heading, at, notes, i),
            // never so: a pattern has no other node
            Kind::Neither => {}
        }
    }
    Ok(least)
}
