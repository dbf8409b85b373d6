// All positions of one variable.
#![tactic(auto)]

ghost use Rattle.std.specs.Prelude.{◌≡◌, ℕ, ◌*◌, ◌<◌, ◌≤◌, length, get_or};
ghost use Rattle.theory.specs.Table.{Table};
ghost use Rattle.meaning.specs.Limits.{set_words_lem};
ghost use Rattle.table.specs.Sound.{table_of};
ghost use Rattle.wide.specs.Index.{Index};
ghost use Rattle.facing.specs.Notes.{note_at};
ghost use Rattle.positions.specs.Position.{Within, Covers};
ghost use Rattle.variable.specs.Variable.{PackedAlone, OwnNotes, VariablePacked};

use degrees::rows::lay_where_worth;
use facing::notes::Note;
use near::{lowest_of, set_of};
use positions::faced::faced_at;
use positions::rated::degrees_at;
use positions::shared::shared_at;
use refusal::Degrees;
use sets::SymbolSet;
use table::sound_table::SoundTable;

#[derive(Clone, Copy)]
pub struct Found {
    // some term may stand for the variable
    pub formed: bool,
    // the least over its positions of the lowest and of the highest degree there
    pub degrees: Degrees,
}

// Packs the sets of a variable that one term faces: at each position the near set of the symbol there, in which the symbol itself is.
fn pack_alone(near: &[u64], term: &[u16], sets: &mut [u64]) -> Found
    requires { Covers term.now near.now × (set_words_lem * length term.now ≤ length sets.old) }
    ensures { PackedAlone near.now term.now sets.old sets.new result }
{
    let mut lowest: u16 = 1000;
    for (k, symbol) in term.iter().enumerate() {
        set_of(near, *symbol).put(sets, SymbolSet::WORDS * k);
        lowest = lowest.min(lowest_of(near, *symbol));
    }
    let highest = 1000;
    Found {
        formed: true,
        degrees: Degrees { lowest, highest },
    }
}

// Packs the sets of a variable that has one note, by the part of the heading that the note tells of.
fn pack_one(near: &[u64], heading: &[u16], notes: &[Note], sets: &mut [u64]) -> Found
    requires one_note { (length notes.now ≡ 1) × Within heading.now notes.now × Covers heading.now near.now }
    requires notes_in_bounds { set_words_lem * (note_at notes.now 0).size ≤ length sets.old }
    ensures { (T : Table) → VariablePacked T near.now heading.now notes.now sets.old sets.new result }
{
    let note = &notes[0];
    let start = note.start as usize;
    let end = start + note.size as usize;
    pack_alone(near, &heading[start..end], sets)
}

// Packs the sets of a variable that several subterms face.
fn pack_shared(
    table: SoundTable,
    near: &[u64],
    index: &mut [u16],
    heading: &[u16],
    notes: &[Note],
    sets: &mut [u64],
) -> Found
    requires own_notes { Index table.file.now index.old × OwnNotes (table_of table) near.now heading.now notes.now }
    requires notes_in_bounds { set_words_lem * (note_at notes.now 0).size ≤ length sets.old }
    ensures index { Index table.entry.file.now index.new }
    ensures variable_packed { VariablePacked (table_of table.entry) near.now heading.now notes.now sets.old sets.new result }
{
    // the first subterm has as many nodes as the variable has positions
    let positions = notes[0].size as usize;
    lay_where_worth(table, index, heading.len());
    let mut formed = true;
    let mut degrees = Degrees {
        lowest: 1000,
        highest: 1000,
    };
    for k in 0..positions {
        let faced = faced_at(heading, notes, k);
        let shared = shared_at(near, table.symbols, faced);
        let set = shared.set;
        set.put(sets, SymbolSet::WORDS * k);
        if set.is_empty() {
            formed = false;
        }
        degrees = degrees_at(table, index, faced, shared, degrees);
    }
    Found { formed, degrees }
}

// Packs the sets of the variable whose notes these are, at the cut of the near sets.
pub fn pack_variable(
    table: SoundTable,
    near: &[u64],
    index: &mut [u16],
    heading: &[u16],
    notes: &[Note],
    sets: &mut [u64],
) -> Found
    requires own_notes { Index table.file.now index.old × OwnNotes (table_of table) near.now heading.now notes.now }
    requires notes_in_bounds { set_words_lem * (note_at notes.now 0).size ≤ length sets.old }
    ensures index { Index table.entry.file.now index.new }
    ensures variable_packed { VariablePacked (table_of table.entry) near.now heading.now notes.now sets.old sets.new result }
{
    if notes.len() == 1 {
        return pack_one(near, heading, notes, sets);
    }
    pack_shared(table, near, index, heading, notes, sets)
}
