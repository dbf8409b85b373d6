// The symbols that stand at a position of the subterms that face a variable.
ghost use Rattle.std.specs.Prelude.{ℕ, ◌<◌, length, get_or};
ghost use Rattle.meaning.specs.Limits.{set_room};
ghost use Rattle.facing.specs.Notes.{note_at};
ghost use Rattle.positions.specs.Position.{Within};
ghost use Rattle.positions.specs.Looked.{LookedAt};

use facing::notes::Note;
use sets::{SymbolSet, insert};

#[derive(Clone, Copy)]
pub enum Faced {
    // the same symbol stands in all subterms
    Alone(u16),
    // each symbol once, however many subterms have it there
    Several(SymbolSet),
}

// What stands at position k, which the first of the subterms has; none where a subterm ends before it.
pub fn faced_at(heading: &[u16], notes: &[Note], k: usize) -> Option<Faced>
    requires within { Within heading.now notes.now × ((i : ℕ) → i < length heading.now → get_or heading.now i 0 < set_room) }
    requires notes_nonzero { (0 < length notes.now) × (k < (note_at notes.now 0).size) }
    ensures { LookedAt heading.now notes.now k result }
{
    let first = heading[notes[0].start as usize + k];
    let mut alone = true;
    let mut words = [0u64; SymbolSet::WORDS];
    for note in notes {
        if k >= note.size as usize {
            return None;
        }
        let symbol = heading[note.start as usize + k];
        insert(&mut words, symbol);
        if symbol != first {
            alone = false;
        }
    }
    if alone {
        return Some(Faced::Alone(first));
    }
    Some(Faced::Several(SymbolSet { words }))
}
