// All variables of the pattern, packed.
#![tactic(auto)]

ghost use Rattle.std.specs.Prelude.{◌≡◌, [], ◌∷◌, ◌+◌, ◌*◌, ◌≤◌, length};
ghost use Rattle.theory.specs.Least.{least as leastOf};
ghost use Rattle.meaning.specs.Limits.{span_width};
ghost use Rattle.meaning.specs.File.{table_in};
ghost use Rattle.meaning.specs.Calls.{zeros, faces_in};
ghost use Rattle.meaning.specs.Search.{symbol_worth};
ghost use Rattle.meaning.specs.Over.{over};
ghost use Rattle.wide.specs.Index.{Index};
ghost use Rattle.facing.specs.Notes.{numbers_of};
ghost use Rattle.packing.specs.Pack.{PackableAt, Room, VariableNoted, PackedAt};

use facing::gather::gather;
use facing::notes::Note;
use refusal::Degrees;
use sets::SymbolSet;
use terms::asked::Asked;
use terms::kind::{Kind, kind_of};
use variable::{Found, pack_variable};

// What is noted of a variable.
#[derive(Clone, Copy)]
struct Span {
    // its first position, and how many it has
    first: u16,
    positions: u16,
    // its own degrees
    degrees: Degrees,
}

impl Span {
    // How many numbers it is written in.
    const WIDTH: usize = 4;

    // Writes it as that of variable v.
    fn put(self, spans: &mut [u16], v: u16)
        requires { span_width * (v + 1) ≤ length spans.old }
        ensures { spans.new ≡ over spans.old (span_width * v) (self.first ∷ self.positions ∷ self.degrees.lowest ∷ self.degrees.highest ∷ []) }
    {
        let at = Span::WIDTH * v as usize;
        let degrees = self.degrees;
        let numbers = [self.first, self.positions, degrees.lowest, degrees.highest];
        spans[at..at + Span::WIDTH].copy_from_slice(&numbers);
    }
}

#[derive(Clone, Copy)]
pub struct Search {
    // how many positions are packed
    pub packed: usize,
    // the least variable without a form
    pub lacking: Option<u16>,
    // the least of the symbols' degrees and of the variables' own, at worst and at best
    pub degrees: Degrees,
}

// Notes what came of variable v, which has so many positions: in its span, and beside what the variables before it brought.
fn note_variable(spans: &mut [u16], v: u16, positions: u16, search: Search, found: Found) -> Search
    requires { (span_width * (v + 1) ≤ length spans.old) × (search.packed + positions ≤ 1024) }
    ensures { VariableNoted v positions search found result spans.old spans.new }
{
    let span = Span {
        first: search.packed as u16,
        positions,
        degrees: found.degrees,
    };
    span.put(spans, v);
    let lacking = if found.formed {
        search.lacking
    } else {
        Some(search.lacking.unwrap_or(v).min(v))
    };
    let lowest = search.degrees.lowest.min(found.degrees.lowest);
    let highest = search.degrees.highest.min(found.degrees.highest);
    Search {
        packed: search.packed + positions as usize,
        lacking,
        degrees: Degrees { lowest, highest },
    }
}

// Packs every variable of the pattern, each where it is first met. `own` is lent for the notes of one variable at a time. The near sets may be of any
// cut, as long as nothing clashes at it; the cut that is asked is not looked at.
pub fn pack(
    asked: Asked,
    near: &[u64],
    index: &mut [u16],
    notes: &[Note],
    own: &mut [Note],
    least: u16,
    spans: &mut [u16],
    sets: &mut [u64],
) -> Search
    requires index { Index asked.table.file.now index.old × Room asked.pattern.now asked.heading.now notes.now own.old spans.old sets.old }
    requires least_value { least ≡ leastOf (symbol_worth (table_in asked.table.file.now)) (faces_in asked.table.file.now asked.pattern.now asked.heading.now) }
    requires spans_value { spans.old ≡ zeros (length spans.old) }
    requires packable_at { PackableAt asked.table.file.now asked.pattern.now asked.heading.now near.now (numbers_of notes.now) }
    ensures { PackedAt asked.entry.table.file.now asked.entry.pattern.now asked.entry.heading.now near.now (numbers_of notes.now) result spans.new sets.old sets.new }
{
    let table = asked.table;
    let mut search = Search {
        packed: 0,
        lacking: None,
        degrees: Degrees {
            lowest: least,
            highest: least,
        },
    };
    for node in asked.pattern {
        if let Kind::Variable(v) = kind_of(table.symbols, *node) {
            // a variable that was met before has a span, with one position at least
            if spans[Span::WIDTH * v as usize + 1] == 0 {
                let count = gather(asked.pattern, notes, v, own);
                let own = &own[..count];
                // the first subterm has as many nodes as the variable has positions
                let positions = own[0].size;
                let from = SymbolSet::WORDS * search.packed;
                let found = pack_variable(
                    table,
                    near,
                    index,
                    asked.heading,
                    own,
                    &mut sets[from..],
                );
                search = note_variable(spans, v, positions, search, found);
            }
        }
    }
    search
}
