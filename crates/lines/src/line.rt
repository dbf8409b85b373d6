// The answer's text, line by line.
ghost use Rattle.std.specs.Prelude.{◌≡◌, [], ◌∷◌, cond, Some, ◌+◌, ◌*◌, ◌≤◌, ◌<◌, eqb, length};
ghost use Rattle.meaning.specs.Limits.{set_words_lem, variable_count};
ghost use Rattle.meaning.specs.Buffers.{first_position_lem, position_count_lem, own_lowest_lem, own_highest_lem};
ghost use Rattle.meaning.specs.Program.{line};
ghost use Rattle.text.specs.Texts.{PutBy, numeral};
ghost use Rattle.lines.specs.Lines.{line_room, outcome_line, variable_line, symbols_line, seek_from, after_outcome_lem, after_position_lem, OnLine, LineBy};

use crate::answer::Answer;
use refusal::{Degrees, Refusal};
use sets::SymbolSet;
use text::Text;

// Which line comes next.
#[derive(Clone, Copy)]
pub enum Cursor {
    First,
    // a variable's own line
    Variable(u16),
    // the line of one of its positions, counted from 0
    Position(u16, u16),
}

// How many variables there are, and how many numbers a variable's span has.
const VARIABLES: u16 = 32;

const SPAN: usize = 4;

// Room for any line: the longest has every symbol that a set has room for.
pub const LINE_ROOM: usize = 8 * SymbolSet::ROOM as usize;

// Where a variable's positions begin, how many they are, and its own lowest and highest degree.
#[derive(Clone, Copy)]
struct Span {
    first: u16,
    positions: u16,
    lowest: u16,
    highest: u16,
}

fn span_at(answer: Answer, v: u16) -> Span
    requires { v < variable_count }
    ensures first { result.first ≡ first_position_lem answer.entry.spans.now v }
    ensures positions { result.positions ≡ position_count_lem answer.entry.spans.now v }
    ensures lowest { result.lowest ≡ own_lowest_lem answer.entry.spans.now v }
    ensures highest { result.highest ≡ own_highest_lem answer.entry.spans.now v }
{
    let at = SPAN * v as usize;
    Span {
        first: answer.spans[at],
        positions: answer.spans[at + 1],
        lowest: answer.spans[at + 2],
        highest: answer.spans[at + 3],
    }
}

// ---- from line to line

// The own line of the next variable that has positions, from `first` on.
fn seek(answer: Answer, first: u16) -> Option<Cursor>
    requires { first ≤ variable_count }
    ensures { result ≡ seek_from answer.entry.spans.now first }
{
    for v in first..VARIABLES {
        if span_at(answer, v).positions > 0 {
            return Some(Cursor::Variable(v));
        }
    }
    None
}

fn after_outcome(answer: Answer) -> Option<Cursor>
    ensures { result ≡ after_outcome_lem answer.entry.outcome answer.entry.spans.now }
{
    match answer.outcome {
        Ok(_) => seek(answer, 0),
        Err(_) => None,
    }
}

fn after_position(answer: Answer, v: u16, k: u16) -> Option<Cursor>
    requires { (v < variable_count) × (k < position_count_lem answer.spans.now v) }
    ensures { result ≡ after_position_lem answer.entry.spans.now v k }
{
    let positions = span_at(answer, v).positions;
    if k + 1 < positions {
        Some(Cursor::Position(v, k + 1))
    } else {
        seek(answer, v + 1)
    }
}

// ---- one line

// Two numbers, and the end of the line.
fn put_numbers(text: &mut Text, first: u16, second: u16)
    requires { text.old.used + 12 ≤ length text.old.buffer.now }
    ensures { PutBy text.old (line (numeral first ∷ numeral second ∷ [])) text.new }
{
    text.put_number(first);
    text.put_byte(b' ');
    text.put_number(second);
    text.put_byte(b'\n');
}

// A word and two numbers.
fn put_fields(text: &mut Text, word: &[u8], first: u16, second: u16)
    requires { text.old.used + length word.now + 13 ≤ length text.old.buffer.now }
    ensures { PutBy text.old (line (word.now ∷ numeral first ∷ numeral second ∷ [])) text.new }
{
    text.put_text(word);
    text.put_byte(b' ');
    put_numbers(text, first, second);
}

fn put_outcome(text: &mut Text, outcome: Result<Degrees, Refusal>)
    requires { text.old.used + line_room ≤ length text.old.buffer.now }
    ensures { PutBy text.old (outcome_line outcome) text.new }
{
    match outcome {
        Ok(degrees) => put_fields(text, b"match", degrees.lowest, degrees.highest),
        Err(why) => put_fields(text, b"refused", why.number(), why.place()),
    }
}

// A variable's own line: its number, how many positions it has, and its own lowest and highest degree.
fn put_variable(text: &mut Text, answer: Answer, v: u16)
    requires { (text.old.used + line_room ≤ length text.old.buffer.now) × (v < variable_count) }
    ensures { PutBy text.old (variable_line answer.entry.spans.now v) text.new }
{
    let span = span_at(answer, v);
    text.put_byte(b'x');
    text.put_number(v);
    text.put_byte(b' ');
    text.put_number(span.positions);
    text.put_byte(b' ');
    put_numbers(text, span.lowest, span.highest);
}

// A number, with a space before it unless the line starts here.
fn put_field(text: &mut Text, start: usize, n: u16)
    requires { text.old.used + 6 ≤ length text.old.buffer.now }
    ensures { PutBy text.old (cond (eqb text.old.used start) (numeral n) (32 ∷ numeral n)) text.new × (text.new.used ≤ text.old.used + 6) }
{
    if text.used != start {
        text.put_byte(b' ');
    }
    text.put_number(n);
}

// The symbols at a position, rising.
fn put_symbols(text: &mut Text, sets: &[u64], position: usize)
    requires { (text.old.used + line_room ≤ length text.old.buffer.now) × (set_words_lem * (position + 1) ≤ length sets.now) }
    ensures { PutBy text.old (symbols_line sets.now position) text.new }
{
    let set = SymbolSet::read(sets, SymbolSet::WORDS * position);
    let start = text.used;
    for k in set.members(SymbolSet::ROOM) {
        put_field(text, start, k);
    }
    text.put_byte(b'\n');
}

// Puts the line at the cursor, and says which comes next.
pub fn next_line(answer: Answer, cursor: Cursor, text: &mut Text) -> Option<Cursor>
    requires { OnLine answer.spans.now (Some cursor) × (text.old.used + line_room ≤ length text.old.buffer.now) }
    ensures { LineBy answer.entry.outcome answer.entry.spans.now answer.entry.sets.now cursor text.old result text.new }
{
    match cursor {
        Cursor::First => {
            put_outcome(text, answer.outcome);
            after_outcome(answer)
        }
        Cursor::Variable(v) => {
            put_variable(text, answer, v);
            Some(Cursor::Position(v, 0))
        }
        Cursor::Position(v, k) => {
            let position = span_at(answer, v).first as usize + k as usize;
            put_symbols(text, answer.sets, position);
            after_position(answer, v, k)
        }
    }
}
