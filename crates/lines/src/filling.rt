// The answer's text in pieces, as large as a buffer has room for.
ghost use Rattle.lines.specs.Lines.{OnLine};
ghost use Rattle.lines.specs.Filling.{FilledBy};

use crate::answer::Answer;
use crate::line::{Cursor, LINE_ROOM, next_line};
use text::Text;

// Puts the lines from the cursor on behind each other for as long as there is room for any line, and says which comes next; none at the text's end.
#[tactic(auto, using(crate::proofs::Turns::begun_none))]
pub fn fill(answer: Answer, first: Option<Cursor>, text: &mut Text) -> Option<Cursor>
    requires { OnLine answer.spans.now first }
    ensures { FilledBy answer.entry.outcome answer.entry.spans.now answer.entry.sets.now first text.old result text.new }
{
    let mut next = first;
    while let Some(cursor) = next {
        if text.room() < LINE_ROOM {
            break;
        }
        next = next_line(answer, cursor, text);
    }
    next
}
