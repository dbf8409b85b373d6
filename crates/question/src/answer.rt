// The answer to a question: what the match says of it.
ghost use Rattle.std.specs.Prelude.{◌≡◌, ◌*◌, ◌≤◌, length};
ghost use Rattle.meaning.specs.Limits.{variable_count, span_width};
ghost use Rattle.meaning.specs.Calls.{zeros};
ghost use Rattle.shape.specs.Shapes.{HeaderBy};
ghost use Rattle.shape.specs.Rooms.{room_for};
ghost use Rattle.question.specs.Answers.{AnsweredBy};

use matches::match_heading;
use refusal::{Degrees, Refusal};
use shape::nodes::copy_nodes;
use shape::parts::{Header, take_apart};
use shape::room::LONGEST;

// The answer to a question with this header.
fn answer_asked(
    input: &[u8],
    header: Header,
    spans: &mut [u16],
    sets: &mut [u64],
) -> Result<Degrees, Refusal>
    requires header_by { HeaderBy input.now header }
    requires spans_value { (spans.old ≡ zeros (span_width * variable_count)) × (room_for input.now ≤ length sets.old) }
    ensures { AnsweredBy input.now result spans.new sets.new }
{
    let mut pattern = [0u16; LONGEST];
    let mut heading = [0u16; LONGEST];
    let heading_at = 14 + 2 * header.pattern as usize;
    let table_at = heading_at + 2 * header.heading as usize;
    let m = copy_nodes(input, 14, header.pattern as usize, &mut pattern);
    let n = copy_nodes(input, heading_at, header.heading as usize, &mut heading);
    match_heading(
        &input[table_at..],
        &pattern[..m],
        &heading[..n],
        header.cut,
        spans,
        sets,
    )
}

// The answer to a question. The lines of its text are read from the outcome, the spans and the sets.
pub fn answer(input: &[u8], spans: &mut [u16], sets: &mut [u64]) -> Result<Degrees, Refusal>
    requires { (spans.old ≡ zeros (span_width * variable_count)) × (room_for input.now ≤ length sets.old) }
    ensures { AnsweredBy input.now result spans.new sets.new }
{
    let Some(header) = take_apart(input) else {
        return Err(Refusal::Misshapen);
    };
    answer_asked(input, header, spans, sets)
}
