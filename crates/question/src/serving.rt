// Questions answered, behind what is still to be written.
ghost use Rattle.std.specs.Prelude.{◌++◌, ◌≤◌, length};
ghost use Rattle.meaning.specs.Program.{output};
ghost use Rattle.shape.specs.Rooms.{room_for, most_room};
ghost use Rattle.lines.specs.Lines.{line_room};
ghost use Rattle.lines.specs.Lengths.{most_sets};
ghost use Rattle.output.specs.Pendings.{Said};
ghost use Rattle.output.specs.Titles.{title_text};
ghost use Rattle.question.specs.Answers.{ServedBy};

use crate::answer::answer;
use lines::answer::Answer;
use output::pending::{Failed, Pending, put_answer};
use output::say::say_title;
use shape::room::room_for;

// Puts the answer to a question behind what stands in the buffer, in sets of their own size.
fn serve_in(
    rt: HostRuntime,
    question: &[u8],
    sets: &mut [u64],
    out: &mut [u8],
    used: usize,
) -> Result<Pending, Failed>
    requires question_in_bounds { (room_for question.now ≤ length sets.old) × (length sets.old ≤ most_sets) }
    requires used_in_bounds { (used ≤ length out.old) × (line_room ≤ length out.old) }
    ensures { ServedBy question.now out.old used result out.new }
{
    let mut spans = [0u16; 128];
    let outcome = answer(question, &mut spans, sets);
    let answer = Answer {
        outcome,
        spans: &spans,
        sets,
    };
    put_answer(rt, answer, out, used)
}

// Puts the answer to a question behind what stands in the buffer. Of the sets no more is used than the question's heading has nodes for.
pub fn serve(
    rt: HostRuntime,
    question: &[u8],
    sets: &mut [u64],
    out: &mut [u8],
    used: usize,
) -> Result<Pending, Failed>
    requires { (most_room ≤ length sets.old) × (used ≤ length out.old) × (line_room ≤ length out.old) }
    ensures { ServedBy question.now out.old used result out.new }
{
    let room = room_for(question);
    serve_in(rt, question, &mut sets[..room], out, used)
}

// The line with the question's number, and then its answer.
pub fn say_answer(
    rt: HostRuntime,
    k: u64,
    question: &[u8],
    sets: &mut [u64],
    out: &mut [u8],
    used: usize,
) -> Result<Pending, Failed>
    requires { (most_room ≤ length sets.old) × (used ≤ length out.old) × (line_room ≤ length out.old) }
    ensures { Said out.old used (title_text k ++ output question.now) result out.new }
{
    let title = say_title(rt, k, out, used)?;
    let answer = serve(rt, question, sets, out, title.standing)?;
    Ok(answer.with_written(title.written))
}
