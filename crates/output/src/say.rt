// What is said of each question: a line with its number, and behind it why there is no answer.
ghost use Rattle.std.specs.Prelude.{[], ◌∷◌, ◌++◌, ◌+◌, ◌-◌, ◌≤◌, length};
ghost use Rattle.meaning.specs.Program.{line, refused_text};
ghost use Rattle.text.specs.Texts.{PutBy, long_numeral};
ghost use Rattle.lines.specs.Lines.{line_room};
ghost use Rattle.output.specs.Pendings.{Said, Roomy};
ghost use Rattle.output.specs.Titles.{title_text, cut_off_text, title_room};

use crate::pending::{Failed, Pending, put_answer, write_out};
use lines::answer::Answer;
use lines::line::LINE_ROOM;
use refusal::Refusal;
use text::Text;

// Writes the buffer out if it has no room for a line.
pub fn make_room(rt: HostRuntime, out: &[u8], used: usize) -> Result<Pending, Failed>
    requires { (used ≤ length out.now) × (line_room ≤ length out.now) }
    ensures { Said out.now used [] result out.now × Roomy (length out.now) line_room result }
{
    if out.len() - used >= LINE_ROOM {
        return Ok(Pending {
            written: 0,
            standing: used,
        });
    }
    write_out(rt, out, used)
}

// A line with a word and a number.
pub fn put_numbered(text: &mut Text, word: &[u8], k: u64)
    requires { text.old.used + length word.now + 22 ≤ length text.old.buffer.now }
    ensures { PutBy text.old (line (word.now ∷ long_numeral k ∷ [])) text.new }
{
    text.put_text(word);
    text.put_byte(b' ');
    text.put_long(k);
    text.put_byte(b'\n');
}

// The line with the question's number. Behind it there is still room for a short line.
pub fn say_title(rt: HostRuntime, k: u64, out: &mut [u8], used: usize) -> Result<Pending, Failed>
    requires { (used ≤ length out.old) × (line_room ≤ length out.old) }
    ensures { Said out.old used (title_text k) result out.new × Roomy (length out.old) (line_room - title_room) result }
{
    let room = make_room(rt, out, used)?;
    let mut text = Text {
        buffer: out,
        used: room.standing,
    };
    put_numbered(&mut text, b"question", k);
    Ok(Pending {
        written: room.written,
        standing: text.used,
    })
}

// What is said of a question that ends before its last byte.
pub fn say_cut_off(rt: HostRuntime, k: u64, out: &mut [u8], used: usize) -> Result<Pending, Failed>
    requires { (used ≤ length out.old) × (line_room ≤ length out.old) }
    ensures { Said out.old used (title_text k ++ cut_off_text) result out.new }
{
    let title = say_title(rt, k, out, used)?;
    let mut text = Text {
        buffer: out,
        used: title.standing,
    };
    text.put_text(b"cut off\n");
    Ok(Pending {
        written: title.written,
        standing: text.used,
    })
}

// What is said of a question that is too long to be read.
pub fn say_too_long(rt: HostRuntime, k: u64, out: &mut [u8], used: usize) -> Result<Pending, Failed>
    requires { (used ≤ length out.old) × (line_room ≤ length out.old) }
    ensures { Said out.old used (title_text k ++ refused_text 12 0) result out.new }
{
    let title = say_title(rt, k, out, used)?;
    let spans = [0; 128];
    // a refusal has no set to print
    let sets = [0; 1];
    let answer = Answer {
        outcome: Err(Refusal::Misshapen),
        spans: &spans,
        sets: &sets,
    };
    let refused = put_answer(rt, answer, out, title.standing)?;
    Ok(refused.with_written(title.written))
}
