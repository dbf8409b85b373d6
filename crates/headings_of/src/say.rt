// What is said of each record: a line with its number, and then its heading or why it has none.
ghost use Rattle.std.specs.Prelude.{◌≡◌, [], ◌∷◌, map, ◌+◌, ◌≤◌, length};
ghost use Rattle.meaning.specs.Refusals.{number_of, place_of};
ghost use Rattle.meaning.specs.Program.{decimal, line, refused_word};
ghost use Rattle.marc.specs.Printed.{heading_word, long_decimal, answer_text};
ghost use Rattle.exchange.specs.Said.{told};
ghost use Rattle.known_strings.specs.Lent.{listed};
ghost use Rattle.text.specs.Texts.{PutBy};
ghost use Rattle.lines.specs.Lines.{line_room};
ghost use Rattle.output.specs.Pendings.{Said};
ghost use Rattle.headings_of.specs.Rooms.{record_room, answer_room};
ghost use Rattle.headings_of.specs.Texts.{record_text};

use crate::list::TestedList;
use exchange::{Fault, read_known};
use output::pending::{Failed, Pending};
use output::say::{make_room, put_numbered};
use text::Text;

// The line with the three nodes of a heading.
fn put_heading(text: &mut Text, nodes: &[u16])
    requires { (text.old.used + answer_room ≤ length text.old.buffer.now) × (3 ≡ length nodes.now) }
    ensures { PutBy text.old (line (heading_word ∷ map decimal nodes.now)) text.new }
{
    text.put_text(b"heading ");
    text.put_number(nodes[0]);
    text.put_byte(b' ');
    text.put_number(nodes[1]);
    text.put_byte(b' ');
    text.put_number(nodes[2]);
    text.put_byte(b'\n');
}

// The line with a refusal and its place.
fn put_refusal(text: &mut Text, why: Fault)
    requires { text.old.used + answer_room ≤ length text.old.buffer.now }
    ensures { PutBy text.old (line (refused_word ∷ decimal (number_of (told why)) ∷ long_decimal (place_of (told why)) ∷ [])) text.new }
{
    text.put_text(b"refused ");
    text.put_number(why.number());
    text.put_byte(b' ');
    text.put_long(why.place() as u64);
    text.put_byte(b'\n');
}

// The line with the answer to a record.
fn put_answer(text: &mut Text, bytes: &[u8], list: TestedList)
    requires { text.old.used + answer_room ≤ length text.old.buffer.now }
    ensures { PutBy text.old (answer_text list.entry.heading list.entry.absent (listed list.entry.known) bytes.now) text.new }
{
    let mut nodes = [0u16; 3];
    match read_known(bytes, list.tested, list.heading, &mut nodes) {
        Ok(()) => put_heading(text, &nodes),
        Err(why) => put_refusal(text, why),
    }
}

// The line with the record's number, and that with its answer.
fn put_record(text: &mut Text, k: u64, bytes: &[u8], list: TestedList)
    requires { text.old.used + record_room + answer_room ≤ length text.old.buffer.now }
    ensures { PutBy text.old (record_text list.entry.heading list.entry.absent (listed list.entry.known) k bytes.now) text.new }
{
    put_numbered(text, b"record", k);
    put_answer(text, bytes, list);
}

// Says what there is to say of record k, behind what stands in the buffer.
pub fn say_record(
    rt: HostRuntime,
    k: u64,
    bytes: &[u8],
    list: TestedList,
    out: &mut [u8],
    used: usize,
) -> Result<Pending, Failed>
    requires { (used ≤ length out.old) × (line_room ≤ length out.old) }
    ensures { Said out.old used (record_text list.entry.heading list.entry.absent (listed list.entry.known) k bytes.now) result out.new }
{
    let room = make_room(rt, out, used)?;
    let mut text = Text {
        buffer: out,
        used: room.standing,
    };
    put_record(&mut text, k, bytes, list);
    Ok(Pending {
        written: room.written,
        standing: text.used,
    })
}
