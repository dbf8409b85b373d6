// Answers the question on standard input, on standard output.
#![tactic(auto)]

ghost use Rattle.std.specs.Prelude.{◌≤◌, length};
ghost use Rattle.meaning.specs.Program.{output};
ghost use Rattle.shape.specs.Rooms.{most_room};
ghost use Rattle.lines.specs.Lines.{line_room};
ghost use Rattle.input.specs.Unreads.{unread};
ghost use Rattle.output.specs.Pendings.{Said};

use input::reading::read_until;
use input::unread::Unread;
use output::pending::{Failed, Pending, write_out};
use question::serving::serve;
use shape::room::MOST_ROOM;

// Says the answer to the question that was read.
fn answer_read(
    rt: HostRuntime,
    input: &[u8],
    read: Unread,
    sets: &mut [u64],
    out: &mut [u8],
) -> Result<Pending, Failed>
    requires read_in_bounds { read.end ≤ length input.now }
    requires most_room_in_bounds { (most_room ≤ length sets.old) × (line_room ≤ length out.old) }
    ensures { Said out.old 0 (output (unread input.now read.at read.end)) result out.new }
{
    serve(rt, &input[read.at..read.end], sets, out, 0)
}

// A question that is longer than 65,535 bytes is refused for its length, so one byte more is enough to read.
fn main(rt: HostRuntime) {
    let mut input = io::large_buffer();
    let read = read_until(rt, &mut input, Unread::front(0), 65536);
    let mut sets = [0u64; MOST_ROOM];
    let mut out = io::large_buffer();
    if let Ok(answer) = answer_read(rt, &input, read, &mut sets, &mut out) {
        let _ = write_out(rt, &out, answer.standing);
    }
}
