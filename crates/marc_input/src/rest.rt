// Bytes that were read from standard input and are not used yet, until it is over.
ghost use Rattle.std.specs.Prelude.{◌≤◌, length};
ghost use Rattle.marc_input.specs.Rests.{Held, FilledBy};

use input::reading::{Unread, read_until};

// Where they stand in the buffer, and whether the input is over: then nothing more is read, even where more would come.
#[derive(Clone, Copy)]
pub struct Rest {
    pub at: usize,
    pub end: usize,
    pub over: bool,
}

// Reads until so many bytes are not used yet, or the input is over.
pub fn fill(rt: HostRuntime, buffer: &mut [u8], rest: Rest, wanted: usize) -> Rest
    requires { Held buffer.old rest × (wanted ≤ length buffer.old) }
    ensures { FilledBy buffer.old rest wanted result buffer.new }
{
    if rest.over {
        return rest;
    }
    let kept = Unread {
        at: rest.at,
        end: rest.end,
    };
    let unread = read_until(rt, buffer, kept, wanted);
    Rest {
        at: unread.at,
        end: unread.end,
        over: unread.len() < wanted,
    }
}
