// What is told on standard error where a read or a write has failed.
#![tactic(auto)]

ghost use Rattle.std.specs.Prelude.{◌≤◌, length};
ghost use Rattle.telling.specs.declared.TheConstants.{ROOM};

use std::fmt;
use std::fmt::Write;
use std::io::{Error, Print};

// Room for the text of an error.
const ROOM: usize = 256;

// Text that is formatted into a buffer; what has no room is dropped.
#[derive(Drop)]
struct Words {
    bytes: [u8; ROOM],
    used: usize,
    ghost inside: { used ≤ ROOM },
}

impl fmt::Write for Words {
    fn write_str(&mut self, text: &str) -> fmt::Result {
        let text = text.as_bytes();
        let used = self.used;
        let room = &mut self.bytes[used..];
        let count = text.len().min(room.len());
        room[..count].copy_from_slice(&text[..count]);
        self.used = used + count;
        Ok(())
    }
}

// Where the text of the error ends: behind it stands its number in brackets.
fn text_end(text: &[u8]) -> usize
    ensures { result ≤ length text.now }
{
    let mark = b" (os error ".as_slice();
    text.windows(mark.len())
        .position(|part| part == mark)
        .unwrap_or(text.len())
}

// Writes a line to standard error: what failed, a colon and the error's text.
pub fn fail(rt: HostRuntime, what: &[u8], why: Error) {
    let mut words = Words {
        bytes: [0; ROOM],
        used: 0,
    };
    let _ = write!(words, "{why}");
    let told = rt.stderr();
    let _ = told.write_all(what);
    let _ = told.write_all(b": ");
    let text = &words.bytes[..words.used];
    let end = text_end(text);
    let _ = told.write_all(&text[..end]);
    let _ = told.write_all(b"\n");
}
