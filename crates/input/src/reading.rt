// Bytes from standard input, by way of a buffer.
ghost use Rattle.std.specs.Prelude.{◌≡◌, ◌-◌, ◌≤◌, length, take};
ghost use Rattle.input.specs.Unreads.{unread, ReadBy};

pub use crate::unread::Unread;
use std::io::Read;
use telling::fail;

// Moves the bytes that are not used yet to the buffer's front, which makes room behind them; answers how many they are.
fn move_front(buffer: &mut [u8], kept: Unread) -> usize
    requires { kept.end ≤ length buffer.old }
    ensures { (result ≡ kept.end - kept.at) × (take result buffer.new ≡ unread buffer.old kept.at kept.end) }
{
    buffer.copy_within(kept.at..kept.end, 0);
    kept.len()
}

// One read to the buffer from `end` on; answers where the bytes end then. A read that fails is told, and ends the input.
fn read_more(rt: HostRuntime, buffer: &mut [u8], end: usize) -> usize
    requires { end ≤ length buffer.old }
    ensures { (end ≤ result) × (result ≤ length buffer.old) × (take end buffer.new ≡ take end buffer.old) }
{
    match rt.stdin().read(&mut buffer[end..]) {
        Ok(more) => end + more,
        Err(why) => {
            fail(rt, b"standard input", why);
            end
        }
    }
}

// Reads until `wanted` bytes are not used yet, or the input ends.
pub fn read_until(rt: HostRuntime, buffer: &mut [u8], kept: Unread, wanted: usize) -> Unread
    requires { (kept.end ≤ length buffer.old) × (wanted ≤ length buffer.old) }
    ensures { ReadBy buffer.old kept.at kept.end wanted result buffer.new }
{
    if kept.len() >= wanted {
        return kept;
    }
    let mut read = move_front(buffer, kept);
    while read < wanted {
        let more = read_more(rt, buffer, read);
        if more == read {
            break;
        }
        read = more;
    }
    Unread::front(read)
}
