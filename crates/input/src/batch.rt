// The batch: each question stands behind its length, four bytes with the low byte first.
ghost use Rattle.std.specs.Prelude.{◌≡◌, ◌+◌, ◌≤◌, ◌<◌, length};
ghost use Rattle.input.specs.Coming.{length_in, Follows, Comes};
ghost use Rattle.input.specs.Found.{FoundBy};
ghost use Rattle.input.specs.Unreads.{unread};

use crate::reading::{Unread, read_until};

#[derive(Clone, Copy)]
pub enum Next {
    // the question, which begins here and ends where the bytes begin that are not used yet
    Question { from: usize, rest: Unread },
    // a question that was too long has been passed over; the bytes that are not used yet
    TooLong(Unread),
    // the input ends inside a length or a question
    CutOff,
    // there is no more question
    Ended,
}

fn length_at(bytes: &[u8], at: usize) -> usize
    requires { at + 3 < length bytes.now }
    ensures { result ≡ length_in (unread bytes.now at (at + 4)) }
{
    u32::from_le_bytes([bytes[at], bytes[at + 1], bytes[at + 2], bytes[at + 3]]) as usize
}

// Passes over a question that is too long, of so many bytes.
fn pass_over(rt: HostRuntime, buffer: &mut [u8], behind: Unread, count: usize) -> Next
    requires { (behind.end ≤ length buffer.old) × (65535 ≤ length buffer.old) × (65535 < count) }
    ensures { FoundBy (Follows count) buffer.old behind.at behind.end result buffer.new }
{
    let mut passed = behind;
    let mut left = count;
    while left > passed.len() {
        left -= passed.len();
        passed = read_until(rt, buffer, Unread::front(0), 1);
        if passed.is_empty() {
            return Next::CutOff;
        }
    }
    Next::TooLong(passed.skip(left))
}

// A question of so many bytes.
fn whole_question(rt: HostRuntime, buffer: &mut [u8], behind: Unread, count: usize) -> Next
    requires { (behind.end ≤ length buffer.old) × (65535 ≤ length buffer.old) × (count ≤ 65535) }
    ensures { FoundBy (Follows count) buffer.old behind.at behind.end result buffer.new }
{
    let read = read_until(rt, buffer, behind, count);
    if read.len() < count {
        return Next::CutOff;
    }
    Next::Question {
        from: read.at,
        rest: read.skip(count),
    }
}

// What comes next in the batch.
pub fn next_question(rt: HostRuntime, buffer: &mut [u8], kept: Unread) -> Next
    requires { (kept.end ≤ length buffer.old) × (65535 ≤ length buffer.old) }
    ensures { FoundBy Comes buffer.old kept.at kept.end result buffer.new }
{
    let read = read_until(rt, buffer, kept, 4);
    if read.is_empty() {
        return Next::Ended;
    }
    if read.len() < 4 {
        return Next::CutOff;
    }
    let count = length_at(buffer, read.at);
    let rest = read.skip(4);
    if count > 65535 {
        pass_over(rt, buffer, rest, count)
    } else {
        whole_question(rt, buffer, rest, count)
    }
}
