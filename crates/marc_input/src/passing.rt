// What is passed over: line ends in front of a record, and what is left of one that is too long to be held.
ghost use Rattle.std.specs.Prelude.{◌≡◌, ℕ, ◌≤◌, ◌<◌, length, slice_index, MatchOption, IfSome, unwrap_or};
ghost use Rattle.marc.specs.Frame.{record_mark};
ghost use Rattle.marc.specs.Stream.{is_break_lem, behind_breaks};
ghost use Rattle.input.specs.Unreads.{unread};
ghost use Rattle.marc_input.specs.Rests.{Held};
ghost use Rattle.marc_input.specs.Passing.{PassedBy, behind_mark, MarkBy};

use crate::rest::{Rest, fill};
use marc_record::frame::RECORD_MARK;

// What a line ends with: one of them, or both.
const LINE_FEED: u8 = 10;

const CARRIAGE_RETURN: u8 = 13;

// Which of some bytes is the first mark. Inlined into its callers the search would reckon its place anew at each byte.
#[inline(never)]
fn first_mark(bytes: &[u8]) -> Option<usize>
    ensures { MatchOption result ((k : ℕ) → k < length bytes.now → slice_index bytes.now k ≡ record_mark → ⊥) (λ first. (first < length bytes.now) × (slice_index bytes.now first ≡ record_mark) × ((k : ℕ) → k < first → slice_index bytes.now k ≡ record_mark → ⊥)) }
{
    bytes.iter().position(|byte| *byte == RECORD_MARK)
}

// The first mark from a place on and before another.
pub fn find_mark(buffer: &[u8], from: usize, to: usize) -> Option<usize>
    requires { (from ≤ to) × (to ≤ length buffer.now) }
    ensures { IfSome result (λ mark. mark < to) × MarkBy (unread buffer.now from to) from to (unwrap_or result to) }
{
    Some(from + first_mark(&buffer[from..to])?)
}

fn is_break(byte: u8) -> bool
    ensures { result ≡ is_break_lem byte }
{
    byte == LINE_FEED || byte == CARRIAGE_RETURN
}

// Passes over line ends: the bytes that are not used then. None where it has passed over as many as it can count, which no input has.
pub fn pass_breaks(rt: HostRuntime, buffer: &mut [u8], rest: Rest) -> Option<Rest>
    requires { Held buffer.old rest × (1 ≤ length buffer.old) }
    ensures { PassedBy behind_breaks buffer.old rest result buffer.new }
{
    let mut now = rest;
    for _ in 0..u64::MAX {
        now = fill(rt, buffer, now, 1);
        let at = now.at;
        if at == now.end || !is_break(buffer[at]) {
            return Some(now);
        }
        now.at = at + 1;
    }
    None
}

// Passes over what is left of a record, up to and with the next mark.
pub fn pass_record(rt: HostRuntime, buffer: &mut [u8], rest: Rest) -> Option<Rest>
    requires { Held buffer.old rest × (1 ≤ length buffer.old) }
    ensures { PassedBy behind_mark buffer.old rest result buffer.new }
{
    let mut now = rest;
    for _ in 0..u64::MAX {
        now = fill(rt, buffer, now, 1);
        if now.at == now.end {
            return Some(now);
        }
        if let Some(mark) = find_mark(buffer, now.at, now.end) {
            now.at = mark + 1;
            return Some(now);
        }
        now.at = now.end;
    }
    None
}
