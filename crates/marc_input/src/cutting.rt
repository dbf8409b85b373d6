// Where a record ends.
ghost use Rattle.std.specs.Prelude.{◌≡◌, false, ◌-◌, ◌≤◌, ◌<◌, length};
ghost use Rattle.marc.specs.Stream.{coming_in};
ghost use Rattle.marc_input.specs.Rests.{Held, rest_in};
ghost use Rattle.marc_input.specs.Cuts.{most_bytes, ComesBy, NextBy, Says, NotAsSaid, SaidBy, ToMarkBy, ends_marked_lem};

use crate::passing::{find_mark, pass_breaks, pass_record};
use crate::rest::{Rest, fill};
use marc_record::frame::RECORD_MARK;
use marc_record::number::number;

// No record has more bytes, and none has fewer.
pub const MOST_BYTES: usize = 99999;

const FEWEST_BYTES: usize = 26;

// A record's length has so many digits.
const LENGTH_DIGITS: usize = 5;

#[derive(Clone, Copy)]
pub enum Cut {
    // the record begins here, and ends where the bytes begin that are not used yet
    Whole(usize, Rest),
    // a record that is longer than any may be has been passed over
    TooLong(Rest),
    // there is no more
    Ended,
    // more has been passed over than can be counted
    Endless,
}

// How many bytes a record says that it has, if that can be.
fn said_length(buffer: &[u8], rest: Rest) -> Option<usize>
    requires { Held buffer.now rest × (rest.over ≡ false → 5 ≤ rest.end - rest.at) }
    ensures { SaidBy buffer.now rest result }
{
    if rest.end - rest.at < LENGTH_DIGITS {
        return None;
    }
    let count = number(&buffer[rest.at..rest.at + LENGTH_DIGITS])?;
    if count < FEWEST_BYTES {
        return None;
    }
    Some(count)
}

// Reads until a mark is there, or more bytes than a record may have, or the input is over.
fn fill_to_mark(rt: HostRuntime, buffer: &mut [u8], rest: Rest) -> Rest
    requires { Held buffer.old rest × (most_bytes < length buffer.old) }
    ensures { ToMarkBy buffer.old rest result buffer.new }
{
    let mut now = rest;
    let mut mark = find_mark(buffer, now.at, now.end);
    while mark.is_none() && !now.over && now.end - now.at <= MOST_BYTES {
        let seen = now.end - now.at;
        now = fill(rt, buffer, now, seen + 1);
        mark = find_mark(buffer, now.at + seen, now.end);
    }
    now
}

// A record that is not as long as it says ends with the next mark, or with the input.
fn cut_at_mark(rt: HostRuntime, buffer: &mut [u8], rest: Rest) -> Cut
    requires { Held buffer.old rest × (rest.at < rest.end) × (most_bytes < length buffer.old) × NotAsSaid buffer.old rest }
    ensures { ComesBy coming_in buffer.old rest result buffer.new }
{
    let now = fill_to_mark(rt, buffer, rest);
    if let Some(mark) = find_mark(buffer, now.at, now.end) {
        return Cut::Whole(
            now.at,
            Rest {
                at: mark + 1,
                end: now.end,
                over: now.over,
            },
        );
    }
    let used = Rest {
        at: now.end,
        end: now.end,
        over: now.over,
    };
    if now.over {
        return Cut::Whole(now.at, used);
    }
    match pass_record(rt, buffer, used) {
        Some(left) => Cut::TooLong(left),
        None => Cut::Endless,
    }
}

// Whether so many bytes are there, with a mark at their end.
fn ends_marked(buffer: &[u8], rest: Rest, count: usize) -> bool
    requires { Held buffer.now rest × (1 ≤ count) }
    ensures { result ≡ ends_marked_lem buffer.now rest count }
{
    rest.end - rest.at >= count && buffer[rest.at + count - 1] == RECORD_MARK
}

// A record that says that it has so many bytes, if it is so.
fn cut_as_said(rt: HostRuntime, buffer: &mut [u8], rest: Rest, count: usize) -> Cut
    requires held { Held buffer.old rest × (rest.at < rest.end) × (most_bytes < length buffer.old) }
    requires le_count { (26 ≤ count) × (count ≤ most_bytes) × Says count (rest_in buffer.old rest) }
    ensures { ComesBy coming_in buffer.old rest result buffer.new }
{
    let now = fill(rt, buffer, rest, count);
    if ends_marked(buffer, now, count) {
        return Cut::Whole(
            now.at,
            Rest {
                at: now.at + count,
                end: now.end,
                over: now.over,
            },
        );
    }
    cut_at_mark(rt, buffer, now)
}

// What comes next.
pub fn next_record(rt: HostRuntime, buffer: &mut [u8], rest: Rest) -> Cut
    requires { Held buffer.old rest × (most_bytes < length buffer.old) }
    ensures { NextBy buffer.old rest result buffer.new }
{
    let Some(begun) = pass_breaks(rt, buffer, rest) else {
        return Cut::Endless;
    };
    let now = fill(rt, buffer, begun, LENGTH_DIGITS);
    if now.at == now.end {
        return Cut::Ended;
    }
    match said_length(buffer, now) {
        Some(count) => cut_as_said(rt, buffer, now, count),
        None => cut_at_mark(rt, buffer, now),
    }
}
