// The records of standard input, answered turn after turn.
ghost use Rattle.std.specs.Prelude.{◌≡◌, ◌≤◌, ◌<◌, Some, length};
ghost use Rattle.known_strings.specs.Lent.{listed};
ghost use Rattle.lines.specs.Lines.{line_room};
ghost use Rattle.marc_input.specs.Rests.{Held};
ghost use Rattle.marc_input.specs.Passing.{uncounted};
ghost use Rattle.marc_input.specs.Cuts.{most_bytes};
ghost use Rattle.headings_of.specs.Turns.{CutIn, CutSaid, TurnBy, TurnsBy};

use crate::list::TestedList;
use crate::say::say_record;
use marc_input::cutting::{Cut, next_record};
use marc_input::passing::find_mark;
use marc_input::rest::Rest;
use output::pending::{Failed, Pending, must_write, settle};

// What comes of a turn: the bytes that are not used yet, none where the input is over, and how many bytes of text are still to be written.
#[derive(Clone, Copy)]
pub struct Turn {
    pub rest: Option<Rest>,
    pub standing: usize,
}

// It goes on with the bytes behind a record.
fn go_on(rest: Rest, said: Pending) -> Turn
    ensures { (result.rest ≡ Some rest) × (result.standing ≡ said.standing) }
{
    Turn {
        rest: Some(rest),
        standing: said.standing,
    }
}

// Says what there is to say of what comes next. A record that is too long has been passed over; what is said of it is what is said of no bytes.
fn answer_next(
    rt: HostRuntime,
    k: u64,
    cut: Cut,
    buffer: &[u8],
    list: TestedList,
    out: &mut [u8],
    used: usize,
) -> Result<Turn, Failed>
    requires { CutIn (length buffer.now) cut × (used ≤ length out.old) × (line_room ≤ length out.old) }
    ensures { CutSaid list.entry.heading list.entry.absent (listed list.entry.known) k buffer.now cut out.old used result out.new }
{
    match cut {
        Cut::Whole(start, rest) => {
            let said = say_record(rt, k, &buffer[start..rest.at], list, out, used)?;
            Ok(go_on(rest, said))
        }
        Cut::TooLong(rest) => {
            let said = say_record(rt, k, &buffer[..0], list, out, used)?;
            Ok(go_on(rest, said))
        }
        Cut::Ended | Cut::Endless => Ok(Turn {
            rest: None,
            standing: used,
        }),
    }
}

// One turn. Where no mark stands in the bytes that were read no whole record does, so that it has to wait for more: before, it writes what it has.
fn take_turn(
    rt: HostRuntime,
    k: u64,
    buffer: &mut [u8],
    rest: Rest,
    list: TestedList,
    out: &mut [u8],
    used: usize,
) -> Result<Turn, Failed>
    requires { Held buffer.old rest × (most_bytes < length buffer.old) × (used ≤ length out.old) × (line_room ≤ length out.old) }
    ensures { TurnBy list.entry.heading list.entry.absent (listed list.entry.known) k buffer.old rest out.old used result buffer.new out.new }
{
    let mark = find_mark(buffer, rest.at, rest.end).unwrap_or(rest.end);
    let left = settle(rt, out, used, must_write(mark, rest.end, used))?;
    let cut = next_record(rt, buffer, rest);
    answer_next(rt, k, cut, buffer, list, out, left.standing)
}

// Turn after turn, until the input is over.
pub fn answer_all(
    rt: HostRuntime,
    buffer: &mut [u8],
    list: TestedList,
    out: &mut [u8],
) -> Result<Turn, Failed>
    requires { (most_bytes < length buffer.old) × (line_room ≤ length out.old) }
    ensures { TurnsBy list.entry.heading list.entry.absent (listed list.entry.known) uncounted buffer.new out.old result out.new }
{
    let mut turn = Turn {
        rest: Some(Rest {
            at: 0,
            end: 0,
            over: false,
        }),
        standing: 0,
    };
    for k in 0..u64::MAX {
        let Some(rest) = turn.rest else {
            return Ok(turn);
        };
        turn = take_turn(rt, k, buffer, rest, list, out, turn.standing)?;
    }
    Ok(turn)
}
