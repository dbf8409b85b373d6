// Answers the questions on standard input, one after the other, on standard output.
#![tactic(auto)]

ghost use Rattle.std.specs.Prelude.{◌≡◌, ◌≤◌, length};
ghost use Rattle.lines.specs.Lines.{line_room};
ghost use Rattle.shape.specs.Rooms.{most_room};
ghost use Rattle.input.specs.Unreads.{unread};
ghost use Rattle.input.specs.Found.{Found};
ghost use Rattle.replay.specs.Turns.{TurnOf, TurnFrom, TurnsBy};

use input::batch::{Next, next_question};
use input::unread::Unread;
use output::pending::{Failed, must_write, settle, write_out};
use output::say::{say_cut_off, say_too_long};
use question::serving::say_answer;
use shape::room::MOST_ROOM;

// Twice as much as a question may have, so that bytes are moved seldom.
const ROOM: usize = 131072;

// What a turn leaves.
#[derive(Clone, Copy)]
pub struct Turn {
    // the bytes that are not used yet; none where the batch is over
    rest: Option<Unread>,
    // so many bytes are still to be written
    standing: usize,
}

// Says what there is to say of question k, if there is one.
fn answer_next(
    rt: HostRuntime,
    k: u64,
    next: Next,
    buffer: &[u8],
    sets: &mut [u64],
    out: &mut [u8],
    used: usize,
) -> Result<Turn, Failed>
    requires found { Found (length buffer.now) next }
    requires most_room_in_bounds { (most_room ≤ length sets.old) × (used ≤ length out.old) × (line_room ≤ length out.old) }
    ensures { TurnOf k next buffer.now out.old used result out.new }
{
    match next {
        Next::Ended => Ok(Turn {
            rest: None,
            standing: used,
        }),
        Next::CutOff => {
            let said = say_cut_off(rt, k, out, used)?;
            Ok(Turn {
                rest: None,
                standing: said.standing,
            })
        }
        Next::TooLong(rest) => {
            let said = say_too_long(rt, k, out, used)?;
            Ok(Turn {
                rest: Some(rest),
                standing: said.standing,
            })
        }
        Next::Question { from, rest } => {
            let said = say_answer(rt, k, &buffer[from..rest.at], sets, out, used)?;
            Ok(Turn {
                rest: Some(rest),
                standing: said.standing,
            })
        }
    }
}

// One turn. Before it waits for more bytes it writes what it has, so that one who asks question by question is answered so too.
fn take_turn(
    rt: HostRuntime,
    k: u64,
    buffer: &mut [u8],
    kept: Unread,
    sets: &mut [u64],
    out: &mut [u8],
    used: usize,
) -> Result<Turn, Failed>
    requires kept_in_bounds { (kept.end ≤ length buffer.old) × (65535 ≤ length buffer.old) }
    requires most_room_in_bounds { (most_room ≤ length sets.old) × (used ≤ length out.old) × (line_room ≤ length out.old) }
    ensures { TurnFrom k (unread buffer.old kept.at kept.end) (kept.at ≡ kept.end) buffer.new out.old used result out.new }
{
    let settled = settle(rt, out, used, must_write(kept.at, kept.end, used))?;
    let next = next_question(rt, buffer, kept);
    answer_next(rt, k, next, buffer, sets, out, settled.standing)
}

// Turn after turn, until the batch is over.
fn answer_all(
    rt: HostRuntime,
    buffer: &mut [u8],
    sets: &mut [u64],
    out: &mut [u8],
) -> Result<Turn, Failed>
    requires { (65535 ≤ length buffer.old) × (most_room ≤ length sets.old) × (line_room ≤ length out.old) }
    ensures { TurnsBy 18446744073709551615 buffer.new out.old result out.new }
{
    let mut turn = Turn {
        rest: Some(Unread::front(0)),
        standing: 0,
    };
    for k in 0..u64::MAX {
        let Some(kept) = turn.rest else {
            return Ok(turn);
        };
        turn = take_turn(rt, k, buffer, kept, sets, out, turn.standing)?;
    }
    Ok(turn)
}

fn main(rt: HostRuntime) {
    let mut buffer = [0u8; ROOM];
    let mut sets = [0u64; MOST_ROOM];
    let mut out = io::large_buffer();
    let Ok(last) = answer_all(rt, &mut buffer, &mut sets, &mut out) else {
        return;
    };
    if last.rest.is_none() {
        let _ = write_out(rt, &out, last.standing);
    }
}
