// Text to standard output, by way of a buffer.
ghost use Rattle.std.specs.Prelude.{◌≡◌, ◌+◌, ◌≤◌, ◌<◌, length};
ghost use Rattle.refusal.specs.Outcomes.{result_of};
ghost use Rattle.lines.specs.Lines.{line_room, text_in};
ghost use Rattle.lines.specs.Lengths.{most_sets};
ghost use Rattle.output.specs.Pendings.{Said, HandedOver, Settled};
ghost use Rattle.output.specs.Turns.{MustWrite};

use lines::answer::Answer;
use lines::filling::fill;
use lines::line::Cursor;
use telling::fail;
use text::Text;

// What has come of text that was to be written.
#[derive(Clone, Copy)]
pub struct Pending {
    // so many bytes were handed over
    pub written: usize,
    // so many stand in the buffer, from the front on
    pub standing: usize,
}

// A write has failed, which was told. Nothing more is written then.
#[derive(Clone, Copy)]
pub struct Failed;

impl Pending {
    // What was handed over before counts too.
    pub fn with_written(self, more: usize) -> Pending
        requires { more + self.written < 18446744073709551616 }
        ensures { (result.written ≡ more + self.written) × (result.standing ≡ self.standing) }
    {
        Pending {
            written: more + self.written,
            standing: self.standing,
        }
    }
}

// Writes the first bytes of the buffer, and counts those that it handed over. That they were not taken is told.
pub fn write_out(rt: HostRuntime, out: &[u8], used: usize) -> Result<Pending, Failed>
    requires { used ≤ length out.now }
    ensures { HandedOver used result }
{
    let part = &out[..used];
    match rt.stdout().write_all(part) {
        Ok(()) => Ok(Pending {
            written: part.len(),
            standing: 0,
        }),
        Err(why) => {
            fail(rt, b"standard output", why);
            Err(Failed)
        }
    }
}

// Whether one has to wait, which is where the two places meet, and has something to write before.
pub fn must_write(at: usize, end: usize, used: usize) -> bool
    ensures { MustWrite at end used result }
{
    at == end && 0 < used
}

// Before one waits, what stands in the buffer is written.
pub fn settle(rt: HostRuntime, out: &[u8], used: usize, waits: bool) -> Result<Pending, Failed>
    requires { used ≤ length out.now }
    ensures { Settled used waits result }
{
    if waits {
        write_out(rt, out, used)
    } else {
        Ok(Pending {
            written: 0,
            standing: used,
        })
    }
}

// Puts the answer's text behind what stands in the buffer, and writes the buffer out each time that it is full.
pub fn put_answer(
    rt: HostRuntime,
    answer: Answer,
    out: &mut [u8],
    used: usize,
) -> Result<Pending, Failed>
    requires few_sets { length answer.sets.now ≤ most_sets }
    requires used_in_bounds { (used ≤ length out.old) × (line_room ≤ length out.old) }
    ensures { Said out.old used (text_in (result_of answer.entry.outcome answer.entry.spans.now answer.entry.sets.now)) result out.new }
{
    let mut text = Text { buffer: out, used };
    let mut written = 0;
    let mut next = fill(answer, Some(Cursor::First), &mut text);
    while let Some(cursor) = next {
        let full = write_out(rt, text.written(), text.used)?;
        written += full.written;
        text.used = full.standing;
        next = fill(answer, Some(cursor), &mut text);
    }
    Ok(Pending {
        written,
        standing: text.used,
    })
}
