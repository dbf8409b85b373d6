// A match. Of two buffers that are full of one number the front is lent, and both are shown whole: what the call left in its part, and that the
// rest stayed as it was.
use crate::input::Asked;
use crate::say;
use matches::match_heading;
use refusal::{Degrees, Refusal};
use sets::SymbolSet;

// Above every number of a span.
pub const GUARD: u16 = 9999;

// More than any case lends.
const SPANS: usize = 136;

pub const SETS: usize = 1026 * SymbolSet::WORDS;

pub fn ask_match(rt: HostRuntime, asked: Asked, table: &[u8], pattern: &[u16], heading: &[u16]) {
    let mut spans = [GUARD; SPANS];
    let mut sets = [u64::from(GUARD); SETS];
    say::matched(
        rt,
        lend(asked, table, pattern, heading, &mut spans, &mut sets),
    );
    say_runs(rt, " spans", &spans);
    say_runs(rt, " sets", &sets)
}

// The call, with the front of each buffer.
fn lend(
    asked: Asked,
    table: &[u8],
    pattern: &[u16],
    heading: &[u16],
    spans: &mut [u16],
    sets: &mut [u64],
) -> Result<Degrees, Refusal> {
    let m = usize::from(asked.y).min(spans.len());
    let n = usize::from(asked.z).min(sets.len());
    match_heading(
        table,
        pattern,
        heading,
        asked.x,
        &mut spans[..m],
        &mut sets[..n],
    )
}

// A list by its runs of equal numbers.
pub fn say_runs<T: Copy + Into<u64>>(rt: HostRuntime, what: &str, values: &[T]) {
    say::text(rt, what);
    let mut first = 0;
    for (i, value) in values.iter().enumerate() {
        let here: u64 = (*value).into();
        let ends = match values.get(i + 1) {
            Some(next) => (*next).into() != here,
            None => true,
        };
        if ends {
            say_run(rt, first, i, here);
            first = i + 1;
        }
    }
}

// What stands at the indexes from first to last. Zeros are left out.
fn say_run(rt: HostRuntime, first: usize, last: usize, value: u64) {
    if value == 0 {
        return;
    }
    say::one(rt, " ", first as u64);
    if first != last {
        say::one(rt, "-", last as u64);
    }
    say::one(rt, ":", value);
}
