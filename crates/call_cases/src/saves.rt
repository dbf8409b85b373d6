// The converter of saved answers. As with a match, the front of a buffer is lent that is full of one number, and it is shown whole.
use crate::buffers::{GUARD, SETS, say_runs};
use crate::input::values_of;
use crate::say;
use saved::widen;

// A word has four numbers, the low one first.
pub fn ask_widen(rt: HostRuntime, room: u16, numbers: &[u8]) {
    let mut saved = [0u64; SETS];
    let words = values_of(numbers.as_chunks().0, &mut saved, u64::from_le_bytes);
    let mut output = [u64::from(GUARD); SETS];
    let n = usize::from(room).min(output.len());
    say::written(rt, widen(words, &mut output[..n]));
    say_runs(rt, " output", &output)
}
