// The table writer. Of an output that is full of sevens the front is lent, and it is shown whole, as numbers of two bytes: what the call left in
// its part, and that the rest stayed as it was.
use crate::input::{LONGEST, values_of};
use crate::say;
use tables::writing::write_table;

// More bytes than any case lends, and the numbers that they make.
const OUTPUT: usize = 72;

const SHOWN: usize = 36;

pub fn ask_write(rt: HostRuntime, room: u16, arities: &[u8], pairs: &[u8]) {
    let mut numbers = [0u16; LONGEST];
    let pairs = values_of(pairs.as_chunks().0, &mut numbers, u16::from_le_bytes);
    let mut output = [7u8; OUTPUT];
    let n = usize::from(room).min(output.len());
    say::written(rt, write_table(arities, pairs, &mut output[..n]));
    let mut shown = [0u16; SHOWN];
    say::nodes(
        rt,
        " output ",
        values_of(output.as_chunks().0, &mut shown, u16::from_le_bytes),
    )
}
