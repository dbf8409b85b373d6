// The call that takes an exchange record. As with a match, the front of a buffer is lent that is full of one number, and it is shown whole.
use crate::buffers::GUARD;
use crate::input::{Asked, Header, LONGEST, TEXT, read_bytes, read_numbers, values_of};
use crate::say;
use exchange::{Fault, read_heading};

// More numbers than any case lends.
const NODES: usize = 6;

// The strings themselves come last. An end has two numbers, the low one first.
pub fn ask(rt: HostRuntime, header: Header, bytes: &[u8], first: &[u8]) {
    let mut places = [0u32; LONGEST];
    let ends = values_of(first.as_chunks().0, &mut places, u32::from_le_bytes);
    let mut listed = [0u16; LONGEST];
    let numbers = read_numbers(rt, &mut listed, header.second);
    let mut room = [0u8; TEXT];
    let text = read_bytes(rt, &mut room, usize::from(header.third));
    let mut nodes = [GUARD; NODES];
    say::headed(
        rt,
        lend(header.asked, bytes, text, ends, numbers, &mut nodes),
    );
    say::nodes(rt, " output ", &nodes)
}

// The call, with the front of the output.
fn lend(
    asked: Asked,
    bytes: &[u8],
    text: &[u8],
    ends: &[u32],
    numbers: &[u16],
    nodes: &mut [u16],
) -> Result<(), Fault> {
    let n = usize::from(asked.z).min(nodes.len());
    read_heading(
        bytes,
        text,
        ends,
        numbers,
        asked.x,
        asked.y,
        &mut nodes[..n],
    )
}
