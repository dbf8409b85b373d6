// Cases from standard input through the public calls, an answer to a line. The stored input and output are made by tests/make_call_cases.py:
// the answers come from a reference that was written from the rules alone, those on tables and the writer from tests/table_cases.txt, by hand.
#![tactic(auto)]

mod ask;
mod buffers;
mod input;
mod on_records;
mod on_terms;
mod saves;
mod say;
mod writes;

use input::{BYTES, Header, Kind, LONGEST, NoSuchKind, READ};

fn answer(rt: HostRuntime, header: Header) {
    let mut room = [0u8; BYTES];
    let bytes = input::read_bytes(rt, &mut room, header.bytes);
    let mut listed = [0u8; READ];
    let first = input::read_listed(rt, &mut listed, header.first);
    match Kind::try_from(header.kind) {
        Ok(kind) => ask::ask(rt, kind, header, bytes, first),
        Err(NoSuchKind) => {
            // one list more is read, so that the next case begins behind it
            input::read_numbers(rt, &mut [0u16; LONGEST], header.second);
            say::text(rt, " no such kind");
        }
    }
}

// Answers every case, up to 65,535: nothing says that the input ends. Where a write fails the cases go on, and so does what is said of each.
fn main(rt: HostRuntime) {
    for case in 0..65535u16 {
        let Some(header) = input::read_header(rt) else {
            break;
        };
        let _ = print!(rt; "{case}");
        answer(rt, header);
        let _ = println!(rt;);
    }
}
