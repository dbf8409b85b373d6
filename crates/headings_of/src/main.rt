// Says the headings of the exchange records on standard input, by the list of known strings in the file that the first argument names: it is read once
// and tested once, and each record is answered or refused, by its number.
#![tactic(auto)]

ghost use Rattle.std.specs.Prelude.{◌*◌, ◌≤◌, ◌<◌, length};
ghost use Rattle.lines.specs.Lines.{line_room};
ghost use Rattle.marc_input.specs.Cuts.{most_bytes};
ghost use Rattle.headings_of.specs.Rooms.{list_room};
ghost use Rattle.headings_of.specs.Endings.{EndingBy};

mod answering;
mod list;
mod rooms;
mod say;

use answering::{Turn, answer_all};
use known_strings::list::KnownStrings;
use list::test_list;
use list_file::gathering::gather_list;
use list_file::reading::read_file;
use output::pending::{Failed, write_out};
use rooms::{LIST_ROOM, list_bytes, list_ends, list_numbers, record_buffer};
use std::fs::File;
use std::io::{Error, ErrorKind, Result as IoResult};
use std::rt::Env;
use telling::fail;

// Why nothing more is said.
#[derive(Clone, Copy)]
pub enum Halt {
    // the list's file has another shape at this line
    BadLine(usize),
    Unwritten(Failed),
}

// By the list in a file.
fn answer_by(
    rt: HostRuntime,
    file: &[u8],
    text: &mut [u8],
    ends: &mut [u32],
    numbers: &mut [u16],
    buffer: &mut [u8],
    out: &mut [u8],
) -> Result<Turn, Halt>
    requires file_in_bounds { (length file.now ≤ length text.old) × (length file.now < 4294967296) }
    requires file_len_bound { (length file.now ≤ 3 * length ends.old) × (length file.now ≤ 3 * length numbers.old) }
    requires most_bytes_in_bounds { (most_bytes < length buffer.old) × (line_room ≤ length out.old) }
    ensures { EndingBy file.now out.old result buffer.new out.new }
{
    let gathered = gather_list(file, text, ends, numbers).map_err(Halt::BadLine)?;
    let known = KnownStrings {
        text: &text[..gathered.bytes],
        ends: &ends[..gathered.strings],
        numbers: &numbers[..gathered.strings],
    };
    let list = test_list(known, gathered.heading, gathered.absent);
    answer_all(rt, buffer, list, out).map_err(Halt::Unwritten)
}

fn say_bad_line(rt: HostRuntime, line: usize) {
    let _ = eprintln!(rt; "headings_of: the list has another shape at line {line}");
}

// Writes what is still to be written.
fn finish(rt: HostRuntime, turn: Turn, out: &[u8])
    requires { turn.standing ≤ length out.now }
{
    if turn.rest.is_none() {
        let _ = write_out(rt, out, turn.standing);
    }
}

// By a list's file that was read whole.
fn serve_list(rt: HostRuntime, file: &[u8])
    requires { length file.now < list_room }
{
    let mut text = list_bytes();
    let mut ends = list_ends();
    let mut numbers = list_numbers();
    let mut buffer = record_buffer();
    let mut out = io::large_buffer();
    match answer_by(
        rt,
        file,
        &mut text,
        &mut ends,
        &mut numbers,
        &mut buffer,
        &mut out,
    ) {
        Ok(turn) => finish(rt, turn, &out),
        Err(Halt::BadLine(line)) => say_bad_line(rt, line),
        Err(Halt::Unwritten(_)) => {}
    }
}

// Reads the list's file, which has this name.
fn serve(rt: HostRuntime, from: &mut File, path: &[u8]) {
    let mut file = list_bytes();
    match read_file(from, &mut file) {
        Ok(size) => {
            if size < LIST_ROOM {
                serve_list(rt, &file[..size]);
                return;
            }
            let _ = eprintln!(rt; "headings_of: the list has more than 1048575 bytes");
        }
        Err(why) => fail(rt, path, why),
    }
}

// Opens the file that has this name. The library takes names of UTF-8 alone.
fn open_read(rt: HostRuntime, path: &[u8]) -> IoResult<File> {
    match str::from_utf8(path) {
        Ok(name) => File::open(&rt, name),
        Err(_) => Err(Error::new(ErrorKind::InvalidFilename, "the name is not UTF-8")),
    }
}

fn main(rt: HostRuntime) {
    let mut name = io::buffer();
    let n = rt.arg(1, &mut name).unwrap_or(0);
    let path = &name[..n];
    match open_read(rt, path) {
        Ok(mut from) => serve(rt, &mut from, path),
        Err(why) => fail(rt, path, why),
    }
}
