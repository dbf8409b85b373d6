// The cases as standard input has them. A case is a header of nine numbers, a list of bytes (the table, the arities to be written, or a record) and
// three lists of numbers (nodes, the pairs to be written, or words, four numbers to each). With a record the lists are where the known strings end, two
// numbers to each end, the strings' numbers, and the strings themselves, in bytes. Numbers are two bytes each, low byte first.
ghost use Rattle.std.specs.Prelude.{◌≤◌, length};

use std::io::Read;

// Room for the bytes of a case, for each list, for what is read of a list, of which the rest is dropped, and for the known strings.
pub const BYTES: usize = 99999;

pub const LONGEST: usize = 24579;

pub const READ: usize = 65536;

pub const TEXT: usize = 65535;

// The calls, a kind of case for each.
#[derive(Clone, Copy)]
pub enum Kind {
    SymbolDegree,
    Table,
    Arity,
    Pair,
    Write,
    Widen,
    Record,
    Terms(OnTerms),
}

// Those that take terms.
#[derive(Clone, Copy)]
pub enum OnTerms {
    Degree,
    Subterm,
    Nearer,
    Match,
}

pub struct NoSuchKind;

impl TryFrom<u16> for Kind {
    type Error = NoSuchKind;

    fn try_from(number: u16) -> Result<Kind, NoSuchKind> {
        match number {
            1 => Ok(Kind::SymbolDegree),
            2 => Ok(Kind::Terms(OnTerms::Degree)),
            3 => Ok(Kind::Terms(OnTerms::Subterm)),
            4 => Ok(Kind::Terms(OnTerms::Nearer)),
            5 => Ok(Kind::Terms(OnTerms::Match)),
            6 => Ok(Kind::Table),
            7 => Ok(Kind::Arity),
            8 => Ok(Kind::Pair),
            9 => Ok(Kind::Write),
            10 => Ok(Kind::Widen),
            11 => Ok(Kind::Record),
            _ => Err(NoSuchKind),
        }
    }
}

// The numbers that a call takes besides the lists.
#[derive(Clone, Copy)]
pub struct Asked {
    pub x: u16,
    pub y: u16,
    pub z: u16,
}

// What is asked, and how many bytes and numbers the lists have.
#[derive(Clone, Copy)]
pub struct Header {
    pub kind: u16,
    pub asked: Asked,
    pub bytes: usize,
    pub first: u16,
    pub second: u16,
    pub third: u16,
}

// None where the input has no more. The bytes of a case may be more than 65,535, so their count is told as two numbers.
pub fn read_header(rt: HostRuntime) -> Option<Header> {
    let mut numbers = [0u16; 9];
    let [kind, bytes, more, first, second, third, x, y, z] = read_numbers(rt, &mut numbers, 9)
    else {
        return None;
    };
    Some(Header {
        kind: *kind,
        asked: Asked {
            x: *x,
            y: *y,
            z: *z,
        },
        bytes: usize::from(*bytes) + usize::from(*more),
        first: *first,
        second: *second,
        third: *third,
    })
}

// Reads so many bytes to the front of the buffer, fewer where it or the input ends, and hands them back.
pub fn read_bytes<'a>(rt: HostRuntime, buffer: &'a mut [u8], count: usize) -> &'a [u8]
    ensures { length result.now ≤ length buffer.old }
{
    let room = count.min(buffer.len());
    let mut done = 0;
    while done < room {
        match rt.stdin().read(&mut buffer[done..room]) {
            Ok(0) => break,
            Ok(more) => done += more,
            Err(_) => break,
        }
    }
    &buffer[..done]
}

// Reads the bytes of so many numbers, and hands back those of as many as a list has.
pub fn read_listed<'a>(rt: HostRuntime, buffer: &'a mut [u8], count: u16) -> &'a [u8]
    ensures { length result.now ≤ length buffer.old }
{
    let bytes = read_bytes(rt, buffer, 2 * usize::from(count));
    &bytes[..bytes.len().min(2 * LONGEST)]
}

// Reads so many numbers to the front of the list, fewer where it or the input ends, and hands them back.
pub fn read_numbers<'a>(rt: HostRuntime, list: &'a mut [u16], count: u16) -> &'a [u16]
    ensures { length result.now ≤ length list.old }
{
    let mut buffer = [0u8; READ];
    let bytes = read_listed(rt, &mut buffer, count);
    values_of(bytes.as_chunks().0, list, u16::from_le_bytes)
}

// Puts the values that are so written to the front of the list, and hands them back.
pub fn values_of<'a, A: Copy, T: Copy, F: Fn(A) -> T>(
    written: &[A],
    list: &'a mut [T],
    value: F,
) -> &'a [T]
    requires { F.IsAlwaysCallable value }
    ensures { length result.now ≤ length list.old }
{
    let count = written.len().min(list.len());
    for (place, one) in list.iter_mut().zip(written) {
        *place = value(*one);
    }
    &list[..count]
}
