// Line by line.
ghost use Rattle.std.specs.Prelude.{◌≡◌, ℕ, ◌*◌, ◌≤◌, ◌<◌, length, slice_index, MatchOption, MatchResult};
ghost use Rattle.marc.specs.ListFile.{NoFirstLine, NoLine, BadLine};
ghost use Rattle.list_file.specs.Lines.{Firsts, Strings};
ghost use Rattle.list_file.specs.Listings.{Gathered};

use crate::numeral::read_number;

// What a list file has: the heading symbol, the number of absent dates, how many strings, and how many bytes they have.
#[derive(Clone, Copy)]
pub struct Listing {
    pub heading: u16,
    pub absent: u16,
    pub strings: usize,
    pub bytes: usize,
}

// A line's number and its string, and what stands behind the line.
#[derive(Clone, Copy)]
struct Line<'a> {
    number: u16,
    string: &'a [u8],
    rest: &'a [u8],
}

// Where the first line ends.
fn line_end(bytes: &[u8]) -> Option<usize>
    ensures { MatchOption result ((k : ℕ) → k < length bytes.now → slice_index bytes.now k ≡ 10 → ⊥) (λ end. (end < length bytes.now) × (slice_index bytes.now end ≡ 10) × ((k : ℕ) → k < end → slice_index bytes.now k ≡ 10 → ⊥)) }
{
    bytes.iter().position(|byte| *byte == b'\n')
}

// The heading symbol and the number of absent dates, and what stands behind the first line.
fn first_line<'a>(file: &'a [u8]) -> Option<(u16, u16, &'a [u8])>
    ensures { MatchOption result (NoFirstLine file.entry.now) (λ read. Firsts file.entry.now read.0 read.1 read.2.now) }
{
    let (heading, rest) = read_number(file)?;
    let (absent, rest) = read_number(rest.strip_prefix(b" ")?)?;
    Some((heading, absent, rest.strip_prefix(b"\n")?))
}

// The line that some bytes begin with.
fn next_line<'a>(bytes: &'a [u8]) -> Option<Line<'a>>
    ensures { MatchOption result (NoLine bytes.entry.now) (λ line. Strings bytes.entry.now line.number line.string.now line.rest.now) }
{
    let (number, rest) = read_number(bytes)?;
    let rest = rest.strip_prefix(b" ")?;
    let end = line_end(rest)?;
    Some(Line {
        number,
        string: &rest[..end],
        rest: &rest[end + 1..],
    })
}

// The list in the file, or the line that is not as it has to be, counted from 1.
pub fn gather_list(
    file: &[u8],
    text: &mut [u8],
    ends: &mut [u32],
    numbers: &mut [u16],
) -> Result<Listing, usize>
    requires file_in_bounds { (length file.now ≤ length text.old) × (length file.now < 4294967296) }
    requires file_len_bound { (length file.now ≤ 3 * length ends.old) × (length file.now ≤ 3 * length numbers.old) }
    ensures { MatchResult result (Gathered file.now text.new ends.new numbers.new) (BadLine file.now) }
{
    let (heading, absent, behind) = first_line(file).ok_or(1usize)?;
    let mut rest = behind;
    let mut used: usize = 0;
    let mut n: usize = 0;
    while !rest.is_empty() {
        let line = next_line(rest).ok_or(n + 2)?;
        let to = used + line.string.len();
        text[used..to].copy_from_slice(line.string);
        ends[n] = to as u32;
        numbers[n] = line.number;
        rest = line.rest;
        used = to;
        n += 1;
    }
    Ok(Listing {
        heading,
        absent,
        strings: n,
        bytes: used,
    })
}
