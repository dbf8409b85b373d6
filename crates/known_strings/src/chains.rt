// Which entry of a long list in any order may not be listed. Strings are chained by a digest of their bytes, as many at a time as there is memory for,
// and each string is held against those of its own digest alone; strings behind a block are sought in its chains too, and then chained with their own.
ghost use Rattle.std.specs.Prelude.{◌≡◌, ◌≤◌, ◌<◌, length};
ghost use Rattle.theory.specs.Least.{some, least_below};
ghost use Rattle.table.specs.Places.{place_in};
ghost use Rattle.known_strings.specs.Lent.{is_string, bad_in};
ghost use Rattle.known_strings.specs.Chains.{digests, digest_of, like, ChainFrom, BadFrom};

use crate::list::KnownStrings;

// So many digests there are.
const DIGESTS: usize = 16384;

// So many strings are chained at a time.
const BLOCK: usize = 16384;

// What stands in memory before it is written. Nothing reads it.
const UNWRITTEN: u16 = 1;

// A number that is the same for the same bytes, and seldom for others.
fn digest(string: &[u8]) -> usize
    ensures { (result ≡ digest_of string.now) × (result < digests) }
{
    let mut sum: usize = 0;
    for &byte in string {
        sum = (sum * 31 + byte as usize) % DIGESTS;
    }
    sum
}

// Whether a string is on the chain with this head, of the strings from entry `from` on: 1 and the last that has its digest, or 0.
fn is_chained(
    known: KnownStrings,
    from: usize,
    head: u16,
    links: &[u16; BLOCK],
    string: &[u8],
) -> bool
    requires { ChainFrom known.text.now known.ends.now from head links.now string.now }
    ensures { result ≡ some head (like known.entry.text.now known.entry.ends.now from string.now) }
{
    let mut next = head as usize;
    while next > 0 {
        let k = next - 1;
        if known.string(from + k) == string {
            return true;
        }
        next = links[k] as usize;
    }
    false
}

// The first entry from `from` on that has the number of absent dates, or the string of one before it in the block that begins there; `end` if none before has.
fn bad_from(known: KnownStrings, absent: u16, from: usize, end: usize) -> usize
    requires { (from ≤ end) × (end ≤ length known.ends.now) × (end ≤ length known.numbers.now) }
    ensures { BadFrom known.entry.text.now known.entry.ends.now known.entry.numbers.now absent from end result }
{
    let mut heads = [0u16; DIGESTS];
    let mut links = [UNWRITTEN; BLOCK];
    for j in from..end {
        let string = known.string(j);
        let mark = digest(string);
        let head = heads[mark];
        if is_chained(known, from, head, &links, string) || known.numbers[j] == absent {
            return j;
        }
        let k = j - from;
        if k < BLOCK {
            links[k] = head;
            heads[mark] = k as u16 + 1;
        }
    }
    end
}

// The first of many entries that is bad: none before it is, whichever block the same string stands in.
pub fn bad_of_many(known: KnownStrings, absent: u16, n: usize) -> Option<usize>
    requires { (n ≤ length known.ends.now) × (n ≤ length known.numbers.now) }
    ensures { place_in result ≡ least_below n (bad_in known.entry.text.now known.entry.ends.now known.entry.numbers.now absent) }
{
    let mut from: usize = 0;
    let mut end = bad_from(known, absent, from, n);
    while end - from > BLOCK {
        from += BLOCK;
        end = bad_from(known, absent, from, end);
    }
    if end < n { Some(end) } else { None }
}
