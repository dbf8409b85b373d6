// The list as it is lent: all strings one behind the other, where each ends, and the numbers.
ghost use Rattle.std.specs.Prelude.{◌≡◌, ◌≤◌, ◌<◌, length};
ghost use Rattle.theory.specs.Least.{least_below};
ghost use Rattle.table.specs.Places.{place_in};
ghost use Rattle.known_strings.specs.Lent.{begin_of_lem, part_in, string_in, is_string, listed};

use crate::compare::same_bytes;

#[derive(Clone, Copy)]
pub struct KnownStrings<'a> {
    pub text: &'a [u8],
    pub ends: &'a [u32],
    pub numbers: &'a [u16],
}

// The bytes of a text from one place to another: what lies behind its last byte is not there, and an end below its beginning gives the empty string.
fn part<'a>(text: &'a [u8], start: usize, end: usize) -> &'a [u8]
    ensures { result.now ≡ part_in text.now start end }
{
    let end = end.min(text.len());
    &text[start.min(end)..end]
}

impl<'a> KnownStrings<'a> {
    // How many strings are listed: the shorter of the two lists counts.
    pub fn len(self) -> usize
        ensures { (result ≤ length self.entry.ends.now) × (result ≤ length self.entry.numbers.now) × (length (listed self.entry) ≡ result) }
    {
        self.ends.len().min(self.numbers.len())
    }

    // Where string j begins.
    fn begin_of(self, j: usize) -> usize
        requires { j < length self.ends.now }
        ensures { result ≡ begin_of_lem self.entry.ends.now j }
    {
        if j == 0 {
            return 0;
        }
        self.ends[j - 1] as usize
    }

    // String j.
    #[tactic(auto, unfolding(crate::specs::Lent::string_in))]
    pub fn string(self, j: usize) -> &'a [u8]
        requires { j < length self.ends.now }
        ensures { result.now ≡ string_in self.entry.text.now self.entry.ends.now j }
    {
        part(self.text, self.begin_of(j), self.ends[j] as usize)
    }

    // The first of the first n strings that has these bytes. Where one ends the next begins, so that no end is read twice.
    pub fn position(self, string: &[u8], n: usize) -> Option<usize>
        requires { n ≤ length self.ends.now }
        ensures { place_in result ≡ least_below n (is_string self.entry.text.now self.entry.ends.now string.now) }
    {
        let mut start = 0;
        for (j, end) in self.ends[..n].iter().enumerate() {
            let end = *end as usize;
            if same_bytes(part(self.text, start, end), string) {
                return Some(j);
            }
            start = end;
        }
        None
    }
}
