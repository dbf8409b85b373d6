// A list that was tested, and the number of a string in it: sought by halving where the strings rise, and by one walk in any other list.
ghost use Rattle.std.specs.Prelude.{◌≡◌, true, length};
ghost use Rattle.std.proofs.Math.Option.{none};
ghost use Rattle.theory.specs.Least.{least_below};
ghost use Rattle.meaning.specs.Refusals.{row};
ghost use Rattle.marc.specs.Known.{number_in, row19};
ghost use Rattle.table.specs.Places.{place_in};
ghost use Rattle.known_strings.specs.Lent.{is_string, listed, Rising};

use crate::compare::compare;
use crate::list::KnownStrings;
use std::cmp::Ordering;

// No entry is bad; `rising` says that each string stands before the next.
#[derive(Clone, Copy)]
pub struct Tested<'a> {
    pub known: KnownStrings<'a>,
    // the number of absent dates
    pub absent: u16,
    pub rising: bool,
    pub ghost none_bad: { row19 (listed known) absent ≡ row 19 none },
    pub ghost rises: { rising ≡ true → Rising known },
}

// By halving: what is below `low` stands before the string, what is from `high` on stands after it.
fn halve(known: KnownStrings, string: &[u8]) -> Option<usize>
    requires { Rising known }
    ensures { place_in result ≡ least_below (length (listed known.entry)) (is_string known.entry.text.now known.entry.ends.now string.now) }
{
    let mut low: usize = 0;
    let mut high = known.len();
    while low < high {
        let middle = low + (high - low) / 2;
        match compare(known.string(middle), string) {
            Ordering::Less => {
                low = middle + 1;
            }
            Ordering::Equal => {
                return Some(middle);
            }
            Ordering::Greater => {
                high = middle;
            }
        }
    }
    None
}

impl<'a> Tested<'a> {
    // Where a string is listed first.
    fn place_of(self, string: &[u8]) -> Option<usize>
        ensures { place_in result ≡ least_below (length (listed self.entry.known)) (is_string self.entry.known.text.now self.entry.known.ends.now string.now) }
    {
        if self.rising {
            return halve(self.known, string);
        }
        self.known.position(string, self.known.len())
    }

    // The number of a string.
    pub fn number_of(self, string: &[u8]) -> Option<u16>
        ensures { place_in result ≡ number_in (listed self.entry.known) string.now }
    {
        let place = self.place_of(string)?;
        Some(self.known.numbers[place])
    }
}
