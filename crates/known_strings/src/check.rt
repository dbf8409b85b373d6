// The test of a list: which entry may not be listed, and whether the strings rise. Where they do none stands twice, and only the numbers are tested.
ghost use Rattle.std.specs.Prelude.{◌≡◌, true, ◌≤◌, eqb, length, get_or};
ghost use Rattle.theory.specs.Least.{least_below};
ghost use Rattle.meaning.specs.Refusals.{row};
ghost use Rattle.marc.specs.Known.{row19};
ghost use Rattle.table.specs.Places.{place_in};
ghost use Rattle.known_strings.specs.Lent.{listed, Rising};
ghost use Rattle.known_strings.specs.Checks.{CheckedAs};

use crate::bad::bad_entry;
use crate::compare::compare;
use crate::list::KnownStrings;
use crate::tested::Tested;

// Whether each string stands before the next. Inlined into its caller the loop would spill its variables.
#[inline(never)]
fn rises(known: KnownStrings) -> bool
    ensures { result ≡ true → Rising known.entry }
{
    let mut last: &[u8] = &[];
    for j in 0..known.len() {
        let next = known.string(j);
        if 0 < j && compare(last, next).is_ge() {
            return false;
        }
        last = next;
    }
    true
}

// The first number that is that of absent dates.
fn absent_entry(numbers: &[u16], absent: u16) -> Option<usize>
    ensures { place_in result ≡ least_below (length numbers.now) (λ j. eqb (get_or numbers.now j 0) absent) }
{
    numbers.iter().position(|&number| number == absent)
}

// The first entry that is bad.
fn first_bad(known: KnownStrings, absent: u16, rising: bool) -> Option<usize>
    requires { rising ≡ true → Rising known }
    ensures { row19 (listed known.entry) absent ≡ row 19 (place_in result) }
{
    let n = known.len();
    if rising {
        return absent_entry(&known.numbers[..n], absent);
    }
    bad_entry(known, absent, n)
}

// What is to be said of a list: its first bad entry, or else whether its strings rise.
pub fn check_list<'a>(known: KnownStrings<'a>, absent: u16) -> Result<Tested<'a>, usize>
    ensures { CheckedAs known.entry.text.now known.entry.ends.now known.entry.numbers.now absent result }
{
    let rising = rises(known);
    match first_bad(known, absent, rising) {
        Some(entry) => Err(entry),
        None => Ok(Tested {
            known,
            absent,
            rising,
        }),
    }
}
