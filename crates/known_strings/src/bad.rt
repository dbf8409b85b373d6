// Which entry of a list in any order may not be listed: its string was listed before, or its number is that of absent dates.
ghost use Rattle.std.specs.Prelude.{◌≡◌, ◌≤◌, ◌<◌, length};
ghost use Rattle.theory.specs.Least.{least_below};
ghost use Rattle.table.specs.Places.{place_in};
ghost use Rattle.known_strings.specs.Lent.{listed_above, bad_in};

use crate::chains::bad_of_many;
use crate::list::KnownStrings;

// Up to so many strings are held against each other one by one, which then costs less than to chain them.
const FEW: usize = 24;

// Whether string j was listed before.
fn was_listed(known: KnownStrings, j: usize) -> bool
    requires { j < length known.ends.now }
    ensures { result ≡ listed_above known.entry.text.now known.entry.ends.now j }
{
    known.position(known.string(j), j).is_some()
}

// Whether entry j is bad.
fn is_bad(known: KnownStrings, absent: u16, j: usize) -> bool
    requires { (j < length known.ends.now) × (j < length known.numbers.now) }
    ensures { result ≡ bad_in known.entry.text.now known.entry.ends.now known.entry.numbers.now absent j }
{
    was_listed(known, j) || known.numbers[j] == absent
}

// The first of a few entries that is bad: each string is held against all before it.
fn bad_of_few(known: KnownStrings, absent: u16, n: usize) -> Option<usize>
    requires { (n ≤ length known.ends.now) × (n ≤ length known.numbers.now) }
    ensures { place_in result ≡ least_below n (bad_in known.entry.text.now known.entry.ends.now known.entry.numbers.now absent) }
{
    (0..n).find(|&j| is_bad(known, absent, j))
}

// The first of n entries that is bad.
pub fn bad_entry(known: KnownStrings, absent: u16, n: usize) -> Option<usize>
    requires { (n ≤ length known.ends.now) × (n ≤ length known.numbers.now) }
    ensures { place_in result ≡ least_below n (bad_in known.entry.text.now known.entry.ends.now known.entry.numbers.now absent) }
{
    if n <= FEW {
        return bad_of_few(known, absent, n);
    }
    bad_of_many(known, absent, n)
}
