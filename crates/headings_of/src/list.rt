// The list that records are read by.
ghost use Rattle.std.specs.Prelude.{◌≡◌};
ghost use Rattle.std.specs.Result.{ForOk, ForErr};
ghost use Rattle.std.proofs.Math.Option.{some as just};
ghost use Rattle.meaning.specs.Refusals.{row};
ghost use Rattle.marc.specs.Known.{row19};
ghost use Rattle.known_strings.specs.Lent.{listed};

use known_strings::check::check_list;
use known_strings::list::KnownStrings;
use known_strings::tested::Tested;

// The known strings with the heading symbol and the number of absent dates, and what the list's test says.
#[derive(Clone, Copy)]
pub struct TestedList<'a> {
    pub known: KnownStrings<'a>,
    pub heading: u16,
    pub absent: u16,
    pub tested: Result<Tested<'a>, usize>,
    pub ghost on_this: { ForOk tested (λ t. (t.known.text.now ≡ known.text.now) × (t.known.ends.now ≡ known.ends.now) × (t.known.numbers.now ≡ known.numbers.now) × (t.absent ≡ absent)) },
    pub ghost bad: { ForErr tested (λ entry. row19 (listed known) absent ≡ row 19 (just entry)) },
}

// The list is tested once.
pub fn test_list<'a>(known: KnownStrings<'a>, heading: u16, absent: u16) -> TestedList<'a>
    ensures { (result.known ≡ known.entry) × (result.heading ≡ heading) × (result.absent ≡ absent) }
{
    TestedList {
        known,
        heading,
        absent,
        tested: check_list(known, absent),
    }
}
