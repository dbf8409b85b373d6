// The table writer on pair records: their numbers are copied to a list, and the writer on numbers does the rest. So the functions here decide
// nothing but how much room the list has.
#![tactic(auto)]

ghost use Rattle.std.specs.Prelude.{◌≡◌, [], ◌∷◌, ◌+◌, ◌*◌, ◌≤◌, length, take};
ghost use Rattle.meaning.specs.Limits.{most_pairs};
ghost use Rattle.meaning.specs.File.{numbers_of_lem};
ghost use Rattle.meaning.specs.Over.{over};
ghost use Rattle.records.specs.Records.{listed, WriteRecords};

use refusal::Refusal;
use table::read::Pair;
use table::rules::MOST_PAIRS;
use writer::write_first;

// So many of the pairs fit into so much room, three numbers each.
fn fitting(room: usize, pairs: usize) -> usize
    ensures { (result ≤ pairs) × (3 * result ≤ room) × (3 * pairs ≤ room → result ≡ pairs) }
{
    pairs.min(room / 3)
}

// A pair's three numbers, from number `at` on.
fn put_three(numbers: &mut [u16], at: usize, pair: Pair)
    requires { at + 3 ≤ length numbers.old }
    ensures { numbers.new ≡ over numbers.old at (pair.lower ∷ pair.higher ∷ pair.degree ∷ []) }
{
    numbers[at..at + 3].copy_from_slice(&[pair.lower, pair.higher, pair.degree]);
}

// The numbers of the first `count` records, one behind the other.
fn copy_records(numbers: &mut [u16], pairs: &[Pair], count: usize)
    requires { (count ≤ length pairs.now) × (3 * count ≤ length numbers.old) }
    ensures { numbers.new ≡ over numbers.old 0 (numbers_of_lem (take count (listed pairs.now))) }
{
    for (k, pair) in pairs[..count].iter().enumerate() {
        put_three(numbers, 3 * k, *pair);
    }
}

// The table file of these arities and pairs, as `write_records` has it, by way of a list of numbers that is lent for it.
fn write_by(
    numbers: &mut [u16],
    arities: &[u8],
    pairs: &[Pair],
    output: &mut [u8],
) -> Result<usize, Refusal>
    requires { length pairs.now ≤ most_pairs → 3 * length pairs.now ≤ length numbers.old }
    ensures { WriteRecords arities.now pairs.now output.old result output.new }
{
    let count = fitting(numbers.len(), pairs.len());
    copy_records(numbers, pairs, count);
    write_first(arities, numbers, pairs.len(), output)
}

// Up to so many pairs have a small list: to fill the large one takes as long as to test three hundred pairs.
const FEW: usize = 256;

// The table file of these arities and pairs, written to the front of the output; or a refusal, and the output as it was. (The lists are filled
// with 1s, 16 bytes at a time; zeros the compiler would leave to the C library, which may take them byte by byte.)
pub fn write_records(arities: &[u8], pairs: &[Pair], output: &mut [u8]) -> Result<usize, Refusal>
    ensures { WriteRecords arities.now pairs.now output.old result output.new }
{
    if pairs.len() <= FEW {
        let mut numbers = [1u16; 3 * FEW];
        return write_by(&mut numbers, arities, pairs, output);
    }
    let mut numbers = [1u16; 3 * MOST_PAIRS];
    write_by(&mut numbers, arities, pairs, output)
}
