// The table writer on numbers: it writes the whole file or changes nothing.
#![tactic(auto)]

ghost use Rattle.std.specs.Prelude.{◌≡◌, List, ◌*◌, ◌≤◌, length};
ghost use Rattle.theory.specs.Pairs.{Pair};
ghost use Rattle.meaning.specs.Limits.{most_pairs};
ghost use Rattle.meaning.specs.File.{pairs_of};
ghost use Rattle.meaning.specs.Calls.{written, later_output};
ghost use Rattle.meaning.specs.Refusals.{row, row4};
ghost use Rattle.writer.specs.Counted.{stop, counted_answer, begun_output};
ghost use Rattle.writer.specs.Laid.{Laid};
ghost use Rattle.writer.specs.Said.{said};

use layout::{put_arities, put_header, put_numbers};
use pairs::bad_pair;
use pairs::in_list::InList;
use refusal::Refusal;
use table::rules::{MOST_PAIRS, allowed, high_arity};

// The file's length for so many pairs, of which the first `sound` may be listed as they stand, and an output with so much room.
#[tactic(auto, using(crate::proofs::Rows::answered_by_rows))]
fn verdict(arities: &[u8], pairs: usize, sound: usize, room: usize) -> Result<usize, Refusal>
    ensures { said result ≡ counted_answer arities.now pairs sound room }
{
    let symbols = arities.len();
    if !allowed(symbols, pairs) {
        return Err(Refusal::Counts);
    }
    if let Some(symbol) = high_arity(arities) {
        return Err(Refusal::Arity(symbol as u16));
    }
    if sound < pairs {
        return Err(Refusal::Pair(sound as u16));
    }
    let total = 10 + symbols + 6 * pairs;
    if room < total {
        return Err(Refusal::Room);
    }
    Ok(total)
}

// Writes the file's front, all but its pairs, or refuses; tells how long the file is. Every refusal is made here, before the first byte is written.
#[tactic(auto, using(crate::proofs::Rows::given_bounds))]
fn begin(arities: &[u8], pairs: usize, sound: usize, output: &mut [u8]) -> Result<usize, Refusal>
    ensures result_value { said result ≡ counted_answer arities.now pairs sound (length output.old) }
    ensures output_after { output.new ≡ begun_output arities.now pairs sound output.old }
{
    let total = verdict(arities, pairs, sound, output.len())?;
    put_header(output, arities.len(), pairs);
    put_arities(output, arities);
    Ok(total)
}

// How many pairs, from the first on, may be listed as they stand. A last pair that is not whole has no degree and so may not: it need not be
// looked at.
fn sound_pairs(arities: &[u8], numbers: &[u16]) -> usize
    ensures { row4 arities.now (pairs_of numbers.now) ≡ row 4 (stop result (length (pairs_of numbers.now))) }
{
    let listed = InList { numbers };
    bad_pair(arities, &listed).unwrap_or(numbers.len() / 3)
}

// The table file of these arities and pairs, three numbers to a pair, written to the front of the output, and its length; or a refusal, and the
// output as it was.
pub fn write(arities: &[u8], numbers: &[u16], output: &mut [u8]) -> Result<usize, Refusal>
    ensures result_value { said result ≡ written arities.now (pairs_of numbers.now) output.old }
    ensures output_after { output.new ≡ later_output arities.now (pairs_of numbers.now) output.old }
{
    // a last pair that is not whole is a pair too
    let pairs = numbers.len().div_ceil(3);
    let total = begin(arities, pairs, sound_pairs(arities, numbers), output)?;
    put_numbers(output, 10 + arities.len(), numbers);
    Ok(total)
}

// The same of so many pairs that the list of numbers begins with. Where they are more than a table may have, they need not be there: they are
// refused for their number.
pub fn write_first(
    arities: &[u8],
    numbers: &[u16],
    pairs: usize,
    output: &mut [u8],
) -> Result<usize, Refusal>
    requires { pairs ≤ most_pairs → 3 * pairs ≤ length numbers.now }
    ensures result_value { (ps : List Pair) → length ps ≡ pairs → Laid numbers.now ps → said result ≡ written arities.now ps output.old }
    ensures output_after { (ps : List Pair) → length ps ≡ pairs → Laid numbers.now ps → output.new ≡ later_output arities.now ps output.old }
{
    if pairs > MOST_PAIRS {
        return Err(Refusal::Counts);
    }
    let end = 3 * pairs;
    write(arities, &numbers[..end], output)
}
