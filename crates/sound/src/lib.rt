// Whether bytes are a table file.
#![tactic(auto)]

ghost use Rattle.std.specs.Prelude.{◌≡◌, [], ◌∷◌, not, ◌≤◌, length, IfOk};
ghost use Rattle.meaning.specs.File.{symbol_count_lem, pair_count_lem, total, arities_in, pairs_in};
ghost use Rattle.meaning.specs.Refusals.{row, at0, row1_offsets, row3, row4, first, table_rows};
ghost use Rattle.sound.specs.Found.{found};

use pairs::bad_pair;
use pairs::in_bytes::InBytes;
use refusal::Refusal;
use table::number::number_at;
use table::rules::{allowed, high_arity};
use table::sound_table::SoundTable;

// Whether the offsets and the total are what the counts ask for, and the file has that length.
#[tactic(auto, using(table::proofs::Pairs::number_small), unfolding(meaning::specs::Refusals::row1_offsets))]
fn well_placed(file: &[u8], symbols: usize, pairs: usize) -> bool
    requires { (10 ≤ length file.now) × (symbols ≡ symbol_count_lem file.now) × (pairs ≡ pair_count_lem file.now) }
    ensures { row1_offsets file.now ≡ row 1 (at0 (not result)) }
{
    let total = 10 + symbols + 6 * pairs;
    if number_at(file, 4) != 10 || number_at(file, 6) as usize != 10 + symbols {
        return false;
    }
    if number_at(file, 8) as usize != total {
        return false;
    }
    total == file.len()
}

// Whether the arities and the pairs keep the rules, in a file that is laid out as its counts ask for. A place in a list fits 16 bits since the
// list's count, as read, does.
fn check_lists(file: &[u8], symbols: usize, pairs: usize) -> Result<(), Refusal>
    requires { (symbols ≡ symbol_count_lem file.now) × (pairs ≡ pair_count_lem file.now) × (total symbols pairs ≤ length file.now) }
    ensures { found result ≡ first (row3 (arities_in file.now) ∷ row4 (arities_in file.now) (pairs_in file.now) ∷ []) }
{
    let arities = &file[10..10 + symbols];
    if let Some(symbol) = high_arity(arities) {
        return Err(Refusal::Arity(symbol as u16));
    }
    let listed = InBytes {
        bytes: file,
        from: 10 + symbols,
        pairs,
    };
    if let Some(pair) = bad_pair(arities, &listed) {
        return Err(Refusal::Pair(pair as u16));
    }
    Ok(())
}

// The table that the bytes are, or else the first of the refusals 1 to 4.
#[tactic(auto, using(table::proofs::Rows::placed_length), unfolding(meaning::specs::Refusals::table_rows, meaning::specs::Refusals::row1_short))]
pub fn check<'a>(file: &'a [u8]) -> Result<SoundTable<'a>, Refusal>
    ensures checked { found result ≡ first (table_rows file.entry.now) }
    ensures same_file { IfOk result (λ table. table.file.now ≡ file.entry.now) }
{
    if file.len() < 10 {
        return Err(Refusal::Layout);
    }
    let symbols = number_at(file, 0) as usize;
    let pairs = number_at(file, 2) as usize;
    if !allowed(symbols, pairs) {
        return Err(Refusal::Counts);
    }
    if !well_placed(file, symbols, pairs) {
        return Err(Refusal::Layout);
    }
    check_lists(file, symbols, pairs)?;
    Ok(SoundTable::new(file))
}
