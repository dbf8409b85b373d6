// Answers that were saved when a set had four words. Only their sets have to change: each becomes one of today, with zeros in its further words.
#![tactic(auto)]

ghost use Rattle.std.specs.Prelude.{◌≡◌, ◌+◌, ◌*◌, ◌≤◌, ◌<◌, length, get_or};
ghost use Rattle.meaning.specs.Limits.{set_words_lem};
ghost use Rattle.meaning.specs.Saved.{saved_words, widened_set};
ghost use Rattle.saved.specs.Widening.{Widen};

use refusal::Refusal;
use sets::SymbolSet;

// How many words a set had then, and how many times as many it has now.
const SAVED_WORDS: usize = 4;

const TIMES: usize = SymbolSet::WORDS / SAVED_WORDS;

// Word w, as it is today, of the set that was saved at a position. Words go one by one, which the compiler joins with their storing; a copy of four
// takes twice as long.
#[tactic(auto, using(crate::proofs::Widening::word_saved, crate::proofs::Widening::word_new))]
fn saved_word(words: &[u64], position: usize, w: usize) -> u64
    requires { (saved_words * (position + 1) ≤ length words.now) × (w < set_words_lem) }
    ensures { result ≡ get_or (widened_set words.now position) w 0 }
{
    if w < SAVED_WORDS {
        words[SAVED_WORDS * position + w]
    } else {
        0
    }
}

// The set that was saved at a position.
fn saved_set(words: &[u64], position: usize) -> SymbolSet
    requires { saved_words * (position + 1) ≤ length words.now }
    ensures { result.words ≡ widened_set words.now position }
{
    let mut set = [0u64; SymbolSet::WORDS];
    for w in 0..SymbolSet::WORDS {
        set[w] = saved_word(words, position, w);
    }
    SymbolSet { words: set }
}

// Puts the sets of a saved answer, as they are today, to the front of the output; or leaves the output as it was.
pub fn widen(words: &[u64], output: &mut [u64]) -> Result<usize, Refusal>
    ensures { Widen words.now output.old result output.new }
{
    // a set lacks a word
    if words.len() % SAVED_WORDS != 0 {
        return Err(Refusal::Room);
    }
    if output.len() / TIMES < words.len() {
        return Err(Refusal::Room);
    }
    for position in 0..words.len() / SAVED_WORDS {
        saved_set(words, position).put(output, SymbolSet::WORDS * position);
    }
    Ok(TIMES * words.len())
}
