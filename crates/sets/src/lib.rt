// Sets of symbols as words of bits, made, asked and combined by value.
//
// Contracts speak of members, but where words are read from a list or put into one. That the words themselves follow from the members is `same_set` of proofs/Laws.
#![tactic(auto)]

ghost use Rattle.std.specs.Prelude.{◌≡◌, true, false, ◌&&◌, ◌||◌, ◌↔◌, ℕ, ◌+◌, ◌≤◌, ◌<◌, eqb, length, get_or};
ghost use Rattle.meaning.specs.Limits.{set_words_lem, set_room};
ghost use Rattle.meaning.specs.Over.{over};
ghost use Rattle.meaning.specs.Buffers.{member};
ghost use Rattle.sets.specs.Words.{NextBelow};

// A set of symbols: the first word tells of the first symbols, from its lowest bit up, and each word goes on from the one before.
#[repr(C)]
#[derive(Clone, Copy)]
pub struct SymbolSet {
    pub words: [u64; SymbolSet::WORDS],
}

impl SymbolSet {
    // How many words a set has.
    pub const WORDS: usize = 8;

    // How many symbols a word tells of.
    pub const BITS: u16 = 64;

    // How many symbols a set has room for.
    pub const ROOM: u16 = SymbolSet::WORDS as u16 * SymbolSet::BITS;

    // The set of no symbol.
    pub fn empty() -> SymbolSet
        ensures { (k : ℕ) → member result.words k ≡ false }
    {
        SymbolSet {
            words: [0u64; SymbolSet::WORDS],
        }
    }

    // The symbols that are in both sets.
    pub fn intersect(self, other: SymbolSet) -> SymbolSet
        ensures { (k : ℕ) → member result.words k ≡ (member self.words k && member other.words k) }
    {
        let mut words = self.words;
        let others = other.words;
        for (i, word) in words.iter_mut().enumerate() {
            *word &= others[i];
        }
        SymbolSet { words }
    }

    // The set whose words a list has from index `at` on, read one by one: the library's copy tests for overlap, which takes as long as eight words.
    pub fn read(list: &[u64], at: usize) -> SymbolSet
        requires { at + set_words_lem ≤ length list.now }
        ensures { (w : ℕ) → w < set_words_lem → get_or result.words w 0 ≡ get_or list.now (at + w) 0 }
    {
        let mut words = [0u64; SymbolSet::WORDS];
        for j in 0..SymbolSet::WORDS {
            words[j] = list[at + j];
        }
        SymbolSet { words }
    }

    // Puts the set's words into a list, from index `at` on.
    pub fn put(self, list: &mut [u64], at: usize)
        requires { at + set_words_lem ≤ length list.old }
        ensures { list.new ≡ over list.old at self.words }
    {
        let words = self.words;
        for w in 0..SymbolSet::WORDS {
            list[at + w] = words[w];
        }
    }

    // The symbols of the set that are below `end`, rising. The words are lent, so that a loop over the symbols copies none.
    pub fn members(&self, end: u16) -> Members<'_>
        requires { end ≤ set_room }
        ensures { (result.words.now ≡ self.now.words) × (result.from ≡ 0) × (result.end ≡ end) }
    {
        Members {
            words: &self.words,
            from: 0,
            end,
        }
    }

    // The least symbol of the set that is not below `from`, as `next_member` says, for who asks from some symbol on.
    pub fn next(self, from: u16, end: u16) -> u16
        requires { (from ≤ set_room) × (end ≤ set_room) }
        ensures { NextBelow set_words_lem self.words from end result }
    {
        next_member(&self.words, from, end)
    }

    // Whether the set has no symbol.
    pub fn is_empty(self) -> bool
        ensures { (result ≡ true) ↔ ((k : ℕ) → member self.words k ≡ false) }
    {
        self.words == [0u64; SymbolSet::WORDS]
    }
}

// Puts symbol k into a set. The words are lent, so that one bit is set where it stands, at the same cost however many words a set has.
pub fn insert(words: &mut [u64], k: u16)
    requires { (k < set_room) × (set_words_lem ≤ length words.old) }
    ensures { (j : ℕ) → member words.new j ≡ (member words.old j || eqb j k) }
{
    let at = (k / SymbolSet::BITS) as usize;
    words[at] |= 1u64 << (k % SymbolSet::BITS);
}

// The symbols of a set that are not below `from` and below `end`, rising.
#[derive(Clone, Copy)]
pub struct Members<'a> {
    words: &'a [u64; SymbolSet::WORDS],
    from: u16,
    end: u16,
    ghost in_room: { (from ≤ set_room) × (end ≤ set_room) },
}

impl<'a> Iterator for Members<'a> {
    ghost use Rattle.sets.specs.Members.{GivesLeast, at_most_left};

    type Item = u16;

    ghost next_gives = { GivesLeast };

    ghost remaining = { at_most_left };

    fn next(&mut self) -> Option<u16> {
        let k = next_member(self.words, self.from, self.end);
        if k >= self.end {
            return None;
        }
        self.from = k + 1;
        Some(k)
    }
}

// The least symbol of a set that is not below `from`, or some number that is not below `end` where none is below that. Words past the end
// are not looked at, so that the symbols of a small table cost no more than they are.
pub fn next_member(words: &[u64; SymbolSet::WORDS], from: u16, end: u16) -> u16
    requires { (from ≤ set_room) × (end ≤ set_room) }
    ensures { NextBelow set_words_lem words.now from end result }
{
    let mut k = from;
    while k < end {
        let rest = words[(k / SymbolSet::BITS) as usize] >> (k % SymbolSet::BITS);
        if rest != 0 {
            return k + rest.trailing_zeros() as u16;
        }
        k = (k / SymbolSet::BITS + 1) * SymbolSet::BITS;
    }
    k
}
