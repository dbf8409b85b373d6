// The memory that an answer needs.
ghost use Rattle.std.specs.Prelude.{◌≡◌};
ghost use Rattle.shape.specs.Rooms.{room_for};

use sets::SymbolSet;
use table::number::number_at;

// One node more than a list may have, so that a list that is too long still is when it is cut.
pub const LONGEST: usize = 1025;

// Words for the sets of any answer.
pub const MOST_ROOM: usize = SymbolSet::WORDS * LONGEST;

// How many words the sets of a question's answer need.
pub fn room_for(input: &[u8]) -> usize
    ensures { result ≡ room_for input.now }
{
    if input.len() < 14 {
        return 0;
    }
    SymbolSet::WORDS * (number_at(input, 4) as usize).min(LONGEST)
}
