// A pair as six bytes hold it.
ghost use Rattle.std.specs.Prelude.{◌≡◌, ◌+◌, ◌<◌, length};
ghost use Rattle.meaning.specs.File.{pair_at};
ghost use Rattle.table.specs.Read.{pair_in};

use crate::number::number_at;

// Two symbols, the lower first, and their degree.
#[repr(C)]
#[derive(Clone, Copy)]
pub struct Pair {
    pub lower: u16,
    pub higher: u16,
    pub degree: u16,
}

// The pair whose bytes start at i.
pub fn pair_from(bytes: &[u8], i: usize) -> Pair
    requires { i + 5 < length bytes.now }
    ensures { pair_in result ≡ pair_at bytes.now i }
{
    Pair {
        lower: number_at(bytes, i),
        higher: number_at(bytes, i + 2),
        degree: number_at(bytes, i + 4),
    }
}
