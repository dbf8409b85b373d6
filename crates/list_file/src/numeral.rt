// Numbers in decimal, without leading zeros.
ghost use Rattle.std.specs.Prelude.{MatchOption};
ghost use Rattle.list_file.specs.Numerals.{NoNumber, Valued};

// Numbers have 16 bits.
const MOST: usize = 65535;

// The number of 16 bits that some bytes begin with, and what stands behind it, which begins with a byte that is no digit.
pub fn read_number<'a>(bytes: &'a [u8]) -> Option<(u16, &'a [u8])>
    ensures { MatchOption result (NoNumber bytes.entry.now) (λ read. Valued bytes.entry.now read.0 read.1.now) }
{
    let mut value: usize = 0;
    for (i, byte) in bytes.iter().enumerate() {
        if !byte.is_ascii_digit() {
            return (i > 0).then_some((value as u16, &bytes[i..]));
        }
        if value == 0 && i > 0 {
            return None;
        }
        value = value * 10 + (*byte - b'0') as usize;
        if value > MOST {
            return None;
        }
    }
    None
}
