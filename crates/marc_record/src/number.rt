// Numbers in decimal digits.
ghost use Rattle.std.specs.Prelude.{◌≤◌, length};
ghost use Rattle.marc_record.specs.Numbers.{NumberBy};

// The number that some bytes write; none where one of them is no digit.
pub fn number(bytes: &[u8]) -> Option<usize>
    requires { length bytes.now ≤ 5 }
    ensures { NumberBy bytes.now result }
{
    let mut number = 0;
    for byte in bytes {
        if !byte.is_ascii_digit() {
            return None;
        }
        number = number * 10 + (*byte - b'0') as usize;
    }
    Some(number)
}
