// Numbers of two bytes, low byte first.
ghost use Rattle.std.specs.Prelude.{◌≡◌, ◌+◌, ◌<◌, length};
ghost use Rattle.meaning.specs.File.{number};

pub fn number_at(bytes: &[u8], i: usize) -> u16
    requires { i + 1 < length bytes.now }
    ensures { result ≡ number bytes.now i }
{
    u16::from_le_bytes([bytes[i], bytes[i + 1]])
}
