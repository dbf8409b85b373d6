// Zeros to the end of a buffer.
ghost use Rattle.std.specs.Prelude.{◌≡◌, ◌++◌, ◌-◌, ◌≤◌, length, take};
ghost use Rattle.meaning.specs.Calls.{zeros};

// So many words are cleared at a time: the C library lays that much by wide stores, and more byte by byte.
const PART: usize = 256;

pub fn clear_words(out: &mut [u64], from: usize)
    requires { from ≤ length out.old }
    ensures { out.new ≡ take from out.old ++ zeros (length out.old - from) }
{
    let mut at = from;
    while at < out.len() {
        let end = out.len().min(at + PART);
        out[at..end].fill(0);
        at = end;
    }
}
