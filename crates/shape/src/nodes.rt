// The nodes of the pattern and the heading, as numbers.
ghost use Rattle.std.specs.Prelude.{◌≡◌, ◌++◌, ◌+◌, ◌*◌, ◌≤◌, min, length, drop};
ghost use Rattle.meaning.specs.Program.{numbers_from};

use table::number::number_at;

// Copies so many numbers, which stand from byte `at` on, to the front of `out`, or as many as it has room for; answers how many.
pub fn copy_nodes(input: &[u8], at: usize, count: usize, out: &mut [u16]) -> usize
    requires { at + 2 * count ≤ length input.now }
    ensures { (result ≡ min count (length out.old)) × (out.new ≡ numbers_from input.now at result ++ drop result out.old) }
{
    let copied = count.min(out.len());
    for (i, node) in out[..copied].iter_mut().enumerate() {
        *node = number_at(input, at + 2 * i);
    }
    copied
}
