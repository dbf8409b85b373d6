// The bytes of a table file, laid over what was there part by part.
#![tactic(auto)]

ghost use Rattle.std.specs.Prelude.{◌≡◌, ◌+◌, ◌*◌, ◌≤◌, length};
ghost use Rattle.meaning.specs.Limits.{most_symbols, most_pairs};
ghost use Rattle.meaning.specs.File.{bytes_of, header};
ghost use Rattle.meaning.specs.Over.{over};
ghost use Rattle.layout.specs.Bytes.{numbers_bytes};

// A number's two bytes, the low one first.
pub fn put_number(output: &mut [u8], at: usize, n: u16)
    requires { at + 2 ≤ length output.old }
    ensures { output.new ≡ over output.old at (bytes_of n) }
{
    output[at..at + 2].copy_from_slice(&n.to_le_bytes());
}

pub fn put_header(output: &mut [u8], symbols: usize, pairs: usize)
    requires { (symbols ≤ most_symbols) × (pairs ≤ most_pairs) × (10 ≤ length output.old) }
    ensures { output.new ≡ over output.old 0 (header symbols pairs) }
{
    let pairs_at = 10 + symbols;
    let total = pairs_at + 6 * pairs;
    put_numbers(
        output,
        0,
        &[
            symbols as u16,
            pairs as u16,
            10,
            pairs_at as u16,
            total as u16,
        ],
    );
}

// The arities behind the header, one by one: for a copy of them all the library for C would want memmove from outside.
pub fn put_arities(output: &mut [u8], arities: &[u8])
    requires { 10 + length arities.now ≤ length output.old }
    ensures { output.new ≡ over output.old 10 arities.now }
{
    for (i, arity) in arities.iter().enumerate() {
        output[10 + i] = *arity;
    }
}

// Every number, one behind the other from `at` on.
pub fn put_numbers(output: &mut [u8], at: usize, numbers: &[u16])
    requires { at + 2 * length numbers.now ≤ length output.old }
    ensures { output.new ≡ over output.old at (numbers_bytes numbers.now) }
{
    for (i, n) in numbers.iter().enumerate() {
        put_number(output, at + 2 * i, *n);
    }
}
