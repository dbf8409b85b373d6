// Where one string of bytes stands by another: byte by byte, and one that ends first stands first; and whether both are the same. In a list this is most
// of the work, and the library's comparisons take more for strings that are short or differ early.
ghost use Rattle.std.specs.Prelude.{◌≡◌, ◌+◌, ◌≤◌, length, drop};
ghost use Rattle.marc.specs.Known.{same};
ghost use Rattle.known_strings.specs.Compared.{written_at, ComparedAs};

use std::cmp::Ordering;

// The number that four bytes write, the first the highest: as the bytes stand by others, so do the numbers.
fn four_at(bytes: &[u8], at: usize) -> u32
    requires { at + 4 ≤ length bytes.now }
    ensures { result ≡ written_at bytes.now at 4 }
{
    u32::from_be_bytes([bytes[at], bytes[at + 1], bytes[at + 2], bytes[at + 3]])
}

// Where the first string stands by the second, from a byte on.
fn compare_from(one: &[u8], two: &[u8], from: usize) -> Ordering
    requires { (from ≤ length one.now) × (from ≤ length two.now) }
    ensures { ComparedAs (drop from one.now) (drop from two.now) result }
{
    for k in from..one.len().min(two.len()) {
        let here = one[k].cmp(&two[k]);
        if here.is_ne() {
            return here;
        }
    }
    one.len().cmp(&two.len())
}

// Where the first string stands by the second: four bytes at a time, as far as both have them.
pub fn compare(one: &[u8], two: &[u8]) -> Ordering
    ensures { ComparedAs one.now two.now result }
{
    let fours = one.len().min(two.len()) / 4;
    for i in 0..fours {
        let order = four_at(one, 4 * i).cmp(&four_at(two, 4 * i));
        if order.is_ne() {
            return order;
        }
    }
    compare_from(one, two, 4 * fours)
}

// Whether two strings have the same bytes.
pub fn same_bytes(one: &[u8], two: &[u8]) -> bool
    ensures { result ≡ same one.now two.now }
{
    one.len() == two.len() && compare(one, two).is_eq()
}
