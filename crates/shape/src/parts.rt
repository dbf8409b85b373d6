// The question file's header: seven numbers of two bytes, the cut first, then the counts of nodes, three offsets and the total.
ghost use Rattle.std.specs.Prelude.{◌≡◌, ◌≤◌, ◌↔◌, IsTrue, length};
ghost use Rattle.meaning.specs.File.{number};
ghost use Rattle.shape.specs.Shapes.{WellPlaced, ShapedBy};

use table::number::number_at;

#[derive(Clone, Copy)]
pub struct Header {
    pub cut: u16,
    // how many nodes the pattern and the heading have
    pub pattern: u16,
    pub heading: u16,
}

// Whether the offsets and the total are what the counts of nodes ask for. A sum may be above 65,535, so they are compared as whole numbers.
fn well_placed(input: &[u8], pattern: usize, heading: usize) -> bool
    requires in_bounds { (14 ≤ length input.now) × (length input.now ≤ 65535) }
    requires pattern_value { (pattern ≡ number input.now 2) × (heading ≡ number input.now 4) }
    ensures { IsTrue result ↔ WellPlaced input.now }
{
    let heading_at = 14 + 2 * pattern;
    let table_at = heading_at + 2 * heading;
    number_at(input, 6) == 14
        && number_at(input, 8) as usize == heading_at
        && number_at(input, 10) as usize == table_at
        && number_at(input, 12) as usize == input.len()
        // what is left is the table, which may have no bytes
        && table_at <= input.len()
}

// The header, unless the question is misshapen.
pub fn take_apart(input: &[u8]) -> Option<Header>
    ensures { ShapedBy input.now result }
{
    if input.len() > 65535 || input.len() < 14 {
        return None;
    }
    let pattern = number_at(input, 2);
    let heading = number_at(input, 4);
    if !well_placed(input, pattern as usize, heading as usize) {
        return None;
    }
    Some(Header {
        cut: number_at(input, 0),
        pattern,
        heading,
    })
}
