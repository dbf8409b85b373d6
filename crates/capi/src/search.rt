// The match.
ghost use Rattle.capi.specs.Matching.{ShxMatch};

use crate::answer::refused;
use matches::match_heading;

// The match, with its degrees; 0 and 0 where it is refused.
#[unsafe(no_mangle)]
pub extern "C" fn shx_match(
    table: &[u8],
    pattern: &[u16],
    heading: &[u16],
    cut: u16,
    spans: &mut [u16],
    sets: &mut [u64],
    lowest: &mut u16,
    highest: &mut u16,
) -> u32
    ensures { ShxMatch table.now pattern.now heading.now cut spans.old sets.old result spans.new sets.new lowest.new highest.new }
{
    match match_heading(table, pattern, heading, cut, spans, sets) {
        Ok(degrees) => {
            *lowest = degrees.lowest;
            *highest = degrees.highest;
            0
        }
        Err(why) => {
            *lowest = 0;
            *highest = 0;
            refused(why)
        }
    }
}
