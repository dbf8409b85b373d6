// The call on an exchange record.
ghost use Rattle.std.specs.Prelude.{◌≡◌};
ghost use Rattle.exchange.specs.Said.{told};
ghost use Rattle.capi.specs.Marc.{wide_code_lem, ShxMarcHeading};

use exchange::{Fault, read_heading};

// the highest place that 48 bits tell
const HIGHEST_PLACE: u64 = 281474976710655;

// A refusal as one number of 64 bits: the place has the high 48. A place that is higher yet, in a list with more entries than fit any memory,
// is told as the highest.
fn wide_code(why: Fault) -> u64
    ensures { result ≡ wide_code_lem (told why) }
{
    let number = why.number() as u64;
    let place = (why.place() as u64).min(HIGHEST_PLACE);
    number + 65536 * place
}

// The heading of an exchange record, by the strings that are known: the heading symbol, and the numbers of the name and the dates.
#[unsafe(no_mangle)]
pub extern "C" fn shx_marc_heading(
    bytes: &[u8],
    text: &[u8],
    ends: &[u32],
    numbers: &[u16],
    heading: u16,
    absent: u16,
    nodes: &mut [u16],
) -> u64
    ensures { ShxMarcHeading bytes.now text.now ends.now numbers.now heading absent nodes.old result nodes.new }
{
    match read_heading(bytes, text, ends, numbers, heading, absent, nodes) {
        Ok(()) => 0,
        Err(why) => wide_code(why),
    }
}
