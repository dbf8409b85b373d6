// The table writer.
ghost use Rattle.capi.specs.Writing.{ShxWriteTable};

use crate::answer::note;
use records::write_records;
use table::read::Pair;

// The table file of these arities and pairs, written to the front of the output.
#[unsafe(no_mangle)]
pub extern "C" fn shx_write_table(
    arities: &[u8],
    pairs: &[Pair],
    output: &mut [u8],
    total: &mut usize,
) -> u32
    ensures { ShxWriteTable arities.now pairs.now output.old total.old result output.new total.new }
{
    note(write_records(arities, pairs, output), total)
}
