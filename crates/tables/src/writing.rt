// The table writer on numbers.
ghost use Rattle.tables.specs.Writing.{WriteTable};

use refusal::Refusal;
use writer::write;

// Writes the file of these arities and pairs, three numbers to a pair, to the front of the output; or leaves the output as it was.
pub fn write_table(arities: &[u8], pairs: &[u16], output: &mut [u8]) -> Result<usize, Refusal>
    ensures { WriteTable arities.now pairs.now output.old result output.new }
{
    write(arities, pairs, output)
}
