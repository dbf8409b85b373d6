// The converter of saved answers.
ghost use Rattle.capi.specs.Saving.{ShxWiden};

use crate::answer::note;
use saved::widen;

// The sets of an answer that was saved when a set had four words, made sets of today at the front of the output.
#[unsafe(no_mangle)]
pub extern "C" fn shx_widen(words: &[u64], output: &mut [u64], written: &mut usize) -> u32
    ensures { ShxWiden words.now output.old written.old result output.new written.new }
{
    note(widen(words, output), written)
}
