// Whether a list is a term.
ghost use Rattle.std.specs.Prelude.{◌≡◌, length};
ghost use Rattle.theory.specs.Read.{reading};
ghost use Rattle.meaning.specs.File.{table_in};
ghost use Rattle.terms.specs.Readings.{reading_in};
ghost use Rattle.terms.specs.Levels.{StayOpen, up_to};

use crate::head::head_of;
use table::sound_table::SoundTable;

// The most nodes that a term has.
const MOST_NODES: u16 = 1024;

// The most levels that it has, and so the most around one of them.
const MOST_DEPTH: usize = 64;

const MOST_AROUND: usize = MOST_DEPTH - 1;

// The innermost level that is still open: on those further in nothing is left to be read.
fn innermost_open(levels: &[u8]) -> Option<usize>
    ensures { StayOpen levels.now (length levels.now) (up_to result) }
{
    levels.iter().rposition(|left| *left > 0)
}

// The whole list, read as a term in one pass, or else the node of its first fault. `here` is how many subterms are still to be read on the level at
// hand, and the first `depth` numbers of `outer` are how many on each level around it. A node is one subterm of its level, and opens a level for its
// arguments.
pub fn read(table: SoundTable, variables: bool, list: &[u16]) -> Result<(), u16>
    ensures { reading_in result ≡ reading (table_in table.entry.file.now) variables list.now }
{
    if list.len() > MOST_NODES as usize {
        return Err(MOST_NODES);
    }
    let mut outer = [0u8; MOST_DEPTH];
    let mut depth: usize = 0;
    let mut here: u8 = 1;
    for (at, node) in list.iter().enumerate() {
        let arguments = head_of(table, variables, *node).ok_or(at as u16)?;
        let next = at + 1;
        here -= 1;
        if arguments > 0 {
            if depth == MOST_AROUND {
                return Err(next as u16);
            }
            outer[depth] = here;
            depth += 1;
            here = arguments;
        } else if here == 0 {
            let Some(innermost) = innermost_open(&outer[..depth]) else {
                return if next == list.len() {
                    Ok(())
                } else {
                    Err(next as u16)
                };
            };
            depth = innermost;
            here = outer[innermost];
        }
    }
    Err(list.len() as u16)
}
