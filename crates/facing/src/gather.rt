// The subterms that face one variable.
ghost use Rattle.std.specs.Prelude.{◌<◌, ◌≤◌, length};
ghost use Rattle.meaning.specs.Limits.{variable_count};
ghost use Rattle.facing.specs.Gathering.{GatheredBy};
ghost use Rattle.facing.specs.Notes.{numbers_of};

use crate::notes::Note;
use terms::kind::FIRST_VARIABLE;

// Gathers the notes of the subterms that face variable v, one behind the other; answers how many there are.
pub fn gather(pattern: &[u16], notes: &[Note], v: u16, own: &mut [Note]) -> usize
    requires { (v < variable_count) × (length pattern.now ≤ length notes.now) × (length pattern.now ≤ length own.old) }
    ensures { GatheredBy pattern.now (numbers_of notes.now) v result (numbers_of own.new) }
{
    let wanted = FIRST_VARIABLE + v;
    let mut count: usize = 0;
    for (i, node) in pattern.iter().enumerate() {
        if *node == wanted {
            own[count] = notes[i];
            count += 1;
        }
    }
    count
}
