// Where the term that begins at an index ends.
ghost use Rattle.std.specs.Prelude.{◌≡◌, true, ◌<◌, ◌≤◌, length};
ghost use Rattle.theory.specs.Read.{walk, ends};
ghost use Rattle.meaning.specs.File.{table_in};
ghost use Rattle.terms.specs.Ends.{EndsIn};

use table::sound_table::SoundTable;

// Where the subterm that begins at an index ends, whether variables stand in it or not. A node is the first of one of the terms that are to
// come, and its arguments come in that one's place, so the subterm ends where none is to come any more.
pub fn end_from(table: SoundTable, list: &[u16], at: usize) -> usize
    requires { EndsIn (table_in table.file.now) true list.now at }
    ensures at_value { walk (table_in table.entry.file.now) true list.now 64 at ≡ ends result }
    ensures lower_bound { (at < result) × (result ≤ length list.now) }
{
    let mut to_come: usize = 1;
    let mut end = at;
    while to_come > 0 {
        let node = list[end];
        end += 1;
        to_come -= 1;
        if node < table.symbols {
            to_come += table.arity(node) as usize;
        }
    }
    end
}
