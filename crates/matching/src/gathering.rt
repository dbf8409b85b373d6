// Near sets, for a pattern that has variables.
ghost use Rattle.std.specs.Prelude.{◌≡◌, false, ℕ, ◌<◌, ◌≤◌, length, get_or};
ghost use Rattle.table.specs.Sound.{table_of};
ghost use Rattle.near.specs.Near.{Fresh};
ghost use Rattle.packing.specs.Pack.{NearWhere};

use near::near_sets;
use table::sound_table::SoundTable;
use terms::kind::FIRST_VARIABLE;

// Whether a node of the pattern may be a variable.
fn has_variable(pattern: &[u16]) -> bool
    ensures { result ≡ false → (i : ℕ) → i < length pattern.now → get_or pattern.now i 0 < 32768 }
{
    pattern.iter().any(|node| *node >= FIRST_VARIABLE)
}

// Gathers the near sets of the heading's symbols, unless no variable asks for one.
pub fn gather_near(table: SoundTable, pattern: &[u16], heading: &[u16], cut: u16, near: &mut [u64])
    requires fresh { Fresh (table_of table) near.old × (0 < cut) × (cut ≤ 1000) }
    requires by_index { (i : ℕ) → i < length heading.now → get_or heading.now i 0 < (table_of table).size }
    ensures { NearWhere table.entry.file.now pattern.now heading.now cut near.new }
{
    if has_variable(pattern) {
        near_sets(table, cut, heading, near);
    }
}
