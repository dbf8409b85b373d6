// What a match is asked about, once it is known that nothing of it is refused.
ghost use Rattle.std.specs.Prelude.{◌≡◌, true, false, ◌<◌, ◌≤◌};
ghost use Rattle.theory.specs.Read.{reading, whole};
ghost use Rattle.meaning.specs.File.{table_in};

use table::sound_table::SoundTable;

// A pattern and a heading over a table, and the degree below which symbols clash.
#[derive(Clone, Copy)]
pub struct Asked<'a> {
    pub table: SoundTable<'a>,
    pub pattern: &'a [u16],
    pub heading: &'a [u16],
    pub cut: u16,
    pub ghost pattern_reads: { reading (table_in table.file.now) true pattern.now ≡ whole },
    pub ghost heading_reads: { reading (table_in table.file.now) false heading.now ≡ whole },
    pub ghost some_cut: { 0 < cut },
    pub ghost top_cut: { cut ≤ 1000 },
}
