// The first 100 field of a record, and the first subfield with a code in a field.
ghost use Rattle.std.specs.Prelude.{◌≡◌, ℕ, ◌+◌, ◌/◌, ◌<◌, true, false, length, MatchOption};
ghost use Rattle.std.specs.Option.{option_copied};
ghost use Rattle.marc.specs.Subfields.{text_to, subfield};
ghost use Rattle.marc.specs.Heading.{field100};
ghost use Rattle.marc_record.specs.Found.{found};
ghost use Rattle.marc_record.specs.Openings.{Opens};
ghost use Rattle.marc_record.specs.Directories.{tagged};

use crate::frame::{ENTRY, Frame};

// The byte that opens a subfield, and how many indicators stand before the first.
const SUBFIELD_MARK: u8 = 0x1f;

const INDICATORS: usize = 2;

// Which entry of a directory is the first with the tag 100.
fn entry_100(directory: &[u8]) -> Option<usize>
    ensures { MatchOption result ((k : ℕ) → k < length directory.now / 12 → tagged directory.now k ≡ false) (λ e. (e < length directory.now / 12) × (tagged directory.now e ≡ true) × ((k : ℕ) → k < e → tagged directory.now k ≡ false)) }
{
    directory
        .chunks_exact(ENTRY)
        .position(|entry| entry.starts_with(b"100"))
}

// The first field with the tag 100, without the mark that ends it.
pub fn find_100<'a>(frame: Frame<'a>) -> Option<&'a [u8]>
    ensures { found (option_copied result) ≡ field100 frame.entry.bytes.now }
{
    let e = entry_100(frame.directory())?;
    Some(frame.field(e))
}

// The text that some bytes begin with: up to the next hex 1F, or all. Inlined into its callers the search would reckon its place anew at each byte.
#[inline(never)]
fn text_to_mark<'a>(bytes: &'a [u8]) -> &'a [u8]
    ensures { result.now ≡ text_to bytes.entry.now }
{
    let end = bytes.iter().position(|byte| *byte == SUBFIELD_MARK);
    &bytes[..end.unwrap_or(bytes.len())]
}

// Where the first subfield with that code opens.
fn opening(subfields: &[u8], code: u8) -> Option<usize>
    ensures { MatchOption result ((k : ℕ) → k + 1 < length subfields.now → Opens code subfields.now k → ⊥) (λ at. (at + 1 < length subfields.now) × Opens code subfields.now at × ((k : ℕ) → k < at → Opens code subfields.now k → ⊥)) }
{
    subfields
        .windows(2)
        .position(|pair| pair[0] == SUBFIELD_MARK && pair[1] == code)
}

// The text of a field's first subfield with that code.
pub fn find_text<'a>(field: &'a [u8], code: u8) -> Option<&'a [u8]>
    ensures { found (option_copied result) ≡ subfield code field.entry.now }
{
    let subfields = field.get(INDICATORS..)?;
    let at = opening(subfields, code)?;
    Some(text_to_mark(&subfields[at + 2..]))
}
