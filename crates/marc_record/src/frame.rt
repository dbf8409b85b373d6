// The tests of a record's frame, in their order: each says where the first fault is.
ghost use Rattle.std.specs.Prelude.{◌≡◌, ◌+◌, ◌-◌, ◌*◌, ◌≤◌, ◌<◌, take, drop, length, MatchResult};
ghost use Rattle.std.proofs.Math.Option.{none, some as just};
ghost use Rattle.meaning.specs.Refusals.{first, refusal};
ghost use Rattle.marc.specs.Frame.{base_address, entry_count, entry_at, field_length, field_at, frame_rows};
ghost use Rattle.marc_record.specs.Frames.{Directory, BaseBy, EntryTells, EntriesTell, fault_in, field_rows};

use crate::number::number;

// How many bytes the leader has, and in how many digits the record's length and the base address stand in it.
pub const LEADER: usize = 24;

const LEADER_DIGITS: usize = 5;

pub const BASE_ADDRESS: usize = 12;

// The base address of a record without fields: behind the leader and the directory's mark. Then there is only the record's mark.
pub const FIRST_BASE: usize = LEADER + 1;

const SHORTEST: usize = FIRST_BASE + 1;

// How many bytes an entry has, and where in it the field's length and start stand.
pub const ENTRY: usize = 12;

pub const FIELD_LENGTH: usize = 3;

pub const FIELD_START: usize = 7;

// The bytes that end a field or the directory, and the record.
const FIELD_MARK: u8 = 0x1e;

pub const RECORD_MARK: u8 = 0x1d;

// A record whose frame is whole, with its base address.
#[derive(Clone, Copy)]
pub struct Frame<'a> {
    pub bytes: &'a [u8],
    pub base: usize,
    pub ghost whole: { first (frame_rows bytes.now) ≡ none },
    pub ghost base_is: { base ≡ base_address bytes.now },
    pub ghost entries_fit: { base ≡ 25 + 12 * entry_count bytes.now },
    pub ghost inside: { base < length bytes.now },
}

impl<'a> Frame<'a> {
    // The directory's entries, one behind the other.
    pub fn directory(self) -> &'a [u8]
        ensures { result.now ≡ take (12 * entry_count self.entry.bytes.now) (drop 24 self.entry.bytes.now) }
    {
        &self.bytes[LEADER..self.base - 1]
    }

    // The field of an entry, without the mark that ends it.
    pub fn field(self, e: usize) -> &'a [u8]
        requires { e < entry_count self.bytes.now }
        ensures { result.now ≡ take (field_length self.entry.bytes.now e - 1) (drop (field_at self.entry.bytes.now e) self.entry.bytes.now) }
    {
        let at = LEADER + ENTRY * e;
        let length = number(&self.bytes[at + FIELD_LENGTH..at + FIELD_START]).unwrap();
        let start = self.base + number(&self.bytes[at + FIELD_START..at + ENTRY]).unwrap();
        &self.bytes[start..start + length - 1]
    }
}

// The base address, where it is in order.
fn read_base(bytes: &[u8]) -> Option<usize>
    requires { 26 ≤ length bytes.now }
    ensures { BaseBy bytes.now result }
{
    let base = number(&bytes[BASE_ADDRESS..BASE_ADDRESS + LEADER_DIGITS])?;
    if base < FIRST_BASE || (base - FIRST_BASE) % ENTRY != 0 || base >= bytes.len() {
        return None;
    }
    Some(base)
}

// Where the field of an entry ends, or the byte of the entry's fault.
fn read_entry(bytes: &[u8], base: usize, e: usize) -> Result<usize, usize>
    requires { (base ≡ base_address bytes.now) × (base ≤ 99999) × (entry_at e + 12 ≤ length bytes.now) }
    ensures { EntryTells bytes.now e result }
{
    let at = LEADER + ENTRY * e;
    let length_at = at + FIELD_LENGTH;
    let start_at = at + FIELD_START;
    let length = number(&bytes[length_at..start_at]).ok_or(length_at)?;
    if length == 0 {
        return Err(length_at);
    }
    let start = number(&bytes[start_at..at + ENTRY]).ok_or(start_at)?;
    let end = base + start + length;
    if end >= bytes.len() {
        return Err(start_at);
    }
    Ok(end)
}

// All entries, in one walk. A fault of an entry comes before any mark, so that the first field without its mark is only noted.
fn read_entries(bytes: &[u8], base: usize, entries: usize) -> Result<Option<usize>, usize>
    requires { Directory bytes.now base entries }
    ensures { EntriesTell bytes.now result }
{
    let mut unmarked = None;
    for e in 0..entries {
        let last = read_entry(bytes, base, e)? - 1;
        if bytes[last] != FIELD_MARK {
            unmarked = unmarked.or(Some(last));
        }
    }
    Ok(unmarked)
}

// The first fault of the entries or of the marks: the directory's, a field's, the record's.
fn check_fields(bytes: &[u8], base: usize, entries: usize) -> Result<(), usize>
    requires { Directory bytes.now base entries }
    ensures { fault_in result ≡ first (field_rows bytes.now) }
{
    let unmarked = read_entries(bytes, base, entries)?;
    if bytes[base - 1] != FIELD_MARK {
        return Err(base - 1);
    }
    if let Some(place) = unmarked {
        return Err(place);
    }
    let last = bytes.len() - 1;
    if bytes[last] != RECORD_MARK {
        return Err(last);
    }
    Ok(())
}

// The record, if its frame is whole, or the byte of the first fault.
pub fn check_frame<'a>(bytes: &'a [u8]) -> Result<Frame<'a>, usize>
    ensures { MatchResult result (λ frame. frame.bytes.now ≡ bytes.entry.now) (λ place. first (frame_rows bytes.entry.now) ≡ just (refusal 17 place)) }
{
    if bytes.len() < SHORTEST || number(&bytes[..LEADER_DIGITS]) != Some(bytes.len()) {
        return Err(0);
    }
    let base = read_base(bytes).ok_or(BASE_ADDRESS)?;
    check_fields(bytes, base, (base - FIRST_BASE) / ENTRY)?;
    Ok(Frame { bytes, base })
}
