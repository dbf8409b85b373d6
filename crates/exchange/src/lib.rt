// Headings from exchange records: the name and the dates of a record's first 100 field, looked up in a list of known strings, as three nodes.
// The call takes any bytes and any lists; its answer, and what it leaves in lent memory, are fixed by its promise in specs/.
#![tactic(auto)]

ghost use Rattle.std.specs.Prelude.{◌≡◌, ℕ, List};
ghost use Rattle.meaning.specs.Refusals.{number_of, place_of};
ghost use Rattle.known_strings.specs.Lent.{listed};
ghost use Rattle.known_strings.specs.Checks.{CheckedAs};
ghost use Rattle.exchange.specs.Said.{told};
ghost use Rattle.exchange.specs.Looking.{FieldLooks, RecordLooks};
ghost use Rattle.exchange.specs.Heading.{ReadHeading};

use known_strings::check::check_list;
use known_strings::list::KnownStrings;
use known_strings::tested::Tested;
use marc_record::fields::{find_100, find_text};
use marc_record::frame::check_frame;

// How many nodes a heading of a name and dates has.
const NODES: usize = 3;

// The codes of the two subfields.
const NAME: u8 = b'a';

const DATES: u8 = b'd';

// Why no heading is read.
#[derive(Clone, Copy)]
pub enum Fault {
    // this entry of the list may not be listed
    List(usize),
    // the output is too short
    Room,
    // the record has no whole frame: the first fault is at this byte
    Frame(usize),
    // there is no 100 field
    NoField,
    // the field has no name
    NoName,
    // the name, the dates are not listed
    UnlistedName,
    UnlistedDates,
}

impl Fault {
    // The number on document 02's list.
    pub fn number(self) -> u16
        ensures { result ≡ number_of (told self) }
    {
        match self {
            Fault::List(_) => 19,
            Fault::Room => 8,
            Fault::Frame(_) => 17,
            Fault::NoField => 20,
            Fault::NoName => 21,
            Fault::UnlistedName | Fault::UnlistedDates => 22,
        }
    }

    // The place that goes with it.
    pub fn place(self) -> usize
        ensures { result ≡ place_of (told self) }
    {
        match self {
            Fault::List(place) | Fault::Frame(place) => place,
            Fault::UnlistedDates => 1,
            _ => 0,
        }
    }
}

// The numbers of a name and its dates.
#[derive(Clone, Copy)]
struct Numbers {
    name: u16,
    dates: u16,
}

// The name and the dates of a field.
fn read_field(field: &[u8], tested: Tested) -> Result<Numbers, Fault>
    ensures { FieldLooks field.now (listed tested.entry.known) tested.entry.absent result }
{
    let name = find_text(field, NAME).ok_or(Fault::NoName)?;
    let name = tested.number_of(name).ok_or(Fault::UnlistedName)?;
    let dates = match find_text(field, DATES) {
        Some(dates) => tested.number_of(dates).ok_or(Fault::UnlistedDates)?,
        None => tested.absent,
    };
    Ok(Numbers { name, dates })
}

// The name and the dates of a record's first 100 field.
fn read_record(bytes: &[u8], tested: Tested) -> Result<Numbers, Fault>
    ensures { RecordLooks bytes.now (listed tested.entry.known) tested.entry.absent result }
{
    let frame = check_frame(bytes).map_err(Fault::Frame)?;
    let field = find_100(frame).ok_or(Fault::NoField)?;
    read_field(field, tested)
}

// The heading of a record, by a list of which the test's answer is given: so many records can be read by a list that is tested once.
pub fn read_known(
    bytes: &[u8],
    tested: Result<Tested, usize>,
    heading: u16,
    nodes: &mut [u16],
) -> Result<(), Fault>
    ensures { (text ends numbers : List ℕ) (absent : ℕ) → CheckedAs text ends numbers absent tested.entry → ReadHeading bytes.now text ends numbers heading absent nodes.old result nodes.new }
{
    let tested = tested.map_err(Fault::List)?;
    if nodes.len() < NODES {
        return Err(Fault::Room);
    }
    let found = read_record(bytes, tested)?;
    nodes[..NODES].copy_from_slice(&[heading, found.name, found.dates]);
    Ok(())
}

// The heading of a record: the list is tested first, then the room, then the record.
pub fn read_heading(
    bytes: &[u8],
    text: &[u8],
    ends: &[u32],
    numbers: &[u16],
    heading: u16,
    absent: u16,
    nodes: &mut [u16],
) -> Result<(), Fault>
    ensures { ReadHeading bytes.now text.now ends.now numbers.now heading absent nodes.old result nodes.new }
{
    let known = KnownStrings {
        text,
        ends,
        numbers,
    };
    read_known(bytes, check_list(known, absent), heading, nodes)
}
