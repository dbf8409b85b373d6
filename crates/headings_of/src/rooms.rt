// The rooms that the program works in. Each is made by a function that says how much there is, so that no proof counts zeros.
ghost use Rattle.std.specs.Prelude.{◌≡◌, length};
ghost use Rattle.headings_of.specs.Rooms.{list_room, lines_room, input_room};

// More than twice as much as a record may have, so that bytes are moved seldom.
const ROOM: usize = 262144;

// A list's file has less, so that one that is longer is told from one that just fits.
pub const LIST_ROOM: usize = 1048576;

// A line of the list has at least three bytes: a digit, a space and the line end.
const LINES_ROOM: usize = LIST_ROOM / 3 + 1;

pub fn list_bytes() -> [u8; LIST_ROOM]
    ensures { list_room ≡ length result }
{
    [0; LIST_ROOM]
}

pub fn list_ends() -> [u32; LINES_ROOM]
    ensures { lines_room ≡ length result }
{
    [0; LINES_ROOM]
}

pub fn list_numbers() -> [u16; LINES_ROOM]
    ensures { lines_room ≡ length result }
{
    [0; LINES_ROOM]
}

pub fn record_buffer() -> [u8; ROOM]
    ensures { input_room ≡ length result }
{
    [0; ROOM]
}
