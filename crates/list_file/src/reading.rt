// A file's bytes, by way of a buffer.
ghost use Rattle.std.specs.Prelude.{◌≤◌, length, IfOk};

use std::fs::File;
use std::io;
use std::io::Read;

// Reads until the file ends or the buffer is full: how many bytes there are. Where a read has failed nobody knows which bytes would have followed.
pub fn read_file(from: &mut File, file: &mut [u8]) -> io::Result<usize>
    ensures { IfOk result (λ size. size ≤ length file.old) }
{
    let mut end: usize = 0;
    while end < file.len() {
        let more = from.read(&mut file[end..])?;
        if more == 0 {
            break;
        }
        end += more;
    }
    Ok(end)
}
