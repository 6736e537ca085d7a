// The text on standard input, and the table in a file.
ghost use Rattle.std.specs.Prelude.{◌≤◌, IfOk, length};

use std::io;
use std::io::{Read, Write};

// One byte more than a call's text may have: with it the text is too long, whatever follows.
pub const TEXT_SIZE: usize = 16385;

// Reads the file to its end and gives the text. Bytes that the buffer has no room for are read and dropped, so that whoever
// writes them sees no error. A proved loop has to end, so its turns are bounded by a number that no input uses up.
pub fn read_text<'a>(file: &mut impl Read, text: &'a mut [u8]) -> io::Result<&'a [u8]>
    ensures { IfOk result (λ read. length read.now ≤ length text.old) }
{
    let mut chunk = [0u8; 4096];
    // Counted beside the buffer: the position of an `io::Cursor` is a u64 that may lie past the end, which would be cast and cut before the
    // text is handed out.
    let mut n = 0;
    for _turn in 0..u64::MAX {
        let more = file.read(&mut chunk)?;
        if more == 0 {
            return Ok(&text[..n]);
        }
        let mut room = &mut text[n..];
        n += room.write(&chunk[..more])?;
    }
    Err(io::Error::other("no end was found"))
}
