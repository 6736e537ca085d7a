// What failed, on standard error.
use std::io;
use std::io::{Cursor, Write};

// It stands for a failure that was named on standard error. Were that to fail too, there would be no place to say so.
#[derive(Clone, Copy)]
pub struct Reported;

// How many bytes the words for an error may have.
const WORDS: usize = 256;

// The error's words, without the number that std puts behind the system's words.
fn without_number(words: &str) -> &str {
    words
        .rsplit_once(" (os error ")
        .map_or(words, |(front, _)| front)
}

// Writes a line to standard error: what failed, a colon and why.
pub fn report(rt: &impl Eprint, what: &str, error: io::Error) -> Reported {
    let mut text = Cursor::new([0u8; WORDS]);
    let _ = write!(text, "{error}");
    let n = (text.position() as usize).min(WORDS);
    let bytes = text.into_inner();
    let words = without_number(std::str::from_utf8(&bytes[..n]).unwrap_or(""));
    let _ = eprintln!(rt; "{what}: {words}");
    Reported
}
