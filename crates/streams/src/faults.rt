// A read or a write that failed, and what is told of it.

use std::io::{Cursor, Write};
use std::{io, str};

#[derive(Clone, Copy)]
pub(crate) enum Fault {
    Reading(io::Error),
    Writing(io::Error),
}

// What stands before the mark; all, where it does not stand.
fn up_to<'a>(words: &'a str, mark: &str) -> &'a str {
    words.split_once(mark).map_or(words, |(front, _)| front)
}

// Writes a line to standard error: what failed, and the system's words for why, without the number that the library adds to them. Where that
// fails too, nothing can be told.
pub(crate) fn tell(rt: &impl Eprint, fault: Fault) {
    let (what, error) = match fault {
        Fault::Reading(error) => ("reading standard input failed", error),
        Fault::Writing(error) => ("writing standard output failed", error),
    };
    let mut cursor = Cursor::new([0u8; 256]);
    let _ = write!(cursor, "{error}");
    let bytes = cursor.into_inner();
    let words = up_to(str::from_utf8(&bytes).unwrap_or(""), "\0");
    let why = up_to(words, " (os error ");
    let _ = eprintln!(rt; "{what}: {why}");
}
