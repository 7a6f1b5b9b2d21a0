// A replay from standard input to standard output. A read or write that fails is told on standard error.

#![tactic(auto)]

mod faults;
pub mod reading;

use crate::faults::{Fault, tell};
use crate::reading::{read_full, zeros};
use listing::Replaying;
use rules::Dims;
use std::io;
use std::io::{ErrorKind, Write};
use std::process::ExitCode;

// Whether a piece came through: a bool, since that is all that is asked. A reader that stops early is no fault.
fn write_piece<W: Write>(writer: &mut W, piece: &[u8]) -> io::Result<bool> {
    match writer.write_all(piece) {
        Ok(()) => Ok(true),
        Err(error) if error.kind() == ErrorKind::BrokenPipe => Ok(false),
        Err(error) => Err(error),
    }
}

// Whether a piece's bytes came through, and there were any.
fn pass_on<W: Write>(writer: &mut W, piece: &[u8]) -> io::Result<bool> {
    if piece.is_empty() {
        return Ok(false);
    }
    write_piece(writer, piece)
}

// A proved loop has to end. So this one has a number of turns that no listing uses up: a piece that writes nothing is the last.
fn write_pieces<W: Write>(
    writer: &mut W,
    s: &[u8],
    out: &mut [u8],
    first: Replaying,
) -> io::Result<()> {
    let mut x = first;
    for _ in 0..u64::MAX {
        let p = listing::next_piece(s, out, x);
        if !pass_on(writer, out.get(..p.used).unwrap_or(b""))? {
            break;
        }
        x = p.replaying;
    }
    Ok(())
}

// The first 4,194,305 bytes decide the listing: the record that holds the last of them ends the reading. A log that a fault cut short has no
// listing.
fn replay(rt: &(impl Input + Print), dims: Dims) -> Result<(), Fault> {
    let mut input = zeros::<4194305>();
    let n = read_full(&mut rt.reader(), &mut input).map_err(Fault::Reading)?;
    let s = &input[..n];
    let x = listing::begin(s, dims);
    let mut out = zeros::<65536>();
    write_pieces(&mut io::writer(rt), s, &mut out, x).map_err(Fault::Writing)
}

pub fn replay_text(rt: &(impl Input + Print + Eprint), dims: Dims) -> ExitCode {
    match replay(rt, dims) {
        Ok(()) => ExitCode::SUCCESS,
        Err(fault) => {
            tell(rt, fault);
            ExitCode::FAILURE
        }
    }
}
