// A driver over the published functions of the listing: it reads jobs from standard input until that ends, and answers each on standard
// output. What a job and its reply hold, and in what order, is in tests/text/job.h.

#![tactic(auto)]

mod head;
mod pieces;

use crate::head::Head;
use crate::pieces::tell;
use std::io;
use std::io::{Read, Write};
use streams::reading::{read_full, zeros};

// Answers one job. None: a job that is cut short is no job, and so is one with a text longer than the buffer.
fn one_job<R: Read, W: Write>(
    reader: &mut R,
    writer: &mut W,
    text: &mut [u8],
    out: &mut [u8],
) -> Option<()> {
    let head = Head::read(reader)?;
    let asked = head.length.min(text.len());
    let n = read_full(reader, &mut text[..asked]).ok()?;
    if n != head.length {
        return None;
    }
    let s = &text[..n];
    let room = head.room.min(out.len());
    tell(writer, s, &mut out[..room], head.fill, head.begin(s));
    Some(())
}

// A proved loop has to end, and nothing says that the input does. So the loop has a number of turns that no run uses up.
fn main(rt: HostRuntime) {
    let mut reader = rt.reader();
    let mut writer = io::writer(&rt);
    let mut text = zeros::<65536>();
    let mut out = zeros::<65536>();
    for _ in 0..u64::MAX {
        if one_job(&mut reader, &mut writer, &mut text, &mut out).is_none() {
            break;
        }
    }
}
