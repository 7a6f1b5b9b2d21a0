// The replay on a machine whose processors, words, lines and entries are the four arguments, memory zero.

#![tactic(auto)]

use rules::Dims;
use std::process::ExitCode;
use std::rt::Env;
use text::decimals::read_number;

// An argument that is missing or no decimal counts as 0, which the machine refuses. No decimal is longer than ten digits.
// A buffer and two places: read_number takes them, since its definition field_of answers for every two. usize has no From of a u32.
fn argument(rt: &impl Env, place: usize) -> usize {
    let mut bytes = [0u8; 16];
    let Ok(n) = rt.arg(place, &mut bytes) else {
        return 0;
    };
    read_number(&bytes, 0, n).unwrap_or(0) as usize
}

fn main(rt: HostRuntime) -> ExitCode {
    let dims = Dims {
        processors: argument(&rt, 1),
        words: argument(&rt, 2),
        lines: argument(&rt, 3),
        entries: argument(&rt, 4),
    };
    streams::replay_text(&rt, dims)
}
