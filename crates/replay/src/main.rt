// The replay of document 01: 4 processors, 16 words, 4 lines, 4 entries, memory zero.

#![tactic(auto)]

use rules::Dims;
use std::process::ExitCode;

fn main(rt: HostRuntime) -> ExitCode {
    let dims = Dims {
        processors: 4,
        words: 16,
        lines: 4,
        entries: 4,
    };
    streams::replay_text(&rt, dims)
}
