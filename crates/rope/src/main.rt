//! Reads commands from standard input, one a line, and writes one reply line for each.
//!
//! The exit status is 0 if the input ended, 2 after a bad line, 3 out of memory, and 4 if a read or
//! a write failed. Standard error has the reason.
#![tactic(auto)]

use rope_protocol::{Ended, serve};
use std::io;
use std::process::ExitCode;

/// Prints the outcome of the run on standard error, unless the input ended.
fn tell(rt: &impl Eprint, ended: Ended) {
    if ended != Ended::Done {
        // A failed print is ignored: the status tells the outcome.
        let _ = eprintln!(rt; "{ended}");
    }
}

fn main(rt: HostRuntime) -> ExitCode {
    let mut reader = rt.reader();
    let mut writer = io::writer(&rt);
    let ended = serve(rt.alloc(), &mut reader, &mut writer);
    tell(&rt, ended);
    ExitCode::from(ended.status())
}
