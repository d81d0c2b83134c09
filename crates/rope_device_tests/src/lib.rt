//! Tests of devices, and of lines that are served.
//!
//! No contract shows these:
//! - a device that failed is not called again, and its error is returned;
//! - a bad line ends a run, and the line and outcome with which a run ends;
//! - a run of commands runs all of them if memory is ample;
//! - replies are flushed before the next read.
//!
//! The proofs show this too, and it is run to test the compiler: texts that are read and written in
//! any pieces.
//!
//! Dialogues and random sessions are in crates/rope/stdin, which needs no proof.
#![tactic(auto)]

#[cfg(test)]
mod bad_lines;
#[cfg(test)]
mod devices;
#[cfg(test)]
mod devices_errors;
#[cfg(test)]
mod ends;
#[cfg(test)]
mod example;
#[cfg(test)]
mod reading;
#[cfg(test)]
#[cfg(test)]
mod runs;
#[cfg(test)]
mod seams;
#[cfg(test)]
mod served;
#[cfg(test)]
mod serving;
#[cfg(test)]
mod stumbles;
#[cfg(test)]
mod talks;
#[cfg(test)]
mod writing;
