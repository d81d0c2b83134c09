//! Ropes that are read from a device, again if memory was refused.
use crate::TRIES;
use crate::edits::{repeated, show};
use ropey::io::{Mark, ReadError, Watched};
use ropey::{Error, Rope};
use std::alloc::Global;
use std::io::Print;

/// Returns a rope of the bytes, read again from their start if memory was refused, which doesn't
/// mark the reader.
fn read(alloc: Global, bytes: &[u8]) -> Option<Rope> {
    for _ in 0..TRIES {
        let mut source = Watched::new(bytes);
        match Rope::from_watched(alloc, &mut source) {
            Ok(rope) => return Some(rope),
            Err(ReadError::Rope(Error::OutOfMemory)) if !source.failed() => {}
            Err(_) => return None,
        }
    }
    None
}

fn read_and_show(rt: &impl Print, alloc: Global, text: &str) -> bool {
    match read(alloc, text.as_bytes()) {
        Some(rope) => show(rt, &rope),
        None => false,
    }
}

/// Reads a text of some chunks, and prints it.
pub fn run(rt: &impl Print, alloc: Global) -> bool {
    match repeated(alloc, "aé\r\nこ🐸", 700) {
        Some(text) => read_and_show(rt, alloc, text.as_str()),
        None => false,
    }
}
