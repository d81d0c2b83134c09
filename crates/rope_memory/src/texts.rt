//! Texts copied from ropes and slices.
use crate::TRIES;
use crate::edits::{fingerprint, made, repeated};
use ropey::{CowStr, Error, Result, Rope};
use std::alloc::Global;
use std::convert::AsStr;
use std::io::Print;

/// A call that returns a copy of a text.
#[derive(Clone, Copy)]
enum Copier {
    ToString,
    ToCow,
    IntoString,
    IntoCow,
    SliceToString,
    SliceToCow,
}

const COPIERS: [Copier; 6] = [
    Copier::ToString,
    Copier::ToCow,
    Copier::IntoString,
    Copier::IntoCow,
    Copier::SliceToString,
    Copier::SliceToCow,
];

fn is_string(copy: Result<String>, text: &str) -> Result<bool> {
    match copy {
        Ok(copy) => Ok(copy.as_str() == text),
        Err(error) => Err(error),
    }
}

fn is_cow(copy: Result<CowStr<'_>>, text: &str) -> Result<bool> {
    match copy {
        Ok(copy) => Ok(copy.as_str() == text),
        Err(error) => Err(error),
    }
}

/// Returns whether a call gives the text. A call that takes the rope gets a clone.
fn copies_once(alloc: Global, copier: Copier, rope: &Rope, text: &str) -> Result<bool> {
    match copier {
        Copier::ToString => is_string(rope.try_to_string(alloc), text),
        Copier::ToCow => is_cow(rope.try_to_cow(alloc), text),
        Copier::IntoString => is_string(rope.clone()?.try_into_string(), text),
        Copier::IntoCow => is_cow(rope.clone()?.try_into_cow(), text),
        Copier::SliceToString => is_string(rope.slice(..).try_to_string(alloc), text),
        Copier::SliceToCow => is_cow(rope.slice(..).try_to_cow(alloc), text),
    }
}

/// Copies, again if memory was refused, and counts a different text or a failure that changed the
/// rope. Returns whether it succeeded.
fn copies(alloc: Global, copier: Copier, rope: &Rope, text: &str, faults: &mut usize) -> bool {
    let before = fingerprint(rope);
    let mut is_kept = true;
    for _ in 0..TRIES {
        match copies_once(alloc, copier, rope, text) {
            Ok(is_text) => {
                if !is_text || !is_kept {
                    *faults = faults.saturating_add(1);
                }
                return true;
            }
            Err(Error::OutOfMemory) => is_kept = is_kept && fingerprint(rope) == before,
            Err(_) => return false,
        }
    }
    false
}

/// Copies the text of a rope by each call.
fn copy_all(alloc: Global, rope: &Rope, text: &str, faults: &mut usize) -> bool {
    for copier in &COPIERS {
        if !copies(alloc, *copier, rope, text, faults) {
            return false;
        }
    }
    true
}

/// Copies the text of a rope by each call, and prints the number of different texts and of failures
/// that changed the rope.
fn show_copied(
    rt: &impl Print,
    alloc: Global,
    rope: &Rope,
    text: &str,
    faults: &mut usize,
) -> bool {
    let mut more = 0;
    let is_done = copy_all(alloc, rope, text, &mut more);
    *faults = faults.saturating_add(more);
    is_done && println!(rt; "copied, {more} faults").is_ok()
}

fn copy_out(rt: &impl Print, alloc: Global, text: &str, faults: &mut usize) -> bool {
    match made(alloc, text) {
        Some(rope) => show_copied(rt, alloc, &rope, text, faults),
        None => false,
    }
}

/// Copies the texts of a long and of a short rope, and counts the different texts and the failures
/// that changed a rope.
pub fn run(rt: &impl Print, alloc: Global, faults: &mut usize) -> bool {
    match repeated(alloc, "é\r\n", 1_000) {
        Some(long) => {
            copy_out(rt, alloc, long.as_str(), faults) && copy_out(rt, alloc, "Hello!", faults)
        }
        None => false,
    }
}
