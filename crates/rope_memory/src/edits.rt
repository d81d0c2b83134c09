//! Making ropes, and edits of them.
use crate::TRIES;
use ropey::{Error, Result, Rope};
use std::alloc::Global;
use std::io::Print;

/// Returns a number determined by the text and its chunks; takes no memory.
pub fn fingerprint(rope: &Rope) -> u64 {
    let mut seen: u64 = 0xCBF2_9CE4_8422_2325;
    for chunk in rope.chunks() {
        for byte in chunk.bytes() {
            seen = (seen ^ u64::from(byte)).wrapping_mul(0x0100_0000_01B3);
        }
        seen = (seen ^ 0xFF).wrapping_mul(0x0100_0000_01B3);
    }
    seen
}

/// Fills an empty string with a text, `count` times. Only its capacity takes memory.
fn fill(all: &mut String, text: &str, count: usize) -> Result<()> {
    all.reserve(text.len().saturating_mul(count))?;
    for _ in 0..count {
        all.push_str(text)?;
    }
    Ok(())
}

/// Returns a text, `count` times.
pub fn repeated(alloc: Global, text: &str, count: usize) -> Option<String> {
    for _ in 0..TRIES {
        let mut all = String::new(alloc);
        if fill(&mut all, text, count).is_ok() {
            return Some(all);
        }
    }
    None
}

/// Returns a rope of a text, made again if memory was refused.
pub fn made(alloc: Global, text: &str) -> Option<Rope> {
    for _ in 0..TRIES {
        match Rope::from_str(alloc, text) {
            Ok(rope) => return Some(rope),
            Err(Error::OutOfMemory) => {}
            Err(_) => return None,
        }
    }
    None
}

/// Returns an empty rope, made again if memory was refused.
fn empty(alloc: Global) -> Option<Rope> {
    for _ in 0..TRIES {
        match Rope::new(alloc) {
            Ok(rope) => return Some(rope),
            Err(Error::OutOfMemory) => {}
            Err(_) => return None,
        }
    }
    None
}

/// An edit of a rope.
#[derive(Clone, Copy)]
pub enum Edit<'a> {
    /// Inserts a text before a character or at the end.
    Insert(usize, &'a str),
    /// Inserts a character before another, or at the end if the index is past it.
    InsertChar(usize, char),
    /// Removes the characters from the first index up to the second.
    Remove(usize, usize),
    /// Appends a clone of another rope.
    Append(&'a Rope),
    /// Re-chunks the text.
    ShrinkToFit,
}

fn apply_once(rope: &mut Rope, edit: Edit<'_>) -> Result<()> {
    match edit {
        Edit::Insert(char_idx, text) => rope.try_insert(char_idx, text),
        Edit::InsertChar(char_idx, c) => {
            let place = char_idx.min(rope.len_chars());
            rope.insert_char(place, c)
        }
        Edit::Remove(start, end) => rope.try_remove(start..end),
        Edit::Append(other) => rope.append(other.clone()?),
        Edit::ShrinkToFit => rope.shrink_to_fit(),
    }
}

/// Makes an edit, again if memory was refused, and counts the failures that changed something.
/// Returns whether it succeeded.
pub fn apply(rope: &mut Rope, edit: Edit<'_>, faults: &mut usize) -> bool {
    let before = fingerprint(rope);
    let bytes = rope.len_bytes();
    for _ in 0..TRIES {
        match apply_once(rope, edit) {
            Ok(()) => return true,
            Err(Error::OutOfMemory) => {
                if fingerprint(rope) != before || rope.len_bytes() != bytes {
                    *faults = faults.saturating_add(1);
                }
            }
            Err(_) => return false,
        }
    }
    false
}

/// Makes edits one after the other.
pub fn apply_all(rope: &mut Rope, edits: &[Edit<'_>], faults: &mut usize) -> bool {
    for edit in edits {
        if !apply(rope, *edit, faults) {
            return false;
        }
    }
    true
}

/// Prints the lengths of a rope.
pub fn show(rt: &impl Print, rope: &Rope) -> bool {
    let bytes = rope.len_bytes();
    let lines = rope.len_lines();
    println!(rt; "{bytes} bytes, {lines} lines").is_ok()
}

/// Inserts into a rope, in one chunk and in several.
fn insert_all(rope: &mut Rope, long: &str, faults: &mut usize) -> bool {
    let edits = [
        Edit::Insert(0, "one\r\ntwo\n"),
        Edit::Insert(3, long),
        Edit::Insert(990, "\r"),
        Edit::InsertChar(991, '\n'),
        Edit::Insert(1_000, ""),
        Edit::InsertChar(991, 'x'),
        Edit::InsertChar(2_500, 'é'),
    ];
    apply_all(rope, &edits, faults)
}

/// Prints two ropes, and one of a text.
fn show_three(rt: &impl Print, alloc: Global, rope: &Rope, typed: &Rope, long: &str) -> bool {
    match made(alloc, long) {
        Some(other) => show(rt, rope) && show(rt, typed) && show(rt, &other),
        None => false,
    }
}

/// Inserts into an empty rope, and prints it and two others.
fn type_and_show(
    rt: &impl Print,
    alloc: Global,
    rope: &Rope,
    long: &str,
    faults: &mut usize,
) -> bool {
    match empty(alloc) {
        Some(mut typed) => {
            apply(&mut typed, Edit::InsertChar(0, '🐸'), faults)
                && show_three(rt, alloc, rope, &typed, long)
        }
        None => false,
    }
}

/// Inserts into an empty rope and another, and prints them.
fn edit_and_show(rt: &impl Print, alloc: Global, rope: &mut Rope, faults: &mut usize) -> bool {
    match repeated(alloc, "a", 5_000) {
        Some(long) => {
            insert_all(rope, long.as_str(), faults)
                && type_and_show(rt, alloc, rope, long.as_str(), faults)
        }
        None => false,
    }
}

/// Makes ropes, inserts into them, prints them, and counts the failures that changed something.
pub fn run(rt: &impl Print, alloc: Global, faults: &mut usize) -> bool {
    match made(alloc, "") {
        Some(mut rope) => edit_and_show(rt, alloc, &mut rope, faults),
        None => false,
    }
}
