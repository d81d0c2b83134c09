//! Ropes that are cloned, split, appended, and with a range removed.
use crate::TRIES;
use crate::edits::{Edit, apply, fingerprint, made, repeated, show};
use ropey::{Error, Rope};
use std::alloc::Global;
use std::io::Print;

/// Returns a clone, made again if memory was refused; the failures that changed the rope are
/// counted.
fn clone(rope: &Rope, faults: &mut usize) -> Option<Rope> {
    let before = fingerprint(rope);
    for _ in 0..TRIES {
        if let Ok(rope) = rope.clone() {
            return Some(rope);
        }
        if fingerprint(rope) != before {
            *faults = faults.saturating_add(1);
        }
    }
    None
}

/// Keeps the front of a rope and returns its back, again if memory was refused, as `clone` does.
fn split_off(rope: &mut Rope, char_idx: usize, faults: &mut usize) -> Option<Rope> {
    let before = fingerprint(rope);
    let bytes = rope.len_bytes();
    for _ in 0..TRIES {
        match rope.try_split_off(char_idx) {
            Ok(rope) => return Some(rope),
            Err(Error::OutOfMemory) => {
                if fingerprint(rope) != before || rope.len_bytes() != bytes {
                    *faults = faults.saturating_add(1);
                }
            }
            Err(_) => return None,
        }
    }
    None
}

/// Splits between a CR and an LF, and joins the halves.
fn split_and_join(rt: &impl Print, rope: &mut Rope, faults: &mut usize) -> bool {
    match split_off(rope, 5_009, faults) {
        Some(back) => {
            show(rt, rope) && show(rt, &back) && apply(rope, Edit::Append(&back), faults)
        }
        None => false,
    }
}

/// Edits a rope, which at last shares its nodes with another. The last edit but one inserts lines
/// between a CR and an LF.
fn edit<'a>(
    rt: &impl Print,
    rope: &mut Rope,
    double: &'a Rope,
    kept: &'a Rope,
    more: &'a str,
    faults: &mut usize,
) -> bool {
    let edits = [
        Edit::Append(double),
        Edit::Remove(100, 103),
        Edit::Remove(0, 20_017),
        Edit::Append(kept),
        Edit::InsertChar(15_000, 'x'),
        Edit::Insert(9, more),
        // A thousand characters cross a seam between chunks, here of nodes that a clone shares.
        Edit::Remove(25_500, 26_500),
    ];
    for edit in &edits {
        if !apply(rope, *edit, faults) || !show(rt, rope) {
            return false;
        }
    }
    true
}

/// Edits a rope, to which a clone of it is appended, and inserts lines.
fn edit_with_lines(
    rt: &impl Print,
    alloc: Global,
    rope: &mut Rope,
    double: &Rope,
    kept: &Rope,
    faults: &mut usize,
) -> bool {
    match repeated(alloc, "\n12345678\r", 300) {
        Some(more) => edit(rt, rope, double, kept, more.as_str(), faults),
        None => false,
    }
}

/// Edits a rope beside a clone of it and one that was kept.
fn double_and_edit(
    rt: &impl Print,
    alloc: Global,
    rope: &mut Rope,
    kept: &Rope,
    faults: &mut usize,
) -> bool {
    match clone(rope, faults) {
        Some(double) => edit_with_lines(rt, alloc, rope, &double, kept, faults),
        None => false,
    }
}

/// Removes the middle, so that a CR meets an LF, splits the rope there and joins its halves, and
/// doubles it.
fn edit_beside(
    rt: &impl Print,
    alloc: Global,
    rope: &mut Rope,
    kept: &Rope,
    faults: &mut usize,
) -> bool {
    apply(rope, Edit::Remove(9, 19_999), faults)
        && show(rt, rope)
        && split_and_join(rt, rope, faults)
        && double_and_edit(rt, alloc, rope, kept, faults)
}

/// Keeps a clone of a rope and edits the rope, and counts a clone that the edits changed.
fn edit_and_compare(rt: &impl Print, alloc: Global, rope: &mut Rope, faults: &mut usize) -> bool {
    let before = fingerprint(rope);
    match clone(rope, faults) {
        Some(kept) => {
            let is_done = edit_beside(rt, alloc, rope, &kept, faults);
            if fingerprint(&kept) != before {
                *faults = faults.saturating_add(1);
            }
            is_done
        }
        None => false,
    }
}

/// Returns a rope of many lines.
fn made_of_lines(alloc: Global) -> Option<Rope> {
    match repeated(alloc, "12345678\r\n", 3_000) {
        Some(lines) => made(alloc, lines.as_str()),
        None => None,
    }
}

/// Splits a rope and joins its halves, prints it after each edit, and counts the failures or edits
/// that changed something else.
pub fn run(rt: &impl Print, alloc: Global, faults: &mut usize) -> bool {
    match made_of_lines(alloc) {
        Some(mut rope) => show(rt, &rope) && edit_and_compare(rt, alloc, &mut rope, faults),
        None => false,
    }
}
