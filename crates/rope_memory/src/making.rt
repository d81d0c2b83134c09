//! Ropes made of texts, pieces or an iterator's items, or re-chunked.
use crate::TRIES;
use crate::edits::{Edit, apply_all, made, repeated, show};
use ropey::{CowStr, Error, Result, Rope, RopeBuilder};
use std::alloc::Global;
use std::io::Print;

fn append_all(builder: &mut RopeBuilder, pieces: &[&str]) -> Result<()> {
    for piece in pieces {
        builder.append(piece)?;
    }
    Ok(())
}

/// Returns whether a builder that failed returns the same error for every text.
fn keeps_error(builder: &mut RopeBuilder) -> bool {
    let answers = [builder.append(""), builder.append("x"), builder.append("")];
    answers == [Err(Error::OutOfMemory); 3]
}

/// Returns a rope of the pieces by a builder. A builder that failed and doesn't return the same
/// error from every call is counted.
fn build_once(mut builder: RopeBuilder, pieces: &[&str], faults: &mut usize) -> Option<Rope> {
    let is_taken = append_all(&mut builder, pieces).is_ok();
    let is_kept = is_taken || keeps_error(&mut builder);
    match builder.finish() {
        Ok(rope) if is_taken => Some(rope),
        Err(error) if is_taken || (is_kept && error == Error::OutOfMemory) => None,
        _ => {
            *faults = faults.saturating_add(1);
            None
        }
    }
}

/// Returns a rope of the pieces, made again if memory was refused.
fn build(alloc: Global, pieces: &[&str], faults: &mut usize) -> Option<Rope> {
    for _ in 0..TRIES {
        let built = match RopeBuilder::new(alloc) {
            Ok(builder) => build_once(builder, pieces, faults),
            Err(_) => None,
        };
        if built.is_some() {
            return built;
        }
    }
    None
}

/// A call that makes a rope of texts.
#[derive(Clone, Copy)]
enum Maker {
    OfString,
    OfCow,
    OfStrs,
    OfStrings,
    OfCows,
}

const MAKERS: [Maker; 5] = [
    Maker::OfString,
    Maker::OfCow,
    Maker::OfStrs,
    Maker::OfStrings,
    Maker::OfCows,
];

/// Returns a text three times, as separate strings.
fn three_of(alloc: Global, text: &str) -> Result<[String; 3]> {
    let first = String::from_str(alloc, text)?;
    let second = String::from_str(alloc, text)?;
    let third = String::from_str(alloc, text)?;
    Ok([first, second, third])
}

/// Returns a rope of a text three times, the second of them owned.
fn made_of_cows(alloc: Global, text: &str) -> Result<Rope> {
    let owned = String::from_str(alloc, text)?;
    let cows = [
        CowStr::Borrowed(text),
        CowStr::Owned(owned),
        CowStr::Borrowed(text),
    ];
    Rope::from_cow_iter(alloc, cows)
}

/// Returns a rope of the text, or of the text three times by a call that takes an iterator.
fn make_once(alloc: Global, maker: Maker, text: &str) -> Result<Rope> {
    match maker {
        Maker::OfString => Rope::from_string(alloc, String::from_str(alloc, text)?),
        Maker::OfCow => Rope::from_cow(alloc, CowStr::Owned(String::from_str(alloc, text)?)),
        Maker::OfStrs => Rope::from_str_iter(alloc, [text, text, text]),
        Maker::OfStrings => Rope::from_string_iter(alloc, three_of(alloc, text)?),
        Maker::OfCows => made_of_cows(alloc, text),
    }
}

/// Returns a rope by one of the calls, made again if memory was refused.
fn made_by(alloc: Global, maker: Maker, text: &str) -> Option<Rope> {
    for _ in 0..TRIES {
        match make_once(alloc, maker, text) {
            Ok(rope) => return Some(rope),
            Err(Error::OutOfMemory) => {}
            Err(_) => return None,
        }
    }
    None
}

/// Returns a rope of some characters of another, made again if memory was refused.
fn sliced(alloc: Global, rope: &Rope, start: usize, end: usize) -> Option<Rope> {
    for _ in 0..TRIES {
        match Rope::from_slice(alloc, rope.get_slice(start..end)?) {
            Ok(part) => return Some(part),
            Err(Error::OutOfMemory) => {}
            Err(_) => return None,
        }
    }
    None
}

/// Prints a rope, if there is one.
fn show_made(rt: &impl Print, rope: Option<Rope>) -> bool {
    match rope {
        Some(rope) => show(rt, &rope),
        None => false,
    }
}

/// Makes ropes by each call, and prints them.
fn make_all(rt: &impl Print, alloc: Global, long: &str) -> bool {
    for maker in &MAKERS {
        if !show_made(rt, made_by(alloc, *maker, long)) {
            return false;
        }
    }
    true
}

/// Makes a rope of pieces, and prints it. A builder that forgot its error is counted.
fn build_and_show(rt: &impl Print, alloc: Global, long: &str, faults: &mut usize) -> bool {
    let pieces = ["é", long, "\r", "\n", long, "こ\r\n"];
    show_made(rt, build(alloc, &pieces, faults))
}

/// Inserts into a rope and re-chunks it.
fn fill(rope: &mut Rope, long: &str, faults: &mut usize) -> bool {
    let edits = [
        Edit::Insert(0, long),
        Edit::Insert(0, long),
        Edit::Insert(2_500, long),
        Edit::Insert(1_000, long),
        Edit::Insert(7_000, long),
        Edit::Insert(3, long),
        Edit::ShrinkToFit,
    ];
    apply_all(rope, &edits, faults)
}

/// Prints a rope and a slice of it.
fn show_with_part(rt: &impl Print, alloc: Global, rope: &Rope) -> bool {
    let chunks = rope.chunks().count();
    show(rt, rope)
        && println!(rt; "in {chunks}").is_ok()
        && show_made(rt, sliced(alloc, rope, 1_200, 9_000))
}

/// Fills a rope and prints it.
fn fill_and_show(rt: &impl Print, alloc: Global, long: &str, faults: &mut usize) -> bool {
    match made(alloc, "") {
        Some(mut rope) => fill(&mut rope, long, faults) && show_with_part(rt, alloc, &rope),
        None => false,
    }
}

/// Makes ropes of pieces and re-chunks a rope, prints them, and counts the failures that changed
/// something or were forgotten.
pub fn run(rt: &impl Print, alloc: Global, faults: &mut usize) -> bool {
    match repeated(alloc, "a", 2_500) {
        Some(long) => {
            build_and_show(rt, alloc, long.as_str(), faults)
                && make_all(rt, alloc, long.as_str())
                && fill_and_show(rt, alloc, long.as_str(), faults)
        }
        None => false,
    }
}
