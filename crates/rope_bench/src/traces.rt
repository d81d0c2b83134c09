//! A person's own edits of a text, in order, on standard input.
//!
//! A line is an edit: the index of a character, the number of characters to remove there, and in
//! quotes the character to insert, if any. A quote and a backslash are escaped by a backslash, and
//! \n, \t and \r have their usual meaning.
use crate::fault::Fault;
use crate::measure::{Outcome, now, whole};
use ropey::Rope;
use std::alloc::Global;
use std::io;
use std::time::CpuClock;

/// A number of characters to remove, and one to insert.
#[derive(Clone, Copy)]
pub struct Keystroke {
    place: usize,
    removed: usize,
    typed: Option<char>,
}

/// Returns the edits on standard input, without invalid lines.
pub fn keystrokes<R: Input + AllocGlobal>(rt: &R) -> Result<Vec<Keystroke>, Fault> {
    let text = io::read_to_string(rt.alloc(), rt.reader())?;
    let mut edits = Vec::new(rt.alloc());
    for line in text.as_str().split('\n') {
        if let Some(edit) = keystroke_of(line) {
            edits.push(edit)?;
        }
    }
    Ok(edits)
}

/// Returns the edit on a line, if there is one.
fn keystroke_of(line: &str) -> Option<Keystroke> {
    let (place, rest) = line.split_once(' ')?;
    let (removed, quoted) = rest.split_once(' ')?;
    Some(Keystroke {
        place: place.parse::<usize>().ok()?,
        removed: removed.parse::<usize>().ok()?,
        typed: first_of(quoted),
    })
}

/// Returns the first character of a text in quotes.
fn first_of(quoted: &str) -> Option<char> {
    let mut chars = quoted.chars().skip(1);
    match chars.next() {
        None | Some('"') => None,
        Some('\\') => chars.next().map(unescaped),
        Some(c) => Some(c),
    }
}

/// Returns the character that an escape stands for.
fn unescaped(c: char) -> char {
    match c {
        'n' => '\n',
        't' => '\t',
        'r' => '\r',
        _ => c,
    }
}

/// Makes the edits in an empty rope.
pub fn replay<C: CpuClock>(
    clock: &C,
    alloc: Global,
    edits: &[Keystroke],
) -> Result<Outcome, Fault> {
    let mut rope = Rope::new(alloc)?;
    replay_in(clock, &mut rope, edits)
}

fn replay_in<C: CpuClock>(
    clock: &C,
    rope: &mut Rope,
    edits: &[Keystroke],
) -> Result<Outcome, Fault> {
    let start = now(clock);
    apply(rope, edits)?;
    let end = now(clock);
    Outcome::new(edits.len(), start, end, whole(rope))
}

fn apply(rope: &mut Rope, edits: &[Keystroke]) -> Result<(), Fault> {
    for edit in edits {
        if edit.removed > 0 {
            rope.try_remove(edit.place..edit.place.saturating_add(edit.removed))?;
        }
        if let Some(c) = edit.typed {
            rope.try_insert_char(edit.place, c)?;
        }
    }
    Ok(())
}
