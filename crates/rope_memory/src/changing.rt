//! Changes as values, versions made by them, and documents that follow an editor.
use crate::TRIES;
use crate::edits::{fingerprint, made, repeated, show};
use rope_changes::{ChangeError, ChangeSet, Edit, Side};
use rope_documents::{ContentChange, DocumentError, Range, apply_content_changes};
use rope_history::History;
use rope_position::{Encoding, Position};
use ropey::Rope;
use std::alloc::Global;
use std::borrow::CowStr;
use std::io::Print;

/// Edits of a text of 4,000 characters.
const EDITS: [Edit<'static>; 3] = [
    Edit {
        start: 0,
        end: 1,
        text: "X",
    },
    Edit {
        start: 2_000,
        end: 2_004,
        text: "",
    },
    Edit {
        start: 4_000,
        end: 4_000,
        text: "end\n",
    },
];

/// A single insert, which is made in place.
const INSERT: [Edit<'static>; 1] = [Edit {
    start: 5,
    end: 5,
    text: "y",
}];

/// An edit that inserts and removes.
const REPLACE: [Edit<'static>; 1] = [Edit {
    start: 5,
    end: 6,
    text: "zz",
}];

/// Changes that are made of others.
#[derive(Clone, Copy)]
enum Maker<'a, 'b> {
    /// A change of edits of a text of some length.
    Edits(usize, &'a [Edit<'static>]),
    /// The inverse of a change of a rope's text.
    Inverse(&'a ChangeSet, &'b Rope),
    /// Two changes in a row.
    Both(&'a ChangeSet, &'b ChangeSet),
    /// The first change, rebased over the second.
    Rebased(&'a ChangeSet, &'b ChangeSet),
}

fn make_once(alloc: Global, maker: Maker<'_, '_>) -> Result<ChangeSet, ChangeError> {
    match maker {
        Maker::Edits(len, edits) => ChangeSet::of_edits(alloc, len, edits),
        Maker::Inverse(change, rope) => change.invert(rope),
        Maker::Both(first, second) => first.compose(second),
        Maker::Rebased(change, over) => change.rebase(over, Side::After),
    }
}

/// Makes a change, again if memory was refused.
fn make(alloc: Global, maker: Maker<'_, '_>) -> Option<ChangeSet> {
    for _ in 0..TRIES {
        match make_once(alloc, maker) {
            Ok(change) => return Some(change),
            Err(ChangeError::OutOfMemory) => {}
            Err(_) => return None,
        }
    }
    None
}

/// Applies a change, again if memory was refused, and counts the failures that changed the rope.
fn apply(rope: &mut Rope, change: &ChangeSet, faults: &mut usize) -> bool {
    let before = fingerprint(rope);
    for _ in 0..TRIES {
        match change.apply(rope) {
            Ok(()) => return true,
            Err(ChangeError::OutOfMemory) => {
                if fingerprint(rope) != before {
                    *faults = faults.saturating_add(1);
                }
            }
            Err(_) => return false,
        }
    }
    false
}

/// Applies a change and its inverse, and prints the rope after each. The first is also composed
/// with the second and rebased over itself.
fn go_and_come_back(
    rt: &impl Print,
    alloc: Global,
    rope: &mut Rope,
    change: &ChangeSet,
    faults: &mut usize,
) -> bool {
    let Some(back) = make(alloc, Maker::Inverse(change, rope)) else {
        return false;
    };
    make(alloc, Maker::Both(change, &back)).is_some()
        && make(alloc, Maker::Rebased(change, change)).is_some()
        && apply(rope, change, faults)
        && show(rt, rope)
        && apply(rope, &back, faults)
        && show(rt, rope)
}

/// Returns the history of a text of 4,000 characters, made again if memory was refused.
fn history(alloc: Global) -> Option<History> {
    for _ in 0..TRIES {
        if let Ok(history) = History::new(alloc, 4_000) {
            return Some(history);
        }
    }
    None
}

/// Commits the edits, again if memory was refused, and counts the failures that changed the rope or
/// the history.
fn commit(alloc: Global, history: &mut History, rope: &mut Rope, faults: &mut usize) -> bool {
    let before = fingerprint(rope);
    for _ in 0..TRIES {
        let Some(change) = make(alloc, Maker::Edits(4_000, &EDITS)) else {
            return false;
        };
        match history.commit(rope, change) {
            Ok(()) => return true,
            Err(ChangeError::OutOfMemory) => {
                if fingerprint(rope) != before || history.len_versions() != 1 {
                    *faults = faults.saturating_add(1);
                }
            }
            Err(_) => return false,
        }
    }
    false
}

/// Undoes the last version, again if memory was refused, and counts the failures that changed the
/// rope or the history.
fn undo(history: &mut History, rope: &mut Rope, faults: &mut usize) -> bool {
    let (before, current) = (fingerprint(rope), history.current());
    for _ in 0..TRIES {
        match history.undo(rope) {
            Ok(left) => return left.is_some(),
            Err(ChangeError::OutOfMemory) => {
                if fingerprint(rope) != before || history.current() != current {
                    *faults = faults.saturating_add(1);
                }
            }
            Err(_) => return false,
        }
    }
    false
}

fn commit_and_undo(rt: &impl Print, alloc: Global, rope: &mut Rope, faults: &mut usize) -> bool {
    match history(alloc) {
        Some(mut history) => {
            commit(alloc, &mut history, rope, faults)
                && show(rt, rope)
                && undo(&mut history, rope, faults)
                && show(rt, rope)
        }
        None => false,
    }
}

/// Follows an editor that replaces a line and then inserts one before all, again if memory was
/// refused, and counts the failures that changed the document.
fn follow(alloc: Global, document: &mut Rope, faults: &mut usize) -> bool {
    let before = fingerprint(document);
    let start = Position { line: 1, column: 0 };
    let end = Position { line: 2, column: 0 };
    let top = Position { line: 0, column: 0 };
    let sent = [(start, end, "second\n"), (top, top, "title\n")].map(|(start, end, text)| {
        ContentChange {
            range: Some(Range { start, end }),
            text: CowStr::Borrowed(text),
        }
    });
    for _ in 0..TRIES {
        match apply_content_changes(alloc, document, &sent, Encoding::Utf16) {
            Ok(_) => return true,
            Err(DocumentError::OutOfMemory) => {
                if fingerprint(document) != before {
                    *faults = faults.saturating_add(1);
                }
            }
            Err(_) => return false,
        }
    }
    false
}

/// Makes a change of edits and applies it.
fn edit(alloc: Global, rope: &mut Rope, edits: &[Edit<'static>], faults: &mut usize) -> bool {
    match make(alloc, Maker::Edits(rope.len_chars(), edits)) {
        Some(change) => apply(rope, &change, faults),
        None => false,
    }
}

/// Changes a rope, by changes, in a history and as a document, and prints it after each.
fn change_and_show(rt: &impl Print, alloc: Global, rope: &mut Rope, faults: &mut usize) -> bool {
    match make(alloc, Maker::Edits(4_000, &EDITS)) {
        Some(change) => {
            go_and_come_back(rt, alloc, rope, &change, faults)
                && commit_and_undo(rt, alloc, rope, faults)
                && edit(alloc, rope, &INSERT, faults)
                && edit(alloc, rope, &REPLACE, faults)
                && show(rt, rope)
                && follow(alloc, rope, faults)
                && show(rt, rope)
        }
        None => false,
    }
}

/// Changes a rope of 1,000 lines.
fn change_lines(rt: &impl Print, alloc: Global, text: &str, faults: &mut usize) -> bool {
    match made(alloc, text) {
        Some(mut rope) => change_and_show(rt, alloc, &mut rope, faults),
        None => false,
    }
}

/// Runs all calls of changes, and counts the failures that changed something.
pub fn run(rt: &impl Print, alloc: Global, faults: &mut usize) -> bool {
    match repeated(alloc, "abc\n", 1_000) {
        Some(text) => change_lines(rt, alloc, text.as_str(), faults),
        None => false,
    }
}
