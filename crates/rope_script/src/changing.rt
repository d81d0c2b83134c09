//! Edits of one of the ropes.
ghost use Rattle.std.specs.Prelude.{◌≡◌, ◌∷◌, [], map};
ghost use Rattle.std.specs.Str.{chars};
ghost use Rattle.ropey.specs.View.{content};
ghost use Rattle.rope_script.specs.Step.{edit_reply, Inserts, Removes, Joins, Shrinks};

use crate::script::Reply;
use ropey::{Error, IndexRange, Result, Rope};

/// Inserts a text into a rope.
pub(crate) fn insert(ropes: &mut Vec<Rope>, rope: usize, char_idx: usize, text: &str) -> Reply
    ensures { Inserts rope char_idx (chars text.now) (map content ropes.old.items) result
        (map content ropes.new.items) }
{
    if rope >= ropes.len() {
        return Reply::NoRope;
    }
    reply_to_edit(ropes[rope].try_insert(char_idx, text))
}

/// Inserts a character into a rope.
pub(crate) fn insert_char(ropes: &mut Vec<Rope>, rope: usize, char_idx: usize, c: char) -> Reply
    ensures { Inserts rope char_idx (c ∷ []) (map content ropes.old.items) result
        (map content ropes.new.items) }
{
    if rope >= ropes.len() {
        return Reply::NoRope;
    }
    reply_to_edit(ropes[rope].try_insert_char(char_idx, c))
}

/// A range by its two bounds, each `None` if it is open.
#[derive(Clone, Copy)]
struct Bounds {
    start: Option<usize>,
    end: Option<usize>,
}

impl IndexRange for Bounds {
    ghost given_start = { λ bounds. bounds.start };

    ghost given_end = { λ bounds. bounds.end };

    fn start(&self) -> Option<usize> {
        self.start
    }

    fn end(&self) -> Option<usize> {
        self.end
    }
}

/// Removes characters from a rope.
pub(crate) fn remove(
    ropes: &mut Vec<Rope>,
    rope: usize,
    start: Option<usize>,
    end: Option<usize>,
) -> Reply
    ensures { Removes rope start end (map content ropes.old.items) result
        (map content ropes.new.items) }
{
    if rope >= ropes.len() {
        return Reply::NoRope;
    }
    reply_to_edit(ropes[rope].try_remove(Bounds { start, end }))
}

/// Appends the text of one rope to another. Checks line breaks and lengths before it makes a clone,
/// so that an error takes no memory.
pub(crate) fn join(ropes: &mut Vec<Rope>, rope: usize, other: usize) -> Reply
    ensures { Joins rope other (map content ropes.old.items) result (map content ropes.new.items) }
{
    if rope >= ropes.len() || other >= ropes.len() {
        return Reply::NoRope;
    }
    if let Some(error) = ropes[rope].append_error(&ropes[other]) {
        return Reply::Refused(error);
    }
    match ropes[other].clone() {
        Ok(clone) => reply_to_edit(ropes[rope].append(clone)),
        Err(_) => Reply::Refused(Error::OutOfMemory),
    }
}

/// Re-chunks the text of a rope.
pub(crate) fn shrink(ropes: &mut Vec<Rope>, rope: usize) -> Reply
    ensures { Shrinks rope (map content ropes.old.items) result (map content ropes.new.items) }
{
    if rope >= ropes.len() {
        return Reply::NoRope;
    }
    reply_to_edit(ropes[rope].shrink_to_fit())
}

/// Returns the reply to an edit that was done or failed.
fn reply_to_edit(edit: Result<()>) -> Reply
    ensures { result ≡ edit_reply edit }
{
    match edit {
        Ok(()) => Reply::Done,
        Err(error) => Reply::Refused(error),
    }
}
