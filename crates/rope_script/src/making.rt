//! Making ropes: empty, of a text, of another rope.
ghost use Rattle.std.specs.Prelude.{◌≡◌, ◌<◌, ◌++◌, ◌∷◌, [], length, OnErr, IfErr, IfOk, vec_len, vec_capacity, map};
ghost use Rattle.std.specs.Str.{chars};
ghost use Rattle.rope_text.specs.declared.error.Error.TheVariants.{OutOfMemory};
ghost use Rattle.rope_text.specs.declared.line_breaks.LineBreaks.TheVariants.{Unicode};
ghost use Rattle.rope_text.specs.Content.{HasFewChunks};
ghost use Rattle.ropey.specs.View.{content};
ghost use Rattle.rope_script.specs.Step.{Adds, AddsSame, OrNoMemory, OfRope, Copies, Cuts};

use crate::asking::part_of;
use crate::script::Reply;
use ropey::{Error, LineBreaks, Result, Rope};
use std::alloc::Global;

/// Adds an empty rope with Unicode's line breaks.
pub(crate) fn make_empty(alloc: Global, ropes: &mut Vec<Rope>) -> Result<Reply>
    ensures step { IfOk result
        (λ reply. OrNoMemory
        (Adds [] Unicode HasFewChunks (map content ropes.old.items) reply
        (map content ropes.new.items))
        (map content ropes.old.items) reply (map content ropes.new.items)) }
    ensures err { OnErr result (ropes.new.items ≡ ropes.old.items) }
    ensures memory { IfErr result (λ e. e ≡ OutOfMemory) }
{
    ropes.reserve(1)?;
    match Rope::new(alloc) {
        Ok(rope) => Ok(add(ropes, rope)),
        Err(error) => Ok(Reply::Refused(error)),
    }
}

/// Adds a rope of the text with the given line breaks.
pub(crate) fn make_text(
    alloc: Global,
    ropes: &mut Vec<Rope>,
    breaks: LineBreaks,
    text: &str,
) -> Result<Reply>
    ensures step { IfOk result
        (λ reply. OrNoMemory
        (Adds (chars text.now) breaks HasFewChunks (map content ropes.old.items) reply
        (map content ropes.new.items))
        (map content ropes.old.items) reply (map content ropes.new.items)) }
    ensures err { OnErr result (ropes.new.items ≡ ropes.old.items) }
    ensures memory { IfErr result (λ e. e ≡ OutOfMemory) }
{
    ropes.reserve(1)?;
    match Rope::from_str_with(alloc, text, breaks) {
        Ok(rope) => Ok(add(ropes, rope)),
        Err(error) => Ok(Reply::Refused(error)),
    }
}

/// Adds a clone of a rope.
pub(crate) fn make_clone(ropes: &mut Vec<Rope>, rope: usize) -> Result<Reply>
    ensures step { IfOk result
        (λ reply. OfRope rope
        (λ cloned. OrNoMemory
        (AddsSame cloned (map content ropes.old.items) reply (map content ropes.new.items))
        (map content ropes.old.items) reply (map content ropes.new.items))
        (map content ropes.old.items) reply (map content ropes.new.items)) }
    ensures err { OnErr result (ropes.new.items ≡ ropes.old.items) }
    ensures memory { IfErr result (λ e. e ≡ OutOfMemory) }
{
    if rope >= ropes.len() {
        return Ok(Reply::NoRope);
    }
    ropes.reserve(1)?;
    match ropes[rope].clone() {
        Ok(clone) => Ok(add(ropes, clone)),
        Err(_) => Ok(Reply::Refused(Error::OutOfMemory)),
    }
}

/// Adds a rope of a slice of a rope.
pub(crate) fn copy(
    alloc: Global,
    ropes: &mut Vec<Rope>,
    rope: usize,
    range: Option<(usize, usize)>,
) -> Result<Reply>
    ensures step { IfOk result (λ reply. Copies rope range (map content ropes.old.items) reply
        (map content ropes.new.items)) }
    ensures err { OnErr result (ropes.new.items ≡ ropes.old.items) }
    ensures memory { IfErr result (λ e. e ≡ OutOfMemory) }
{
    if rope >= ropes.len() {
        return Ok(Reply::NoRope);
    }
    let Some(part) = part_of(&ropes[rope], range) else {
        return Ok(Reply::NoSlice);
    };
    let copy = Rope::from_slice(alloc, part);
    ropes.reserve(1)?;
    match copy {
        Ok(copy) => Ok(add(ropes, copy)),
        Err(error) => Ok(Reply::Refused(error)),
    }
}

/// Splits a rope in two.
pub(crate) fn cut(ropes: &mut Vec<Rope>, rope: usize, char_idx: usize) -> Result<Reply>
    ensures step { IfOk result (λ reply. Cuts rope char_idx (map content ropes.old.items) reply
        (map content ropes.new.items)) }
    ensures err { OnErr result (ropes.new.items ≡ ropes.old.items) }
    ensures memory { IfErr result (λ e. e ≡ OutOfMemory) }
{
    if rope >= ropes.len() {
        return Ok(Reply::NoRope);
    }
    ropes.reserve(1)?;
    match ropes[rope].try_split_off(char_idx) {
        Ok(back) => Ok(add(ropes, back)),
        Err(error) => Ok(Reply::Refused(error)),
    }
}

/// Adds a rope, for which there is room.
fn add(ropes: &mut Vec<Rope>, rope: Rope) -> Reply
    requires { vec_len ropes.old < vec_capacity ropes.old }
    ensures reply { result ≡ Reply.Made (length ropes.old.items) }
    ensures added { ropes.new.items ≡ ropes.old.items ++ rope ∷ [] }
{
    let number = ropes.len();
    ropes.push(rope).unwrap();
    Reply::Made(number)
}
