//! A first edit, by calls that return an error for an index out of bounds.
use ropey::{Result, Rope};
use std::alloc::Global;

/// Makes a text of three lines and replaces the second one.
pub fn with_flowers(alloc: Global) -> Result<Rope> {
    let mut rope = Rope::from_str(alloc, "one\ntwo\nthree\n")?;
    let start = rope.try_line_to_char(1)?;
    let end = rope.try_line_to_char(2)?;
    rope.try_remove(start..end)?;
    rope.try_insert(start, "flowers\n")?;
    Ok(rope)
}
