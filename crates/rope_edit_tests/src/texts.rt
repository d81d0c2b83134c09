//! Texts of one letter, repeated, and the number of chunks.
use ropey::Rope;
use std::alloc::AllocError;

/// Returns the number of a rope's chunks. A function of its own, since each call of the iterator
/// is proved anew.
pub fn chunk_count(rope: &Rope) -> usize {
    rope.chunks().count()
}

/// Appends a letter `count` times.
pub fn add_letters(text: &mut String, letter: &str, count: usize) -> Result<(), AllocError> {
    for _ in 0..count {
        text.push_str(letter)?;
    }
    Ok(())
}
