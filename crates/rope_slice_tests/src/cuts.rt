//! Slices of ropes and of slices by each call that makes them, if there are any.
use ropey::{Rope, RopeSlice};

/// Returns the characters from `start` up to `end`.
pub fn between(rope: &Rope, start: usize, end: usize) -> Option<RopeSlice<'_>> {
    if rope.get_slice(start..end).is_none() {
        return None;
    }
    Some(rope.slice(start..end))
}

/// Returns the characters of the bytes from `start` up to `end`.
pub fn byte_between(rope: &Rope, start: usize, end: usize) -> Option<RopeSlice<'_>> {
    if rope.try_byte_slice(start..end).is_err() {
        return None;
    }
    Some(rope.byte_slice(start..end))
}

/// Returns a slice's characters from `start` up to `end`.
pub fn part<'a>(slice: &RopeSlice<'a>, start: usize, end: usize) -> Option<RopeSlice<'a>> {
    if slice.get_slice(start..end).is_none() {
        return None;
    }
    Some(slice.slice(start..end))
}

/// Returns a slice's characters of the bytes from `start` up to `end`.
pub fn byte_part<'a>(slice: &RopeSlice<'a>, start: usize, end: usize) -> Option<RopeSlice<'a>> {
    if slice.try_byte_slice(start..end).is_err() {
        return None;
    }
    Some(slice.byte_slice(start..end))
}

/// Returns a slice's bytes, characters, lines and code units.
pub fn lens(slice: &RopeSlice<'_>) -> [usize; 4] {
    [
        slice.len_bytes(),
        slice.len_chars(),
        slice.len_lines(),
        slice.len_utf16_cu(),
    ]
}
