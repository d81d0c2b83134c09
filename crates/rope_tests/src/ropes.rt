//! Ropes with which tests begin: to make one succeeds if there is memory.
use rope_plain::texts::repeated;
use ropey::Rope;
use std::alloc::Global;
use std::process::Abort;

/// Returns a rope of a text.
pub fn rope_of(rt: &impl Abort, alloc: Global, text: &str) -> Rope {
    Rope::from_str(alloc, text).expect(rt, "there is memory")
}

/// Returns the number of a rope's chunks. A function of its own, since each call of the iterator
/// is proved anew.
pub fn chunk_count(rope: &Rope) -> usize {
    rope.chunks().count()
}

/// Returns a rope of a text, `count` times.
pub fn rope_of_repeated(rt: &impl Abort, alloc: Global, text: &str, count: usize) -> Rope {
    let text = repeated(alloc, text, count).expect(rt, "there is memory");
    rope_of(rt, alloc, text.as_str())
}
