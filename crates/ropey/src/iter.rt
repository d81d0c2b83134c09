//! Cursors over ropes and slices, which step in both directions.

pub use rope_slice::{Bytes, Chars, Chunks, Lines};
