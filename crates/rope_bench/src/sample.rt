//! The text and the rope of a workload.
use crate::edits::insert_chars_at_random;
use crate::fault::Fault;
use ropey::Rope;
use std::alloc::Global;

/// The minimum number of bytes of a text.
const BYTES: usize = 10_000_000;

/// The number of characters inserted to fragment a rope.
const WEAR: usize = 200_000;

/// The factor by which texts and numbers of operations are smaller if nothing is timed.
const SHARE: usize = 100;

/// The size of a workload.
#[derive(Clone, Copy)]
pub enum Size {
    /// The size that is timed.
    Full,
    /// A hundredth of it, to compare checksums.
    Small,
}

impl Size {
    /// Returns `full`, or a hundredth of it.
    pub fn of(self, full: usize) -> usize {
        match self {
            Size::Full => full,
            Size::Small => full / SHARE,
        }
    }

    /// Returns the minimum number of bytes of a text.
    pub fn bytes(self) -> usize {
        self.of(BYTES)
    }
}

/// The state of a rope.
#[derive(Clone, Copy)]
pub enum State {
    /// As made of its text.
    New,
    /// Fragmented by inserts of characters at random indices.
    Edited,
}

impl State {
    /// Returns the beginning of the names of the workloads on such a rope.
    pub fn start(self) -> &'static str {
        match self {
            State::New => "",
            State::Edited => "edited_",
        }
    }
}

/// A text, and a rope of it.
#[derive(Drop)]
pub struct Sample {
    /// The allocator.
    pub alloc: Global,
    /// The text, before any edits.
    pub text: String,
    /// A rope of the text.
    pub rope: Rope,
    size: Size,
    state: State,
}

impl Sample {
    /// Returns a text and its rope.
    pub fn new(alloc: Global, text: String, size: Size, state: State) -> Result<Sample, Fault> {
        let rope = rope_of(alloc, text.as_str(), size, state)?;
        Ok(Sample {
            alloc,
            text,
            rope,
            size,
            state,
        })
    }

    /// Returns `full` operations, or a hundredth of them.
    pub fn operations(&self, full: usize) -> usize {
        self.size.of(full)
    }

    /// Returns another rope like the sample's, without shared nodes.
    pub fn fresh(&self) -> Result<Rope, Fault> {
        rope_of(self.alloc, self.text.as_str(), self.size, self.state)
    }

    /// Returns the approximate number of characters of `bytes` bytes of the text.
    pub fn chars_of_bytes(&self, bytes: usize) -> usize {
        bytes
            .saturating_mul(self.rope.len_chars())
            .checked_div(self.rope.len_bytes())
            .unwrap_or(0)
    }
}

/// Returns a rope of the text, fragmented if requested.
fn rope_of(alloc: Global, text: &str, size: Size, state: State) -> Result<Rope, Fault> {
    let mut rope = Rope::from_str(alloc, text)?;
    if let State::Edited = state {
        insert_chars_at_random(&mut rope, size.of(WEAR))?;
    }
    Ok(rope)
}
