//! The maker of nodes, which counts them.
ghost use Rattle.std.specs.Prelude.{◌≡◌, ◌+◌, ◌<◌, ◌≤◌, ◌^◌};

use std::alloc::{AllocError, Global};

/// A result of an allocation: the value made, or the error of the allocator.
pub type Made<T> = Result<T, AllocError>;

/// The allocator of nodes, and the number of nodes made.
#[derive(Clone, Copy)]
pub struct Maker {
    pub alloc: Global,
    pub made: u64,
}

impl Maker {
    /// Creates a maker that has made no node yet.
    pub fn new(alloc: Global) -> Maker
        ensures { result.made ≡ 0 }
    {
        Maker { alloc, made: 0 }
    }

    /// Counts one more node. The count saturates.
    pub fn add_made(&mut self)
        ensures most { self.new.made ≤ self.old.made + 1 }
        ensures added { self.old.made + 1 < 2 ^ 64 → self.new.made ≡ self.old.made + 1 }
        ensures rises { self.old.made ≤ self.new.made }
    {
        self.made = self.made.saturating_add(1);
    }

    /// Counts nodes that were made without this maker.
    pub fn add_all_made(&mut self, nodes: usize)
        ensures most { self.new.made ≤ self.old.made + nodes }
        ensures added { self.old.made + nodes < 2 ^ 64 → self.new.made ≡ self.old.made + nodes }
        ensures rises { self.old.made ≤ self.new.made }
    {
        self.made = self.made.saturating_add(nodes as u64);
    }
}
