//! Ropes of 1 MB to 1 GB.
use crate::edits::insert_chars_at_random;
use crate::fault::Fault;
use crate::keeping::edit_and_keep;
use crate::measure::{Outcome, lens, mix, now};
use crate::texts::{Text, repeated};
use ropey::{Rope, RopeBuilder};
use std::alloc::Global;
use std::time::CpuClock;

/// The number of bytes of the prose that longer texts repeat.
const PROSE: usize = 10_000_000;

/// A length of a text.
#[derive(Clone, Copy)]
pub enum Length {
    One,
    Ten,
    Hundred,
    Thousand,
}

/// All lengths, in order.
pub const LENGTHS: [Length; 4] = [Length::One, Length::Ten, Length::Hundred, Length::Thousand];

impl Length {
    /// Returns the end of the names of the workloads on such a text.
    pub fn ending(self) -> &'static str {
        match self {
            Length::One => "/1MB",
            Length::Ten => "/10MB",
            Length::Hundred => "/100MB",
            Length::Thousand => "/1GB",
        }
    }

    /// Returns prose of this length.
    pub fn text(self, alloc: Global) -> Result<String, Fault> {
        match self {
            Length::One => Text::Prose.make(alloc, PROSE / 10),
            Length::Ten => Text::Prose.make(alloc, PROSE),
            Length::Hundred => prose_repeated(alloc, 10),
            Length::Thousand => prose_repeated(alloc, 100),
        }
    }
}

fn prose_repeated(alloc: Global, count: usize) -> Result<String, Fault> {
    let prose = Text::Prose.make(alloc, PROSE)?;
    repeated(alloc, prose.as_str(), count)
}

/// The treatment of a rope of 100 MB before the process ends, so that its memory can be measured.
#[derive(Clone, Copy)]
pub enum Memory {
    /// Nothing.
    Made,
    /// Inserts a million characters at random indices.
    Inserted,
    /// Keeps ten thousand clones, and inserts a character after each.
    Cloned,
}

/// All of them, in order.
pub const MEMORIES: [Memory; 3] = [Memory::Made, Memory::Inserted, Memory::Cloned];

impl Memory {
    /// Returns its name.
    pub fn name(self) -> &'static str {
        match self {
            Memory::Made => "mem_made",
            Memory::Inserted => "mem_inserted",
            Memory::Cloned => "mem_cloned",
        }
    }

    /// Returns the number of edits.
    fn edits(self) -> usize {
        match self {
            Memory::Made => 0,
            Memory::Inserted => 1_000_000,
            Memory::Cloned => 10_000,
        }
    }
}

/// Makes the rope and runs the edits.
pub fn fill<C: CpuClock>(clock: &C, alloc: Global, what: Memory) -> Result<Outcome, Fault> {
    let start = now(clock);
    let mut rope = long_rope(alloc)?;
    let count = what.edits();
    let kept = match what {
        Memory::Cloned => edit_and_keep(alloc, &mut rope, count)?,
        _ => {
            insert_chars_at_random(&mut rope, count)?;
            Vec::new(alloc)
        }
    };
    let end = now(clock);
    Outcome::new(count.max(1), start, end, mix(lens(&rope), kept.len()))
}

/// Returns a rope of 100 MB. Its text is passed in pieces, so that it takes no memory of its own.
fn long_rope(alloc: Global) -> Result<Rope, Fault> {
    let prose = Text::Prose.make(alloc, PROSE)?;
    let mut builder = RopeBuilder::new(alloc)?;
    for _ in 0..10 {
        builder.append(prose.as_str())?;
    }
    Ok(builder.finish()?)
}
