//! Texts by the length of their lines, and edits by the portion that they insert or remove.
use crate::fault::Fault;
use crate::texts::letters;
use std::alloc::Global;

/// The number of bytes of the text of each of these workloads.
pub const BYTES: usize = 3_000_000;

/// The beginning of the names of these workloads.
pub const START: &str = "scale_";

/// A length of lines, in characters without the line break.
#[derive(Clone, Copy)]
pub enum LineLength {
    One,
    Ten,
    Eighty,
    Thousand,
    TenThousand,
    HundredThousand,
    /// The text is one line.
    Whole,
}

/// All lengths of lines, in order.
pub const LINE_LENGTHS: [LineLength; 7] = [
    LineLength::One,
    LineLength::Ten,
    LineLength::Eighty,
    LineLength::Thousand,
    LineLength::TenThousand,
    LineLength::HundredThousand,
    LineLength::Whole,
];

impl LineLength {
    /// Returns the end of the names of the workloads on such lines.
    pub fn ending(self) -> &'static str {
        match self {
            LineLength::One => "/1",
            LineLength::Ten => "/10",
            LineLength::Eighty => "/80",
            LineLength::Thousand => "/1000",
            LineLength::TenThousand => "/10000",
            LineLength::HundredThousand => "/100000",
            LineLength::Whole => "/whole",
        }
    }

    /// Returns the number of characters of a line.
    fn chars(self) -> usize {
        match self {
            LineLength::One => 1,
            LineLength::Ten => 10,
            LineLength::Eighty => 80,
            LineLength::Thousand => 1_000,
            LineLength::TenThousand => 10_000,
            LineLength::HundredThousand => 100_000,
            LineLength::Whole => usize::MAX,
        }
    }

    /// Returns a text of `bytes` bytes in such lines.
    pub fn text(self, alloc: Global, bytes: usize) -> Result<String, Fault> {
        letters(alloc, self.chars(), bytes)
    }
}

/// The portion of a text that an edit inserts or removes.
#[derive(Clone, Copy)]
pub enum Portion {
    One,
    Ten,
    Hundred,
    Thousand,
    TenThousand,
    /// A hundredth of the text.
    Percent,
    /// Half of the text.
    Half,
}

/// All portions, in order.
pub const PORTIONS: [Portion; 7] = [
    Portion::One,
    Portion::Ten,
    Portion::Hundred,
    Portion::Thousand,
    Portion::TenThousand,
    Portion::Percent,
    Portion::Half,
];

impl Portion {
    /// Returns the end of the names of the workloads with this portion.
    pub fn ending(self) -> &'static str {
        match self {
            Portion::One => "/1B",
            Portion::Ten => "/10B",
            Portion::Hundred => "/100B",
            Portion::Thousand => "/1KB",
            Portion::TenThousand => "/10KB",
            Portion::Percent => "/1%",
            Portion::Half => "/half",
        }
    }

    /// Returns the bytes of this portion of a text of `len` bytes.
    pub fn bytes_of(self, len: usize) -> usize {
        match self {
            Portion::One => 1,
            Portion::Ten => 10,
            Portion::Hundred => 100,
            Portion::Thousand => 1_000,
            Portion::TenThousand => 10_000,
            Portion::Percent => len / 100,
            Portion::Half => len / 2,
        }
    }

    /// Returns the number of portions of a text of `len` bytes, at most `most`.
    pub fn count_in(self, len: usize, most: usize) -> usize {
        let count = len.checked_div(self.bytes_of(len));
        count.unwrap_or(0).min(most)
    }

    /// Returns a text of this portion's bytes, to be inserted into a text of `len` bytes.
    pub fn piece(self, alloc: Global, len: usize) -> Result<String, Fault> {
        LineLength::Eighty.text(alloc, self.bytes_of(len))
    }
}
