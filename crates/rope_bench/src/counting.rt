//! Counts over a plain text, ten times the sample's.
use crate::fault::Fault;
use crate::measure::{Outcome, now};
use crate::sample::Sample;
use crate::texts::repeated;
use rope_text::{LineBreaks, str_utils};
use ropey::RopeSlice;
use std::time::CpuClock;

/// A count.
#[derive(Clone, Copy)]
pub enum Counting {
    /// Characters.
    Chars,
    /// Line breaks of a set.
    Breaks(LineBreaks),
    /// Characters that take two UTF-16 code units.
    Pairs,
    /// Characters, lines and code units of a slice of the text, which is read to be counted.
    Slice,
}

impl Counting {
    /// Returns the name of the workload.
    pub fn name(self) -> &'static str {
        match self {
            Counting::Chars => "count_chars_100MB",
            Counting::Breaks(LineBreaks::Unicode) => "count_breaks_100MB",
            Counting::Breaks(LineBreaks::Lf) => "count_breaks_lf_100MB",
            Counting::Breaks(LineBreaks::CrLf) => "count_breaks_crlf_100MB",
            Counting::Pairs => "count_utf16_100MB",
            Counting::Slice => "slice_from_str_100MB",
        }
    }

    fn of(self, text: &str) -> usize {
        match self {
            Counting::Chars => str_utils::count_chars(text),
            Counting::Breaks(breaks) => str_utils::count_breaks(text, breaks),
            Counting::Pairs => str_utils::count_surrogates(text),
            Counting::Slice => counts_of_slice(text),
        }
    }
}

fn counts_of_slice(text: &str) -> usize {
    let slice = RopeSlice::from(text);
    slice
        .len_chars()
        .wrapping_add(slice.len_lines())
        .wrapping_add(slice.len_utf16_cu())
}

/// Counts once over the text.
pub fn count<C: CpuClock>(clock: &C, sample: &Sample, what: Counting) -> Result<Outcome, Fault> {
    let text = repeated(sample.alloc, sample.text.as_str(), 10)?;
    let start = now(clock);
    let counted = what.of(text.as_str());
    let end = now(clock);
    Outcome::new(1, start, end, counted as u64)
}
