//! The workloads by name, and the lists of those for each kind of sample.
use crate::changing::{Changing, change};
use crate::comparing::{Comparing, compare};
use crate::counting::{Counting, count};
use crate::cursors::{Walk, go_over};
use crate::editing::{Append, Edit, append_ropes, edit_rope};
use crate::fault::Fault;
use crate::keeping::{Keeping, keep};
use crate::lookups::{LookUp, look_up};
use crate::making::{Making, make};
use crate::measure::Outcome;
use crate::numbers::Fnv;
use crate::reading::{Reading, read};
use crate::sample::Sample;
use crate::screens::{Screen, draw};
use crate::slicing::{Slicing, slice};
use rope_text::LineBreaks;
use std::time::CpuClock;

/// A workload that is timed.
#[derive(Clone, Copy)]
pub enum Workload {
    /// No call: the text itself in one number.
    Text,
    Make(Making),
    Read(Reading),
    Edit(Edit),
    Append(Append),
    Keep(Keeping),
    Change(Changing),
    LookUp(LookUp),
    Slice(Slicing),
    Walk(Walk),
    Draw(Screen),
    Compare(Comparing),
    Count(Counting),
}

/// The workloads on each of the texts, in order.
pub const OF_TEXTS: [Workload; 104] = [
    Workload::Text,
    Workload::Make(Making::FromStr),
    Workload::Make(Making::BuilderByLines),
    Workload::Make(Making::FromIter),
    Workload::Make(Making::FromStrSmall),
    Workload::Make(Making::FromStrPieces),
    Workload::Make(Making::FromSlice),
    Workload::Make(Making::FromLongSlice),
    Workload::Read(Reading::Text),
    Workload::Read(Reading::LongText),
    Workload::Read(Reading::Pieces),
    Workload::Read(Reading::WriteTo),
    Workload::Read(Reading::ToString),
    Workload::Read(Reading::IntoString),
    Workload::Edit(Edit::InsertCharRandom),
    Workload::Edit(Edit::InsertCharCoherent),
    Workload::Edit(Edit::InsertStrRandom),
    Workload::Edit(Edit::InsertLong),
    Workload::Edit(Edit::RemoveRandom),
    Workload::Edit(Edit::RemoveInsertRandom),
    Workload::Edit(Edit::RemoveLong),
    Workload::Edit(Edit::SplitAndAppend),
    Workload::Edit(Edit::SplitAnywhere),
    Workload::Append(Append::ToRope),
    Workload::Append(Append::ToEmpty),
    Workload::Edit(Edit::TypeFromEmpty),
    Workload::Edit(Edit::ShrinkToFitLong),
    Workload::Keep(Keeping::CloneAndInsert),
    Workload::Keep(Keeping::Undo),
    Workload::Keep(Keeping::UndoDrop),
    Workload::Change(Changing::Type),
    Workload::Change(Changing::Carets),
    Workload::Change(Changing::Words),
    Workload::Change(Changing::Invert),
    Workload::Change(Changing::Compose),
    Workload::Change(Changing::Indices),
    Workload::LookUp(LookUp::CharToByte),
    Workload::LookUp(LookUp::CharToLine),
    Workload::LookUp(LookUp::CharToUtf16),
    Workload::LookUp(LookUp::ByteToChar),
    Workload::LookUp(LookUp::ByteToLine),
    Workload::LookUp(LookUp::LineToChar),
    Workload::LookUp(LookUp::LineToByte),
    Workload::LookUp(LookUp::Utf16ToChar),
    Workload::LookUp(LookUp::CharToPosition),
    Workload::LookUp(LookUp::PositionToChar),
    Workload::LookUp(LookUp::Byte),
    Workload::LookUp(LookUp::Char),
    Workload::LookUp(LookUp::Line),
    Workload::LookUp(LookUp::ChunkAtByte),
    Workload::LookUp(LookUp::ChunkAtChar),
    Workload::LookUp(LookUp::ChunkAtLineBreak),
    Workload::Slice(Slicing::Line),
    Workload::Slice(Slicing::LookUps),
    Workload::Slice(Slicing::Conversions),
    Workload::Slice(Slicing::Items),
    Workload::Slice(Slicing::ChunksAt),
    Workload::Slice(Slicing::CursorsAt),
    Workload::Slice(Slicing::Chars),
    Workload::Slice(Slicing::Bytes),
    Workload::Slice(Slicing::Lines),
    Workload::Slice(Slicing::OfSlice),
    Workload::Slice(Slicing::OfBytes),
    Workload::Slice(Slicing::ToString),
    Workload::Slice(Slicing::IntoString),
    Workload::Slice(Slicing::ToCow),
    Workload::Walk(Walk::Bytes),
    Workload::Walk(Walk::BytesBack),
    Workload::Walk(Walk::BytesReversed),
    Workload::Walk(Walk::Chars),
    Workload::Walk(Walk::CharsBack),
    Workload::Walk(Walk::CharsReversed),
    Workload::Walk(Walk::Lines),
    Workload::Walk(Walk::LinesBack),
    Workload::Walk(Walk::LinesReversed),
    Workload::Walk(Walk::Chunks),
    Workload::Walk(Walk::ChunksBack),
    Workload::Walk(Walk::ChunksReversed),
    Workload::Walk(Walk::BytesAtAnd10),
    Workload::Walk(Walk::CharsAtAnd10),
    Workload::Walk(Walk::ChunksAtByteAnd3),
    Workload::Walk(Walk::ChunksAtCharAnd3),
    Workload::Walk(Walk::ChunksAtBreakAnd3),
    Workload::Walk(Walk::NextPrev),
    Workload::Walk(Walk::Zigzag),
    Workload::Walk(Walk::CloneChars),
    Workload::Walk(Walk::CloneLines),
    Workload::Draw(Screen::Bytes),
    Workload::Draw(Screen::BytesBack),
    Workload::Draw(Screen::Lengths),
    Workload::Draw(Screen::Chars),
    Workload::Draw(Screen::AsStr),
    Workload::Compare(Comparing::Equal),
    Workload::Compare(Comparing::Order),
    Workload::Compare(Comparing::Slices),
    Workload::Compare(Comparing::Text),
    Workload::Compare(Comparing::HashFnv),
    Workload::Compare(Comparing::HashLens),
    Workload::Count(Counting::Chars),
    Workload::Count(Counting::Breaks(LineBreaks::Unicode)),
    Workload::Count(Counting::Breaks(LineBreaks::Lf)),
    Workload::Count(Counting::Breaks(LineBreaks::CrLf)),
    Workload::Count(Counting::Pairs),
    Workload::Count(Counting::Slice),
];

/// The workloads on a fragmented rope of each of the texts, in order.
pub const OF_EDITED: [Workload; 14] = [
    Workload::Edit(Edit::InsertCharRandom),
    Workload::Edit(Edit::RemoveRandom),
    Workload::Edit(Edit::ShrinkToFit),
    Workload::LookUp(LookUp::CharToByte),
    Workload::LookUp(LookUp::CharToLine),
    Workload::LookUp(LookUp::CharToUtf16),
    Workload::LookUp(LookUp::LineToChar),
    Workload::LookUp(LookUp::Byte),
    Workload::LookUp(LookUp::Char),
    Workload::Walk(Walk::Bytes),
    Workload::Walk(Walk::Chars),
    Workload::Walk(Walk::Lines),
    Workload::Walk(Walk::Chunks),
    Workload::Read(Reading::IntoString),
];

/// The workload without a text.
pub const OF_NONE: [Workload; 1] = [Workload::Edit(Edit::GrowFromEmpty)];

/// The workloads on texts of several lengths, in order.
pub const OF_LENGTHS: [Workload; 4] = [
    Workload::Make(Making::FromStr),
    Workload::LookUp(LookUp::Byte),
    Workload::LookUp(LookUp::CharToLine),
    Workload::Edit(Edit::InsertCharRandom),
];

/// The workloads on lines of several lengths, in order.
pub const OF_LINE_LENGTHS: [Workload; 11] = [
    Workload::Walk(Walk::Lines),
    Workload::Walk(Walk::LinesBack),
    Workload::Walk(Walk::LinesAt),
    Workload::Walk(Walk::LinesAtBack),
    Workload::LookUp(LookUp::Line),
    Workload::LookUp(LookUp::ChunkAtLineBreak),
    Workload::LookUp(LookUp::CharToLine),
    Workload::LookUp(LookUp::LineToChar),
    Workload::Walk(Walk::BytesAt),
    Workload::Walk(Walk::CharsAt),
    Workload::Walk(Walk::ChunksAtByte),
];

impl Workload {
    /// Returns its name.
    pub fn name(self) -> &'static str {
        match self {
            Workload::Text => "text",
            Workload::Make(what) => what.name(),
            Workload::Read(what) => what.name(),
            Workload::Edit(what) => what.name(),
            Workload::Append(what) => what.name(),
            Workload::Keep(what) => what.name(),
            Workload::Change(what) => what.name(),
            Workload::LookUp(what) => what.name(),
            Workload::Slice(what) => what.name(),
            Workload::Walk(what) => what.name(),
            Workload::Draw(what) => what.name(),
            Workload::Compare(what) => what.name(),
            Workload::Count(what) => what.name(),
        }
    }

    /// Returns the fastest of `runs` runs, at least one.
    pub fn best_of<C: CpuClock>(
        self,
        clock: &C,
        sample: &Sample,
        runs: usize,
    ) -> Result<Outcome, Fault> {
        let mut best = self.run(clock, sample)?;
        for _ in 1..runs {
            let next = self.run(clock, sample)?;
            best.nanos = best.nanos.min(next.nanos);
        }
        Ok(best)
    }

    /// Runs it once.
    fn run<C: CpuClock>(self, clock: &C, sample: &Sample) -> Result<Outcome, Fault> {
        match self {
            Workload::Text => Ok(Outcome {
                operations: sample.text.len(),
                nanos: 0,
                checksum: Fnv::of(sample.text.as_str().as_bytes()),
            }),
            Workload::Make(what) => make(clock, sample, what),
            Workload::Read(what) => read(clock, sample, what),
            Workload::Edit(what) => edit_rope(clock, sample, what),
            Workload::Append(what) => append_ropes(clock, sample, what),
            Workload::Keep(what) => keep(clock, sample, what),
            Workload::Change(what) => change(clock, sample, what),
            Workload::LookUp(what) => look_up(clock, sample, what),
            Workload::Slice(what) => slice(clock, sample, what),
            Workload::Walk(what) => go_over(clock, sample, what),
            Workload::Draw(what) => draw(clock, sample, what),
            Workload::Compare(what) => compare(clock, sample, what),
            Workload::Count(what) => count(clock, sample, what),
        }
    }
}
