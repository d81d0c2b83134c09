//! Marks: ranges of a text that move with its changes.
ghost use Rattle.std.specs.Prelude.{◌≡◌, ◌≢◌, ◌∷◌, ◌+◌, ◌<◌, ◌≤◌, ◌↔◌, [], ℕ, length, map, filter, Some, IfSome, IfNone, IsOk, IfOk, IfErr, OnOk, OnErr, IsTrue, MatchOption, slice_index_or};
ghost use Rattle.std.specs.List.{All, Contains};
ghost use Rattle.std.specs.List.Sorted.{IsNonDecreasingBy, IsPermutation};
ghost use Rattle.rope_changes.specs.declared.error.ChangeError.TheVariants.{LengthDiffers, OutOfMemory, RangeInvalid, RangeOutOfBounds};
ghost use Rattle.rope_changes.specs.Change.{after, before, ops};
ghost use Rattle.rope_history.specs.Marking.{IsMarking, IsWithin, id_of, moved_mark, start_of, touches};
ghost use Rattle.rope_history.specs.MarkLists.{closed, mark_at, marks_in};

use rope_changes::{ChangeError, ChangeSet, Side};
use std::alloc::Global;
use std::marker::Model;

/// A range of characters, and the sides on which its ends stay where text is inserted at them.
#[derive(Clone, Copy, Debug, PartialEq, Eq)]
pub struct Mark {
    /// The number by which it is found.
    pub id: usize,
    /// The index of its first character.
    pub start: usize,
    /// The index after its last character.
    pub end: usize,
    /// The side of text inserted at `start` on which the start stays.
    pub start_side: Side,
    /// The side of text inserted at `end` on which the end stays.
    pub end_side: Side,
}

/// The marks of a text, in order of their starts. They have no values: callers keep these by the
/// numbers of the marks.
#[derive(Drop)]
pub struct Marks {
    /// In order of their numbers.
    marks: Vec<Mark>,
    /// The indices of the marks, in order of their starts.
    order: Vec<usize>,
    len: usize,
    next_id: usize,
}

impl Model for Marks {
    ghost use Rattle.rope_history.specs.MarkViews.{KeepsMarking, marking_of};
    ghost use Rattle.rope_history.specs.Marking.{Marking};

    ghost Value = { Marking };

    ghost view = { marking_of };

    ghost invariant = { KeepsMarking };
}

impl Marks {
    /// Creates marks of a text of `len` characters, none at first. Takes no memory.
    pub fn new(alloc: Global, len: usize) -> Marks
        ensures { result ≡ record { marks = []; len = len; next_id = 0 } }
    {
        Marks {
            marks: Vec::new(alloc),
            order: Vec::new(alloc),
            len,
            next_id: 0,
        }
    }

    /// Returns the number of marks.
    pub fn len(&self) -> usize
        ensures value { result ≡ length self.now.marks }
        ensures kept { IsMarking self.now }
    {
        self.order.len()
    }

    /// Returns whether there are no marks.
    pub fn is_empty(&self) -> bool
        ensures { IsTrue result ↔ (self.now.marks ≡ []) }
    {
        self.order.is_empty()
    }

    /// Returns the length of the text, in characters.
    pub fn len_chars(&self) -> usize
        ensures { result ≡ self.now.len }
    {
        self.len
    }

    /// Adds a mark from `start` up to `end`, and returns its number, which no other mark has had.
    ///
    /// # Errors
    ///
    /// First `RangeInvalid`, then `RangeOutOfBounds`, each with both numbers; then `OutOfMemory`,
    /// also after `usize::MAX` marks. A call that fails leaves the marks as they were.
    pub fn add(
        &mut self,
        start: usize,
        end: usize,
        start_side: Side,
        end_side: Side,
    ) -> Result<usize, ChangeError>
        ensures invalid { end < start → result ≡ Err (RangeInvalid start end) }
        ensures outside { start ≤ end → self.old.len < end
            → result ≡ Err (RangeOutOfBounds end self.old.len) }
        ensures memory { start ≤ end → end ≤ self.old.len → IfErr result (λ e. e ≡ OutOfMemory) }
        ensures id { IfOk result (λ id. (id ≡ self.old.next_id) × (self.new.next_id ≡ id + 1)) }
        ensures added { IfOk result (λ id. IsPermutation (record {
          id = id;
          start = start;
          end = end;
          start_side = start_side;
          end_side = end_side;
        } ∷ self.old.marks) self.new.marks) }
        ensures len { self.new.len ≡ self.old.len }
        ensures err { OnErr result (self.new ≡ self.old) }
    {
        if end < start {
            return Err(ChangeError::RangeInvalid(start, end));
        }
        if end > self.len {
            return Err(ChangeError::RangeOutOfBounds(end, self.len));
        }
        let id = self.next_id;
        let Some(next_id) = id.checked_add(1) else {
            return Err(ChangeError::OutOfMemory);
        };
        let mark = Mark {
            id,
            start,
            end,
            start_side,
            end_side,
        };
        let position = position_after(self.marks.as_slice(), self.order.as_slice(), start);
        let index = self.marks.len();
        if self.marks.reserve(1).is_err() || self.order.insert(position, index).is_err() {
            return Err(ChangeError::OutOfMemory);
        }
        if self.marks.push(mark).is_err() {
            unreachable!();
        }
        self.next_id = next_id;
        Ok(id)
    }

    /// Returns a mark by its number, or `None` if there is none or it was removed.
    pub fn get(&self, id: usize) -> Option<Mark>
        ensures found { IfSome result (λ m. (m.id ≡ id) × Contains self.now.marks m) }
        ensures none { IfNone result (All (λ m. m.id ≢ id) self.now.marks) }
    {
        let index = index_of(self.marks.as_slice(), id);
        if index < self.marks.len() {
            return Some(self.marks[index]);
        }
        None
    }

    /// Removes a mark by its number and returns it, or `None` if there is none.
    pub fn remove(&mut self, id: usize) -> Option<Mark>
        ensures found { IfSome result (λ m. (m.id ≡ id)
            × IsPermutation self.old.marks (m ∷ self.new.marks)) }
        ensures none { IfNone result (All (λ m. m.id ≢ id) self.old.marks
            × (self.new ≡ self.old)) }
        ensures len { self.new.len ≡ self.old.len }
        ensures next_id { self.new.next_id ≡ self.old.next_id }
    {
        let index = index_of(self.marks.as_slice(), id);
        if index == self.marks.len() {
            return None;
        }
        let position = position_of(self.order.as_slice(), index);
        self.order.remove(position);
        close_gap(self.order.as_mut_slice(), index);
        Some(self.marks.remove(index))
    }

    /// Moves the marks through a change of the text: each end to where `ChangeSet::map` puts it. An
    /// end that would come before its start, as it may where text is inserted at an empty mark,
    /// moves to the start. Takes no memory.
    ///
    /// # Errors
    ///
    /// `LengthDiffers`, with the change's `len_before()` and `len_chars()`, exactly if they differ.
    /// A call that fails leaves the marks as they were.
    pub fn apply(&mut self, change: &ChangeSet) -> Result<(), ChangeError>
        ensures differs { before change.now ≢ self.old.len
            → result ≡ Err (LengthDiffers (before change.now) self.old.len) }
        ensures same { before change.now ≡ self.old.len → IsOk result }
        ensures moved { OnOk result
            (IsPermutation (map (moved_mark (ops change.now)) self.old.marks) self.new.marks) }
        ensures len { OnOk result (self.new.len ≡ after change.now) }
        ensures next_id { self.new.next_id ≡ self.old.next_id }
        ensures err { OnErr result (self.new ≡ self.old) }
    {
        if change.len_before() != self.len {
            return Err(ChangeError::LengthDiffers(change.len_before(), self.len));
        }
        move_all(self.marks.as_mut_slice(), change);
        sort_by_start(self.order.as_mut_slice(), self.marks.as_slice());
        self.len = change.len_after();
        Ok(())
    }

    /// Returns a cursor over the marks that touch the characters from `start` up to `end`, in order
    /// of their starts. A mark touches them if it starts at or before `end` and ends at or after
    /// `start`.
    pub fn within(&self, start: usize, end: usize) -> Within<'_>
        ensures { result ≡ filter (touches start end) self.now.marks }
    {
        Within {
            marks: self.marks.as_slice(),
            order: self.order.as_slice(),
            index: 0,
            start,
            end,
        }
    }
}

// Returns the start of a mark by its index.
fn start_at(marks: &[Mark], index: usize) -> usize
    ensures { result ≡ (mark_at marks.now index).start }
{
    match marks.get(index) {
        Some(mark) => mark.start,
        None => 0,
    }
}

// Returns the index in `order` after the marks that start at or before `start`.
fn position_after(marks: &[Mark], order: &[usize], start: usize) -> usize
    requires in_order { IsNonDecreasingBy start_of (marks_in marks.now order.now) }
    ensures within { result ≤ length order.now }
    ensures before { (k : ℕ) (d : Mark) → k < result
        → (slice_index_or (marks_in marks.now order.now) k d).start ≤ start }
    ensures after { (k : ℕ) (d : Mark) → result ≤ k → k < length order.now
        → start ≤ (slice_index_or (marks_in marks.now order.now) k d).start }
{
    let mut position = order.len();
    while position > 0 {
        if start_at(marks, order[position - 1]) <= start {
            return position;
        }
        position -= 1;
    }
    0
}

// Returns the index of a mark by its number, or the number of marks, which are in order of their
// numbers.
fn index_of(marks: &[Mark], id: usize) -> usize
    requires in_order { IsNonDecreasingBy id_of marks.now }
    ensures within { result ≤ length marks.now }
    ensures found { (d : Mark) → result < length marks.now
        → (slice_index_or marks.now result d).id ≡ id }
    ensures none { result ≡ length marks.now → All (λ m. m.id ≢ id) marks.now }
{
    match marks.binary_search_by_key(&id, |mark| mark.id) {
        Ok(index) => index,
        Err(_) => marks.len(),
    }
}

// Returns where an index stands in `order`, or the length of `order`.
fn position_of(order: &[usize], index: usize) -> usize
    ensures within { result ≤ length order.now }
    ensures found { result < length order.now → slice_index_or order.now result 0 ≡ index }
    ensures none { result ≡ length order.now → All (λ i. i ≢ index) order.now }
{
    for (position, other) in order.iter().enumerate() {
        if *other == index {
            return position;
        }
    }
    order.len()
}

// Returns an index after the mark at `gap` was removed.
fn lowered(index: usize, gap: usize) -> usize
    ensures { result ≡ closed gap index }
{
    if index > gap {
        return index - 1;
    }
    index
}

// Lowers the indices above `gap` by one.
fn close_gap(order: &mut [usize], gap: usize)
    ensures { order.new ≡ map (closed gap) order.old }
{
    for index in order.iter_mut() {
        *index = lowered(*index, gap);
    }
}

// Moves each mark through a change.
fn move_all(marks: &mut [Mark], change: &ChangeSet)
    requires { All (IsWithin (before change.now)) marks.old }
    ensures { marks.new ≡ map (moved_mark (ops change.now)) marks.old }
{
    for mark in marks.iter_mut() {
        *mark = moved(*mark, change);
    }
}

// Sorts indices of marks by the starts of these.
fn sort_by_start(order: &mut [usize], marks: &[Mark])
    ensures moved { IsPermutation order.old order.new }
    ensures in_order { IsNonDecreasingBy start_of (marks_in marks.now order.new) }
{
    order.sort_unstable_by_key(|index| start_at(marks, *index));
}

// A mark after a change.
fn moved(mark: Mark, change: &ChangeSet) -> Mark
    requires ordered { mark.start ≤ mark.end }
    requires within { mark.end ≤ before change.now }
    ensures { result ≡ moved_mark (ops change.now) mark }
{
    let start = change.map(mark.start, mark.start_side);
    Mark {
        id: mark.id,
        start,
        end: change.map(mark.end, mark.end_side).max(start),
        start_side: mark.start_side,
        end_side: mark.end_side,
    }
}

/// A cursor over marks that touch a range of characters. Contracts see it as the marks that are
/// left.
#[derive(Drop)]
pub struct Within<'a> {
    marks: &'a [Mark],
    order: &'a [usize],
    index: usize,
    start: usize,
    end: usize,
}

impl<'a> Model for Within<'a> {
    ghost use Rattle.std.specs.Prelude.{List};
    ghost use Rattle.rope_history.specs.declared.marks.Mark.{Mark};
    ghost use Rattle.rope_history.specs.MarkViews.{IsCursor, left_of};

    ghost Value = { List Mark };

    ghost view = { left_of };

    ghost invariant = { IsCursor };
}

impl Within<'_> {
    /// Returns the next mark, or `None` after the last one.
    pub fn next(&mut self) -> Option<Mark>
        ensures { MatchOption result ((self.old ≡ []) × (self.new ≡ []))
            (λ m. self.old ≡ m ∷ self.new) }
    {
        while self.index < self.order.len() {
            let mark = self.marks[self.order[self.index]];
            if mark.start > self.end {
                return None;
            }
            self.index += 1;
            if mark.end >= self.start {
                return Some(mark);
            }
        }
        None
    }
}
