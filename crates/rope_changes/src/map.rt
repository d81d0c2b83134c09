//! Indices moved through a change.
ghost use Rattle.std.specs.Prelude.{◌≡◌, ◌+◌, ◌<◌, ◌≤◌, ◌^◌, ℕ, List, length, map};
ghost use Rattle.std.specs.List.{All};
ghost use Rattle.rope_changes.specs.Change.{before, after, ops};
ghost use Rattle.rope_changes.specs.Ops.{Op};
ghost use Rattle.rope_changes.specs.Moved.{moved};
ghost use Rattle.rope_changes.specs.Passed.{IsPassed, IsBetween, mapped};

use crate::change_set::ChangeSet;
use crate::replacements::Lengths;
use crate::side::Side;

impl Lengths {
    ghost use Rattle.rope_changes.specs.Passed.{step_of};

    // Returns where a position `left` characters after the start of what it keeps lies in the text
    // after the change, from there on. The next replacement keeps a character first.
    fn map(self, left: usize, side: Side) -> usize
        requires within { left ≤ self.kept + self.deleted }
        requires fits { self.kept + self.inserted < 2 ^ 64 }
        ensures moved { (text : List ℕ) (rest : List Op) → self.inserted ≡ length text
            → moved side rest 0 ≡ 0 → result ≡ moved side (step_of self text rest) left }
        ensures within { result ≤ self.kept + self.inserted }
    {
        if left < self.kept {
            return left;
        }
        if side.stays(left - self.kept) {
            return self.kept;
        }
        self.kept + self.inserted
    }
}

// The replacements of a change that lie before an index: how many, and where the last one ends in
// both texts; and the index at which the next one starts, or one past the end of the text before.
#[derive(Drop)]
struct Passed {
    count: usize,
    end: usize,
    new_end: usize,
    start: usize,
}

impl Passed {
    ghost use Rattle.rope_changes.specs.Change.{Change};
    ghost use Rattle.rope_changes.specs.Passed.{Reaches};

    // Creates a position before the first replacement.
    // Never inlined, so that `rewind` is a branch, and not conditional moves that each index would
    // wait for.
    #[inline(never)]
    fn new() -> Passed
        ensures reaches { (i : ℕ) → Reaches result i }
        ensures passed { (c : Change) → IsPassed c result }
        ensures between { (c : Change) → IsBetween c result }
    {
        Passed {
            count: 0,
            end: 0,
            new_end: 0,
            start: 0,
        }
    }

    // Goes back to the first replacement, unless the last one that was passed ends before
    // `char_idx`.
    fn rewind(&mut self, char_idx: usize)
        ensures reaches { Reaches self.new char_idx }
        ensures passed { (c : Change) → IsPassed c self.old → IsPassed c self.new }
    {
        if char_idx <= self.end {
            *self = Passed::new();
        }
    }
}

impl ChangeSet {
    /// Returns the index in the text after the change of a character, or of the end, of the text
    /// before. Where text is inserted at the index, the result is on the given side of that text.
    /// An index inside a replaced range, past its start, goes to the end of the new text. The index
    /// is at most `len_before()`.
    ///
    /// ```
    /// let mut change = ChangeSet::new(alloc, 7)?;
    /// change.replace(0, 3, "1")?;
    /// change.replace(4, 4, "and ")?;
    /// assert_eq!(rt; change.map(4, Side::Before), 2);
    /// assert_eq!(rt; change.map(4, Side::After), 6);
    /// ```
    pub fn map(&self, char_idx: usize, side: Side) -> usize
        requires { char_idx ≤ before self.now }
        ensures { result ≡ moved side (ops self.now) char_idx }
    {
        self.map_from(&mut Passed::new(), char_idx, side)
    }

    /// Moves each index as `map` does, in one pass over the replacements where the indices ascend.
    /// An index below the one before it begins the pass again. Each is at most `len_before()`.
    ///
    /// ```
    /// let mut change = ChangeSet::new(alloc, 7)?;
    /// change.replace(0, 3, "1")?;
    /// let mut bookmarks = [0, 4, 7];
    /// change.map_sorted(&mut bookmarks, Side::Before);
    /// assert_eq!(rt; bookmarks, [0, 2, 5]);
    /// ```
    // Never inlined, so that its loops have all registers.
    #[inline(never)]
    pub fn map_sorted(&self, char_indices: &mut [usize], side: Side)
        requires { All (λ i. i ≤ before self.now) char_indices.old }
        ensures { char_indices.new ≡ map (moved side (ops self.now)) char_indices.old }
    {
        let mut passed = Passed::new();
        let mut next = 0;
        while next < char_indices.len() {
            char_indices[next] = self.map_from(&mut passed, char_indices[next], side);
            next = self.map_between(&passed, char_indices, next + 1);
        }
    }

    // Moves the indices from the one at `from` on, as long as each lies between the replacements
    // that are passed and the next one. Returns the position of the first index that is left. All
    // of them move by one distance, so the loop does nothing else, and only its exit is
    // mispredicted.
    fn map_between(&self, passed: &Passed, char_indices: &mut [usize], from: usize) -> usize
        requires from { from ≤ length char_indices.old }
        requires passed { IsPassed self.now passed.now }
        requires between { IsBetween self.now passed.now }
        ensures moved { (side : Side) (all : List ℕ)
            → char_indices.old ≡ mapped (moved side (ops self.now)) from all
            → char_indices.new ≡ mapped (moved side (ops self.now)) result all }
        ensures from { from ≤ result }
        ensures within { result ≤ length char_indices.new }
    {
        let _ = &self.rest;
        let (first, new_first) = (passed.end + 1, passed.new_end + 1);
        let count = passed.start.saturating_sub(first);
        let mut next = from;
        while next < char_indices.len() {
            // An index before `first` wraps to a large offset, so one comparison tests both ends.
            let offset = char_indices[next].wrapping_sub(first);
            if offset >= count {
                return next;
            }
            char_indices[next] = new_first + offset;
            next += 1;
        }
        next
    }

    // Returns the index in the text after the change, and passes the replacements that end before
    // `char_idx`.
    fn map_from(&self, passed: &mut Passed, char_idx: usize, side: Side) -> usize
        requires within { char_idx ≤ before self.now }
        requires passed { IsPassed self.now passed.old }
        ensures moved { result ≡ moved side (ops self.now) char_idx }
        ensures passed { IsPassed self.now passed.new }
        ensures between { IsBetween self.now passed.new }
    {
        passed.rewind(char_idx);
        let lengths = self.edits.lengths();
        while passed.count < lengths.len() {
            let edit = lengths[passed.count];
            let left = char_idx - passed.end;
            if left <= edit.kept + edit.deleted {
                passed.start = passed.end + edit.kept;
                return passed.new_end + edit.map(left, side);
            }
            passed.count += 1;
            passed.end += edit.kept + edit.deleted;
            passed.new_end += edit.kept + edit.inserted;
        }
        passed.start = self.len_before + 1;
        passed.new_end + (char_idx - passed.end)
    }
}
