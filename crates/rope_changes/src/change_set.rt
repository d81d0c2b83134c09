//! Change sets: the replacements of a change, in order.
ghost use Rattle.std.specs.Prelude.{◌≡◌, ◌+◌, ◌++◌, [], None, ◌<◌, ◌≤◌, ◌^◌, ◌↔◌, IsTrue, IfOk, IfErr, IsOk, OnOk, OnErr, MatchOption, length};
ghost use Rattle.std.specs.Str.{chars};
ghost use Rattle.rope_changes.specs.declared.error.ChangeError.TheVariants.{RangeInvalid, RangeOutOfBounds, OutOfOrder, TooLong, OutOfMemory};
ghost use Rattle.rope_changes.specs.Change.{before, after, ops, last_end, IsNormal, IsInOrder, replaced, replaced_len, keeping, inserting, deleting};
ghost use Rattle.rope_changes.specs.Normal.{normal_form};
ghost use Rattle.rope_changes.specs.Ops.{len_before, len_after};
ghost use Rattle.rope_changes.specs.Runs.{run_ops, IsRun};
ghost use Rattle.rope_changes.specs.Built.{unchanged, built, replace_error, first_error, IsRefusal, RefusesOne};

use crate::edit::Edit;
use crate::error::ChangeError;
use crate::replacements::{Reader, Replacements};
use crate::run::Run;
use rope_text::str_utils::count_chars;
use std::alloc::Global;
use std::marker::Model;

/// The longest text of a change, in characters.
pub(crate) const MAX_LEN: usize = 9_223_372_036_854_775_807;

/// A change of a text of a given length: replacements of ranges, in order. Contracts see it as its
/// replacements.
#[derive(Drop)]
pub struct ChangeSet {
    pub(crate) edits: Replacements,
    pub(crate) rest: usize,
    pub(crate) len_before: usize,
    pub(crate) len_after: usize,
    pub(crate) alloc: Global,
}

impl Model for ChangeSet {
    ghost use Rattle.rope_changes.specs.Change.{Change};
    ghost use Rattle.rope_changes.specs.Held.{change_of, IsChangeSet};

    ghost Value = { Change };

    ghost view = { change_of };

    ghost invariant = { IsChangeSet };
}

/// A replacement of a change, with its ranges in characters.
#[derive(Clone, Copy)]
pub struct EditRange<'a> {
    /// The start of the range that it replaces, in the text before.
    pub start: usize,
    /// The end of the range that it replaces, in the text before.
    pub end: usize,
    /// The start of its text, in the text after.
    pub new_start: usize,
    /// The end of its text, in the text after.
    pub new_end: usize,
    /// The text that it inserts.
    pub text: &'a str,
}

/// A cursor over the replacements of a change, in order. Contracts see it as those that are left,
/// and where the one before them ends in both texts.
#[derive(Drop)]
pub struct Edits<'a> {
    left: Reader<'a>,
    end: usize,
    new_end: usize,
}

impl<'a> Model for Edits<'a> {
    ghost use Rattle.rope_changes.specs.Listed.{Remaining, remaining_of, IsReading};

    ghost Value = { Remaining };

    ghost view = { remaining_of };

    ghost invariant = { IsReading };
}

impl<'a> Edits<'a> {
    ghost use Rattle.rope_changes.specs.Listed.{IsNext};

    /// Returns the number of replacements that are left. Takes constant time and no memory.
    ///
    /// ```
    /// let mut change = ChangeSet::new(alloc, 7)?;
    /// change.replace(0, 3, "1")?;
    /// let mut edits = change.edits();
    /// assert_eq!(rt; edits.len(), 1);
    /// edits.next();
    /// assert_eq!(rt; edits.len(), 0);
    /// ```
    pub fn len(&self) -> usize
        ensures { result ≡ length self.now.edits }
    {
        self.left.len()
    }

    /// Returns the next replacement, or `None` after the last one.
    ///
    /// ```
    /// let mut change = ChangeSet::new(alloc, 7)?;
    /// change.replace(4, 7, "to")?;
    /// let mut edits = change.edits();
    /// if let Some(edit) = edits.next() {
    ///     assert_eq!(rt; [edit.start, edit.end], [4, 7]);
    ///     assert_eq!(rt; [edit.new_start, edit.new_end], [4, 6]);
    ///     assert_eq!(rt; edit.text, "to");
    /// }
    /// assert!(rt; edits.next().is_none());
    /// ```
    pub fn next(&mut self) -> Option<EditRange<'a>>
        ensures { MatchOption result ((self.old.edits ≡ []) × (self.new ≡ self.old))
            (λ e. IsNext self.old e self.new) }
    {
        let Some(edit) = self.left.next() else {
            return None;
        };
        let start = self.end + edit.kept;
        let new_start = self.new_end + edit.kept;
        self.end = start + edit.deleted;
        self.new_end = new_start + edit.inserted;
        Some(EditRange {
            start,
            end: self.end,
            new_start,
            new_end: self.new_end,
            text: edit.text,
        })
    }
}

impl ChangeSet {
    /// Creates a change that keeps all of a text of `len` characters. Takes no memory.
    ///
    /// # Errors
    ///
    /// `TooLong`, exactly if `len` is above `isize::MAX`.
    ///
    /// ```
    /// let change = ChangeSet::new(alloc, 7)?;
    /// assert_eq!(rt; [change.len_before(), change.len_after()], [7, 7]);
    /// ```
    pub fn new(alloc: Global, len: usize) -> Result<ChangeSet, ChangeError>
        ensures ok { len < 2 ^ 63 → IsOk result }
        ensures keeps { IfOk result (λ change. change ≡ record { edits = []; rest = len }) }
        ensures too_long { 2 ^ 63 ≤ len → result ≡ Err TooLong }
    {
        if len > MAX_LEN {
            return Err(ChangeError::TooLong);
        }
        Ok(ChangeSet {
            edits: Replacements::new(alloc),
            rest: len,
            len_before: len,
            len_after: len,
            alloc,
        })
    }

    /// Creates a change of a text of `len` characters from edits in order, as `new` and then
    /// `replace` for each of them do.
    ///
    /// # Errors
    ///
    /// `TooLong`, if `len` is above `isize::MAX`; else the error that `replace` returns for the
    /// first edit that it refuses. That is `OutOfMemory` only for an edit that has no other error.
    ///
    /// ```
    /// let first = Edit { start: 0, end: 3, text: "1" };
    /// let second = Edit { start: 4, end: 4, text: "and " };
    /// let change = ChangeSet::of_edits(alloc, 7, &[first, second])?;
    /// let mut rope = Rope::from_str(alloc, "one two")?;
    /// change.apply(&mut rope)?;
    /// assert!(rt; rope.eq_str("1 and two"));
    /// ```
    pub fn of_edits(alloc: Global, len: usize, edits: &[Edit<'_>]) -> Result<ChangeSet, ChangeError>
        ensures too_long { 2 ^ 63 ≤ len → result ≡ Err TooLong }
        ensures error { len < 2 ^ 63 → IfErr result (RefusesOne (unchanged len) edits.now) }
        ensures valid { OnOk result (first_error (unchanged len) edits.now ≡ None) }
        ensures ok { IfOk result (λ change. change ≡ built (unchanged len) edits.now) }
        ensures len_before { IfOk result (λ change. before change ≡ len) }
    {
        let mut change = ChangeSet::new(alloc, len)?;
        for edit in edits {
            change.replace(edit.start, edit.end, edit.text)?;
        }
        Ok(change)
    }

    /// Returns the number of characters of the texts that it is a change of.
    ///
    /// ```
    /// let mut change = ChangeSet::new(alloc, 7)?;
    /// change.replace(0, 3, "1")?;
    /// assert_eq!(rt; change.len_before(), 7);
    /// ```
    pub fn len_before(&self) -> usize
        ensures { result ≡ before self.now }
    {
        self.len_before
    }

    /// Returns the number of characters of a text after the change.
    ///
    /// ```
    /// let mut change = ChangeSet::new(alloc, 7)?;
    /// change.replace(0, 3, "1")?;
    /// assert_eq!(rt; change.len_after(), 5);
    /// ```
    pub fn len_after(&self) -> usize
        ensures { result ≡ after self.now }
    {
        self.len_after
    }

    /// Returns whether the change inserts and deletes nothing.
    ///
    /// ```
    /// let mut change = ChangeSet::new(alloc, 7)?;
    /// assert!(rt; change.is_empty());
    /// change.replace(0, 0, "no ")?;
    /// assert!(rt; !change.is_empty());
    /// ```
    pub fn is_empty(&self) -> bool
        ensures empty { IsTrue result ↔ (self.now.edits ≡ []) }
        ensures normal { IsNormal self.now }
    {
        self.edits.len() == 0
    }

    /// Returns a cursor over the replacements, from the first one on.
    ///
    /// ```
    /// let mut change = ChangeSet::new(alloc, 7)?;
    /// change.replace(0, 3, "1")?;
    /// change.replace(4, 4, "and ")?;
    /// let mut edits = change.edits();
    /// let mut inserted = 0;
    /// while let Some(edit) = edits.next() {
    ///     inserted += edit.text.len();
    /// }
    /// assert_eq!(rt; inserted, 5);
    /// ```
    pub fn edits(&self) -> Edits<'_>
        ensures { result ≡ record { edits = self.now.edits; end = 0; new_end = 0 } }
    {
        Edits {
            left: self.edits.read(),
            end: 0,
            new_end: 0,
        }
    }

    /// Replaces the characters from `start` up to `end` by `text`. The indices are those of the
    /// text before the change, and the range comes after the last one that the change replaces. If
    /// it begins at the end of that one, the two become one replacement. An empty range that is
    /// replaced by an empty text changes nothing and takes no memory.
    ///
    /// # Errors
    ///
    /// First `RangeInvalid`, then `RangeOutOfBounds`, then `OutOfOrder`, each with both numbers;
    /// then `TooLong`, if the text after the change would have more than `isize::MAX` characters;
    /// then `OutOfMemory`. A call that fails leaves the change as it was.
    ///
    /// ```
    /// let mut change = ChangeSet::new(alloc, 7)?;
    /// change.replace(0, 3, "1")?;
    /// let later = change.replace(2, 4, "2");
    /// assert_eq!(rt; later, Err(ChangeError::OutOfOrder(2, 3)));
    /// assert_eq!(rt; change.len_after(), 5);
    /// ```
    pub fn replace(&mut self, start: usize, end: usize, text: &str) -> Result<(), ChangeError>
        ensures invalid { end < start → result ≡ Err (RangeInvalid start end) }
        ensures outside { start ≤ end → before self.old < end
            → result ≡ Err (RangeOutOfBounds end (before self.old)) }
        ensures out_of_order { start ≤ end → end ≤ before self.old → start < last_end self.old
            → result ≡ Err (OutOfOrder start (last_end self.old)) }
        ensures too_long { IsInOrder self.old start end
            → 2 ^ 63 ≤ replaced_len self.old start end (chars text.now) → result ≡ Err TooLong }
        ensures memory { IsInOrder self.old start end
            → replaced_len self.old start end (chars text.now) < 2 ^ 63
            → IfErr result (λ e. e ≡ OutOfMemory) }
        ensures empty { IsInOrder self.old start end → start ≡ end → length (chars text.now) ≡ 0
            → IsOk result }
        ensures error { IfErr result
            (IsRefusal (replace_error self.old start end (chars text.now))) }
        ensures valid { OnOk result (replace_error self.old start end (chars text.now) ≡ None) }
        ensures ok { OnOk result (self.new ≡ replaced self.old start end (chars text.now)) }
        ensures in_order { OnOk result (IsInOrder self.old start end) }
        ensures len_before { before self.new ≡ before self.old }
        ensures len_after { OnOk result
            (after self.new ≡ replaced_len self.old start end (chars text.now)) }
        ensures kept { OnErr result (self.new ≡ self.old) }
    {
        if start > end {
            return Err(ChangeError::RangeInvalid(start, end));
        }
        if end > self.len_before {
            return Err(ChangeError::RangeOutOfBounds(end, self.len_before));
        }
        let last_end = self.len_before - self.rest;
        if start < last_end {
            return Err(ChangeError::OutOfOrder(start, last_end));
        }
        let inserted = count_chars(text);
        let deleted = end - start;
        if inserted == 0 && deleted == 0 {
            return Ok(());
        }
        let others = self.len_after - deleted;
        if inserted > MAX_LEN - others {
            return Err(ChangeError::TooLong);
        }
        let kept = start - last_end;
        self.edits.add(kept, text, inserted, deleted)?;
        self.rest = self.len_before - end;
        self.len_after = others + inserted;
        Ok(())
    }

    // Creates a change of an empty text that changes nothing, with room for `count` replacements
    // and for `bytes` bytes of their texts.
    pub(crate) fn with_capacity(
        alloc: Global,
        count: usize,
        bytes: usize,
    ) -> Result<ChangeSet, ChangeError>
        ensures ok { IfOk result (λ change. change ≡ record { edits = []; rest = 0 }) }
        ensures refused { IfErr result (λ e. e ≡ OutOfMemory) }
    {
        Ok(ChangeSet {
            edits: Replacements::with_capacity(alloc, count, bytes)?,
            rest: 0,
            len_before: 0,
            len_after: 0,
            alloc,
        })
    }

    // Keeps `count` more characters, after the last ones.
    pub(crate) fn push_kept(&mut self, count: usize)
        requires before_fits { before self.old + count < 2 ^ 63 }
        requires after_fits { after self.old + count < 2 ^ 63 }
        ensures { ops self.new ≡ normal_form (ops self.old ++ keeping count []) }
    {
        self.rest += count;
        self.len_before += count;
        self.len_after += count;
    }

    // Inserts a text and deletes `deleted` more characters, after the last ones.
    pub(crate) fn push(
        &mut self,
        text: &str,
        inserted: usize,
        deleted: usize,
    ) -> Result<(), ChangeError>
        requires counted { inserted ≡ length (chars text.now) }
        requires some { 1 ≤ inserted + deleted }
        requires before_fits { before self.old + deleted < 2 ^ 63 }
        requires after_fits { after self.old + inserted < 2 ^ 63 }
        ensures ok { OnOk result (ops self.new
            ≡ normal_form (ops self.old ++ inserting (chars text.now) (deleting deleted []))) }
        ensures refused { IfErr result (λ e. e ≡ OutOfMemory) }
    {
        self.edits.add(self.rest, text, inserted, deleted)?;
        self.rest = 0;
        self.len_before += deleted;
        self.len_after += inserted;
        Ok(())
    }

    // Deletes `count` more characters, after the last ones.
    pub(crate) fn push_deleted(&mut self, count: usize) -> Result<(), ChangeError>
        requires some { 1 ≤ count }
        requires before_fits { before self.old + count < 2 ^ 63 }
        requires after_fits { after self.old < 2 ^ 63 }
        ensures ok { OnOk result (ops self.new ≡ normal_form (ops self.old ++ deleting count [])) }
        ensures refused { IfErr result (λ e. e ≡ OutOfMemory) }
    {
        self.push("", 0, count)
    }

    // Adds a run of operations after the last ones.
    pub(crate) fn push_run(&mut self, run: &Run<'_>) -> Result<(), ChangeError>
        requires some { IsRun run.now }
        requires normal { normal_form (ops self.old) ≡ ops self.old }
        requires before_fits { before self.old + len_before (run_ops run.now) < 2 ^ 63 }
        requires after_fits { after self.old + len_after (run_ops run.now) < 2 ^ 63 }
        ensures ok { OnOk result (ops self.new ≡ normal_form (ops self.old ++ run_ops run.now)) }
        ensures refused { IfErr result (λ e. e ≡ OutOfMemory) }
    {
        match *run {
            Run::Keep(count) => {
                self.push_kept(count);
                Ok(())
            }
            Run::Insert(text, inserted) => self.push(text, inserted, 0),
            Run::Delete(count) => self.push_deleted(count),
            Run::Nothing => Ok(()),
        }
    }
}
