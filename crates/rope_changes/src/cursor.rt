//! A cursor over the runs of operations of a change.
ghost use Rattle.std.specs.Prelude.{◌≡◌, ◌+◌, ◌-◌, ◌<◌, ◌≤◌, ◌^◌, ◌↔◌, [], IsTrue, length};
ghost use Rattle.std.specs.Str.{chars};
ghost use Rattle.rope_changes.specs.Change.{before, after, ops, keeping, inserting, deleting};
ghost use Rattle.rope_changes.specs.Left.{left, IsLoaded, Inserts};

use crate::change_set::ChangeSet;
use crate::cut::split_chars;
use crate::replacements::Reader;
use std::marker::Model;

/// A cursor over the runs of operations of a change: characters kept, a text inserted, characters
/// deleted. Contracts see it as the operations that are left.
#[derive(Drop)]
pub(crate) struct Cursor<'a> {
    /// The number of characters to keep before the text.
    pub(crate) kept: usize,
    /// The text to insert.
    pub(crate) text: &'a str,
    /// The number of characters of the text.
    pub(crate) inserted: usize,
    /// The number of characters to delete after the text.
    pub(crate) deleted: usize,
    later: Reader<'a>,
    rest: usize,
}

impl<'a> Model for Cursor<'a> {
    ghost use Rattle.rope_changes.specs.Left.{Left, left_of, IsCursor};

    ghost Value = { Left };

    ghost view = { left_of };

    ghost invariant = { IsCursor };
}

impl<'a> Cursor<'a> {
    /// Returns a cursor before the first operation of a change.
    pub(crate) fn new(change: &'a ChangeSet) -> Cursor<'a>
        ensures left { left result ≡ ops change.now }
        ensures before_fits { before change.now < 2 ^ 63 }
        ensures after_fits { after change.now < 2 ^ 63 }
    {
        Cursor {
            kept: 0,
            text: "",
            inserted: 0,
            deleted: 0,
            later: change.edits.read(),
            rest: change.rest,
        }
    }

    /// Reads the next replacement if nothing is left of this one, and returns whether an operation
    /// is left.
    pub(crate) fn load(&mut self) -> bool
        ensures left { left self.new ≡ left self.old }
        ensures loaded { IsLoaded self.new }
        ensures some { IsTrue result
            ↔ (1 ≤ self.new.kept + length self.new.text + self.new.deleted) }
    {
        if self.kept > 0 || self.inserted > 0 || self.deleted > 0 {
            return true;
        }
        let Some(edit) = self.later.next() else {
            self.kept = self.rest;
            self.rest = 0;
            return self.kept > 0;
        };
        self.kept = edit.kept;
        self.text = edit.text;
        self.inserted = edit.inserted;
        self.deleted = edit.deleted;
        true
    }

    /// Returns whether a text is inserted next.
    pub(crate) fn inserts(&self) -> bool
        ensures { IsTrue result ↔ Inserts self.now }
    {
        self.kept == 0 && self.inserted > 0
    }

    /// Passes `count` characters that are kept next.
    pub(crate) fn skip_kept(&mut self, count: usize)
        requires { count ≤ self.old.kept }
        ensures { left self.old ≡ keeping count (left self.new) }
    {
        self.kept -= count;
    }

    /// Passes `count` characters that are deleted next.
    pub(crate) fn skip_deleted(&mut self, count: usize)
        requires kept { self.old.kept ≡ 0 }
        requires inserted { length self.old.text ≡ 0 }
        requires deleted { count ≤ self.old.deleted }
        ensures { left self.old ≡ deleting count (left self.new) }
    {
        self.deleted -= count;
    }

    /// Passes the text that is inserted next, and returns it.
    pub(crate) fn take_text(&mut self) -> &'a str
        requires { self.old.kept ≡ 0 }
        ensures text { chars result.now ≡ self.old.text }
        ensures passed { left self.old ≡ inserting self.old.text (left self.new) }
    {
        let text = self.text;
        self.text = "";
        self.inserted = 0;
        text
    }

    /// Passes the text that is inserted next and the first `count` characters that are deleted
    /// after it, and returns the text.
    pub(crate) fn take_edit(&mut self, count: usize) -> &'a str
        requires kept { self.old.kept ≡ 0 }
        requires within { count ≤ self.old.deleted }
        ensures text { chars result.now ≡ self.old.text }
        ensures passed { left self.old
            ≡ inserting self.old.text (deleting count (left self.new)) }
    {
        let text = self.text;
        self.text = "";
        self.inserted = 0;
        self.deleted -= count;
        text
    }

    /// Passes the first `count` characters of the text that is inserted next, and returns them.
    pub(crate) fn cut_text(&mut self, count: usize) -> &'a str
        requires kept { self.old.kept ≡ 0 }
        requires within { count ≤ length self.old.text }
        ensures text { length (chars result.now) ≡ count }
        ensures passed { left self.old ≡ inserting (chars result.now) (left self.new) }
    {
        let (text, rest) = split_chars(self.text, count);
        self.text = rest;
        self.inserted -= count;
        text
    }
}

/// Loads both cursors, and returns whether an operation is left in one of them.
pub(crate) fn load_both(first: &mut Cursor<'_>, second: &mut Cursor<'_>) -> bool
    ensures first { left first.new ≡ left first.old }
    ensures second { left second.new ≡ left second.old }
    ensures first_loaded { IsLoaded first.new }
    ensures second_loaded { IsLoaded second.new }
    ensures some { IsTrue result ↔ (1 ≤ length (left first.new) + length (left second.new)) }
{
    let in_first = first.load();
    let in_second = second.load();
    in_first || in_second
}
