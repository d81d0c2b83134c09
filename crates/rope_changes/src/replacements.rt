//! The replacements of a change, with their texts in one string.
ghost use Rattle.std.specs.Prelude.{◌≡◌, ◌≤◌, ◌++◌, ◌∷◌, ◌↔◌, [], List, IsTrue, IfOk, IfErr, OnOk, OnErr, MatchOption, length};
ghost use Rattle.std.specs.Str.{chars};
ghost use Rattle.rope_changes.specs.declared.error.ChangeError.TheVariants.{OutOfMemory};
ghost use Rattle.rope_changes.specs.Applied.{inserted_bytes};
ghost use Rattle.rope_changes.specs.Change.{appended};
ghost use Rattle.rope_changes.specs.Packed.{edit_of, IsCounted, LastFits, AreLengths};

use crate::error::ChangeError;
use std::alloc::Global;
use std::marker::Model;

/// A replacement: characters that are kept, then a text that is inserted, then characters that are
/// deleted.
#[derive(Clone, Copy)]
pub(crate) struct Replacement<'a> {
    pub(crate) kept: usize,
    pub(crate) text: &'a str,
    /// The number of characters of the text.
    pub(crate) inserted: usize,
    pub(crate) deleted: usize,
}

/// The lengths of a replacement's parts: three in characters, and that of the text in bytes too.
#[derive(Clone, Copy)]
pub(crate) struct Lengths {
    pub(crate) kept: usize,
    pub(crate) inserted: usize,
    pub(crate) deleted: usize,
    pub(crate) bytes: usize,
}

/// Replacements in order, with their texts one after the other in one string. Contracts see them as
/// a list.
#[derive(Drop)]
pub(crate) struct Replacements {
    lengths: Vec<Lengths>,
    text: String,
}

impl Model for Replacements {
    ghost use Rattle.std.specs.Prelude.{List};
    ghost use Rattle.rope_changes.specs.Change.{Edit};

    ghost Value = { List Edit };

    ghost use Rattle.rope_changes.specs.Packed.{edits_in, ArePacked};

    ghost view = { edits_in };

    ghost invariant = { ArePacked };
}

/// A cursor over replacements, in order. Contracts see it as those that are left.
#[derive(Drop)]
pub(crate) struct Reader<'a> {
    lengths: &'a [Lengths],
    text: &'a str,
}

impl<'a> Model for Reader<'a> {
    ghost use Rattle.std.specs.Prelude.{List};
    ghost use Rattle.rope_changes.specs.Change.{Edit};

    ghost Value = { List Edit };

    ghost use Rattle.rope_changes.specs.Packed.{edits_left, AreLeftPacked};

    ghost view = { edits_left };

    ghost invariant = { AreLeftPacked };
}

impl<'a> Reader<'a> {
    /// Returns the number of replacements that are left.
    pub(crate) fn len(&self) -> usize
        ensures { result ≡ length self.now }
    {
        self.lengths.len()
    }

    /// Returns the next replacement, or `None` after the last one.
    pub(crate) fn next(&mut self) -> Option<Replacement<'a>>
        ensures { MatchOption result ((self.old ≡ []) × (self.new ≡ []))
            (λ r. (self.old ≡ edit_of r ∷ self.new) × IsCounted r) }
    {
        let Some((first, rest)) = self.lengths.split_first() else {
            return None;
        };
        let (text, later) = self.text.split_at(first.bytes);
        self.lengths = rest;
        self.text = later;
        Some(Replacement {
            kept: first.kept,
            text,
            inserted: first.inserted,
            deleted: first.deleted,
        })
    }
}

impl Replacements {
    /// Creates a list of no replacements. Takes no memory.
    pub(crate) fn new(alloc: Global) -> Replacements
        ensures { result ≡ [] }
    {
        Replacements {
            lengths: Vec::new(alloc),
            text: String::new(alloc),
        }
    }

    /// Creates a list of no replacements, with room for `count` of them and for `bytes` bytes of
    /// texts.
    pub(crate) fn with_capacity(
        alloc: Global,
        count: usize,
        bytes: usize,
    ) -> Result<Replacements, ChangeError>
        ensures ok { IfOk result (λ edits. edits ≡ []) }
        ensures refused { IfErr result (λ e. e ≡ OutOfMemory) }
    {
        let Ok(lengths) = Vec::with_capacity(alloc, count) else {
            return Err(ChangeError::OutOfMemory);
        };
        let Ok(text) = String::with_capacity(alloc, bytes) else {
            return Err(ChangeError::OutOfMemory);
        };
        Ok(Replacements { lengths, text })
    }

    /// Returns the number of replacements.
    pub(crate) fn len(&self) -> usize
        ensures { result ≡ length self.now }
    {
        self.lengths.len()
    }

    /// Returns the number of bytes of the texts.
    pub(crate) fn len_bytes(&self) -> usize
        ensures { result ≡ inserted_bytes self.now }
    {
        self.text.len()
    }

    /// Returns the lengths of the replacements, in order.
    pub(crate) fn lengths(&self) -> &[Lengths]
        ensures { AreLengths self.now result.now }
    {
        self.lengths.as_slice()
    }

    /// Returns a cursor before the first replacement.
    pub(crate) fn read(&self) -> Reader<'_>
        ensures { result ≡ self.now }
    {
        Reader {
            lengths: self.lengths.as_slice(),
            text: self.text.as_str(),
        }
    }

    /// Adds a replacement after the last one, or extends that one if no character is kept between
    /// them. A call that fails leaves the list as it was.
    pub(crate) fn add(
        &mut self,
        kept: usize,
        text: &str,
        inserted: usize,
        deleted: usize,
    ) -> Result<(), ChangeError>
        requires counted { inserted ≡ length (chars text.now) }
        requires fits { LastFits self.old inserted deleted }
        ensures ok { OnOk result (self.new ≡ appended self.old kept (chars text.now) deleted) }
        ensures refused { IfErr result (λ e. e ≡ OutOfMemory) }
        ensures kept { OnErr result (self.new ≡ self.old) }
    {
        if kept == 0 && self.len() > 0 {
            return self.extend(text, inserted, deleted);
        }
        self.push(kept, text, inserted, deleted)
    }

    /// Adds a replacement after the last one. A call that fails leaves the list as it was.
    // Always inlined, as `extend` is, so that `add` copies no result through memory.
    #[inline(always)]
    pub(crate) fn push(
        &mut self,
        kept: usize,
        text: &str,
        inserted: usize,
        deleted: usize,
    ) -> Result<(), ChangeError>
        requires counted { inserted ≡ length (chars text.now) }
        ensures ok { OnOk result (self.new ≡ self.old
            ++ record { kept = kept; text = chars text.now; deleted = deleted } ∷ []) }
        ensures refused { IfErr result (λ e. e ≡ OutOfMemory) }
        ensures kept { OnErr result (self.new ≡ self.old) }
    {
        if self.lengths.reserve(1).is_err() || self.text.push_str(text).is_err() {
            return Err(ChangeError::OutOfMemory);
        }
        let added = Lengths {
            kept,
            inserted,
            deleted,
            bytes: text.len(),
        };
        if self.lengths.push(added).is_err() {
            unreachable!();
        }
        Ok(())
    }

    // Inserts and deletes more at the end of the last replacement. A call that fails leaves the
    // list as it was.
    #[inline(always)]
    fn extend(&mut self, text: &str, inserted: usize, deleted: usize) -> Result<(), ChangeError>
        requires some { 1 ≤ length self.old }
        requires counted { inserted ≡ length (chars text.now) }
        requires fits { LastFits self.old inserted deleted }
        ensures ok { OnOk result (self.new ≡ appended self.old 0 (chars text.now) deleted) }
        ensures refused { IfErr result (λ e. e ≡ OutOfMemory) }
        ensures kept { OnErr result (self.new ≡ self.old) }
    {
        if self.text.push_str(text).is_err() {
            return Err(ChangeError::OutOfMemory);
        }
        let index = self.lengths.len() - 1;
        let last = self.lengths[index];
        self.lengths[index] = Lengths {
            kept: last.kept,
            inserted: last.inserted + inserted,
            deleted: last.deleted + deleted,
            bytes: last.bytes + text.len(),
        };
        Ok(())
    }
}
