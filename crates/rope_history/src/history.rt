//! The versions that a text went through.
ghost use Rattle.std.specs.Prelude.{◌≡◌, ◌≢◌, ◌⊎◌, ◌+◌, ◌<◌, ◌≤◌, ◌^◌, ◌∷◌, ◌++◌, ℕ, List, [], length, vec_len, vec_capacity, Some, None, IfOk, IfErr, IsOk, IsTrue, OnOk, OnErr, ◌↔◌};
ghost use Rattle.std.specs.List.{All};
ghost use Rattle.std.specs.Str.{chars};
ghost use Rattle.rope_text.specs.Text.{byte_len};
ghost use Rattle.rope_changes.specs.declared.error.ChangeError.TheVariants.{LengthDiffers, TooLong, OutOfMemory};
ghost use Rattle.rope_changes.specs.Applied.{inserted_bytes};
ghost use Rattle.rope_changes.specs.Change.{after, before, ops};
ghost use Rattle.rope_changes.specs.Inverted.{inverted};
ghost use Rattle.rope_changes.specs.Ops.{run};
ghost use Rattle.rope_history.specs.Texts.{StandsAt, text_at, text_before, IsTooLong, IsTooLongUp, IsTooLongDown, IsTooLongTo};
ghost use Rattle.rope_history.specs.Versions.{GoesTo, IsHistory, IsPath, IsAscent, change_ahead, change_back, committed, first_version, left_by_undo, len_of, parent_of, redo_of, redone, undone, version_at, ascended};
ghost use Rattle.ropey.specs.View.{IsRope};

use rope_changes::{ChangeError, ChangeSet};
use rope_text::MAX_TEXT_BYTES;
use ropey::Rope;
use std::alloc::Global;
use std::marker::Model;

/// A version of a text: the version that it was made of, and the changes from there and back.
#[derive(Drop)]
pub(crate) struct Version {
    /// `None` for the first version, whose changes change nothing.
    pub(crate) parent: Option<usize>,
    pub(crate) change: ChangeSet,
    pub(crate) inverse: ChangeSet,
}

/// The versions that a text went through: a tree, whose branches are all kept. Versions are
/// numbered from 0 in the order in which they were made. Contracts see it as its versions, the
/// version to which `redo` leads from each of them, and the current version.
#[derive(Drop)]
pub struct History {
    versions: Vec<Version>,
    redo: Vec<Option<usize>>,
    current: usize,
    alloc: Global,
}

// Adds a version, and that `redo` leads nowhere from it, to vectors with room for them.
fn push_both(versions: &mut Vec<Version>, redo: &mut Vec<Option<usize>>, version: Version)
    requires versions { vec_len versions.old < vec_capacity versions.old }
    requires redo { vec_len redo.old < vec_capacity redo.old }
    ensures versions { versions.new.items ≡ versions.old.items ++ version ∷ [] }
    ensures redo { redo.new.items ≡ redo.old.items ++ None ∷ [] }
{
    if versions.push(version).is_err() || redo.push(None).is_err() {
        unreachable!();
    }
}

// Returns the number of bytes of a text.
fn len_bytes(text: &str) -> usize
    ensures { result ≡ byte_len (chars text.now) }
{
    text.len()
}

// Returns whether the text of a rope and the texts that a change inserts have more than
// `isize::MAX` bytes together.
fn is_too_long(rope: &Rope, change: &ChangeSet) -> bool
    ensures value { IsTrue result
        ↔ (2 ^ 63 ≤ byte_len rope.now.text + inserted_bytes change.now.edits) }
    ensures kept { IsRope rope.now }
{
    let mut room = MAX_TEXT_BYTES - rope.len_bytes();
    let mut edits = change.edits();
    while let Some(edit) = edits.next() {
        let bytes = len_bytes(edit.text);
        if bytes > room {
            return true;
        }
        room -= bytes;
    }
    false
}

impl Model for History {
    ghost use Rattle.rope_history.specs.Views.{history_of, KeepsHistory};
    ghost use Rattle.rope_history.specs.Versions.{Versions};

    ghost Value = { Versions };

    ghost view = { history_of };

    ghost invariant = { KeepsHistory };
}

impl History {
    /// Creates the history of a text of `len` characters, with one version.
    ///
    /// # Errors
    ///
    /// `TooLong`, exactly if `len` is above `isize::MAX`; else `OutOfMemory`.
    pub fn new(alloc: Global, len: usize) -> Result<History, ChangeError>
        ensures too_long { 2 ^ 63 ≤ len → result ≡ Err TooLong }
        ensures memory { len < 2 ^ 63 → IfErr result (λ e. e ≡ OutOfMemory) }
        ensures ok { IfOk result (λ history. history ≡ first_version len) }
        ensures stands { IfOk result (λ history.
            (text : List ℕ) → length text ≡ len → StandsAt text history text) }
    {
        let root = Version {
            parent: None,
            change: ChangeSet::new(alloc, len)?,
            inverse: ChangeSet::new(alloc, len)?,
        };
        let mut versions = Vec::new(alloc);
        let mut redo = Vec::new(alloc);
        if versions.push(root).is_err() || redo.push(None).is_err() {
            return Err(ChangeError::OutOfMemory);
        }
        Ok(History {
            versions,
            redo,
            current: 0,
            alloc,
        })
    }

    /// Returns the number of the current version.
    pub fn current(&self) -> usize
        ensures { result ≡ self.now.current }
    {
        self.current
    }

    /// Returns the number of versions, which is at least 1.
    pub fn len_versions(&self) -> usize
        ensures value { result ≡ length self.now.versions }
        ensures kept { IsHistory self.now }
    {
        self.versions.len()
    }

    /// Returns the length of the text of the current version, in characters.
    pub fn len_chars(&self) -> usize
        ensures value { result ≡ len_of self.now }
        ensures stands { (first text : List ℕ) → StandsAt first self.now text
            → result ≡ length text }
    {
        self.versions[self.current].change.len_after()
    }

    /// Returns the version that `version` was made of, or `None` for the first version.
    pub fn parent(&self, version: usize) -> Option<usize>
        requires { version < length self.now.versions }
        ensures { result ≡ parent_of self.now version }
    {
        self.versions[version].parent
    }

    /// Returns the version to which `redo` leads: the child of the current version that was left
    /// last, or `None` if none was left.
    pub fn redo_version(&self) -> Option<usize>
        ensures { result ≡ redo_of self.now self.now.current }
    {
        self.redo[self.current]
    }

    /// Returns the change that made `version` of its parent. The change of the first version
    /// changes nothing.
    pub fn change(&self, version: usize) -> &ChangeSet
        requires { version < length self.now.versions }
        ensures value { result.now ≡ (version_at self.now version).change }
        ensures text { (first : List ℕ) → text_at first self.now version
            ≡ run (ops result.now) (text_before first self.now version) }
    {
        &self.versions[version].change
    }

    /// Returns the change that leads from `version` back to its parent.
    pub fn inverse(&self, version: usize) -> &ChangeSet
        requires { version < length self.now.versions }
        ensures value { result.now ≡ (version_at self.now version).inverse }
        ensures text { (first text : List ℕ) → StandsAt first self.now text
            → run (ops result.now) (text_at first self.now version)
            ≡ text_before first self.now version }
    {
        &self.versions[version].inverse
    }

    // Refuses a rope whose length isn't that of the current version.
    fn check_len(&self, rope: &Rope) -> Result<(), ChangeError>
        ensures same { length rope.now.text ≡ len_of self.now → IsOk result }
        ensures agrees { OnOk result (length rope.now.text ≡ len_of self.now) }
        ensures differs { length rope.now.text ≢ len_of self.now
            → result ≡ Err (LengthDiffers (len_of self.now) (length rope.now.text)) }
        ensures kept { IsRope rope.now }
    {
        let len = rope.len_chars();
        let expected = self.len_chars();
        if len != expected {
            return Err(ChangeError::LengthDiffers(expected, len));
        }
        Ok(())
    }

    // Returns the inverse of a change of the rope's text, which is that of the current version. A
    // function of its own, since here no return drops a change.
    fn checked_inverse(&self, rope: &Rope, change: &ChangeSet) -> Result<ChangeSet, ChangeError>
        ensures rope_differs { length rope.now.text ≢ len_of self.now
            → result ≡ Err (LengthDiffers (len_of self.now) (length rope.now.text)) }
        ensures change_differs { length rope.now.text ≡ len_of self.now
            → before change.now ≢ len_of self.now
            → result ≡ Err (LengthDiffers (before change.now) (len_of self.now)) }
        ensures too_long { length rope.now.text ≡ len_of self.now
            → before change.now ≡ len_of self.now
            → 2 ^ 63 ≤ byte_len rope.now.text + inserted_bytes change.now.edits
            → result ≡ Err TooLong }
        ensures memory { length rope.now.text ≡ len_of self.now
            → before change.now ≡ len_of self.now
            → byte_len rope.now.text + inserted_bytes change.now.edits < 2 ^ 63
            → IfErr result (λ e. e ≡ OutOfMemory) }
        ensures agrees { OnOk result (length rope.now.text ≡ len_of self.now) }
        ensures follows { OnOk result (before change.now ≡ len_of self.now) }
        ensures short { OnOk result
            (byte_len rope.now.text + inserted_bytes change.now.edits < 2 ^ 63) }
        ensures ok { IfOk result (λ inverse. inverse ≡ inverted change.now rope.now.text) }
        ensures len_before { IfOk result (λ inverse. before inverse ≡ after change.now) }
        ensures len_after { IfOk result (λ inverse. after inverse ≡ before change.now) }
        ensures kept { IsRope rope.now }
    {
        self.check_len(rope)?;
        if change.len_before() != self.len_chars() {
            return Err(ChangeError::LengthDiffers(change.len_before(), self.len_chars()));
        }
        if is_too_long(rope, change) {
            return Err(ChangeError::TooLong);
        }
        change.invert(rope)
    }

    /// Applies a change of the current version's text to the rope, and keeps it with its inverse as
    /// a new version, which is a child of the current one and then the current one itself.
    ///
    /// # Errors
    ///
    /// First `LengthDiffers`, with `len_chars()` and the rope's length, if they differ; then
    /// `LengthDiffers`, with the change's `len_before()` and `len_chars()`, if these differ; then
    /// `TooLong`, if the rope's text and the texts that the change inserts have more than
    /// `isize::MAX` bytes together; then `OutOfMemory`. A call that fails leaves the history and
    /// the rope as they were.
    pub fn commit(&mut self, rope: &mut Rope, change: ChangeSet) -> Result<(), ChangeError>
        ensures rope_differs { length rope.old.text ≢ len_of self.old
            → result ≡ Err (LengthDiffers (len_of self.old) (length rope.old.text)) }
        ensures change_differs { length rope.old.text ≡ len_of self.old
            → before change ≢ len_of self.old
            → result ≡ Err (LengthDiffers (before change) (len_of self.old)) }
        ensures too_long { length rope.old.text ≡ len_of self.old → before change ≡ len_of self.old
            → 2 ^ 63 ≤ byte_len rope.old.text + inserted_bytes change.edits
            → result ≡ Err TooLong }
        ensures memory { length rope.old.text ≡ len_of self.old → before change ≡ len_of self.old
            → byte_len rope.old.text + inserted_bytes change.edits < 2 ^ 63
            → IfErr result (λ e. e ≡ OutOfMemory) }
        ensures ok { OnOk result (self.new ≡ committed self.old change rope.old.text) }
        ensures text { OnOk result (rope.new.text ≡ run (ops change) rope.old.text) }
        ensures err { OnErr result ((self.new ≡ self.old) × (rope.new ≡ rope.old)) }

        // The rope keeps the text of the current version, and each version keeps its text.
        ensures stands { (first : List ℕ) → StandsAt first self.old rope.old.text
            → StandsAt first self.new rope.new.text }
        ensures texts { (first : List ℕ) (v : ℕ) → v < length self.old.versions
            → text_at first self.new v ≡ text_at first self.old v }
        ensures breaks { rope.new.breaks ≡ rope.old.breaks }
        ensures kept { IsRope rope.new }
    {
        let inverse = self.checked_inverse(rope, &change)?;
        if self.versions.reserve(1).is_err() || self.redo.reserve(1).is_err() {
            return Err(ChangeError::OutOfMemory);
        }
        change.apply(rope)?;
        let version = Version {
            parent: Some(self.current),
            change,
            inverse,
        };
        push_both(&mut self.versions, &mut self.redo, version);
        self.current = self.redo.len() - 1;
        Ok(())
    }

    /// Applies the inverse of the current version to the rope, and makes its parent the current
    /// version. Returns the version that was left, whose `inverse` was applied, or `None` at the
    /// first version, which stays.
    ///
    /// # Errors
    ///
    /// First `LengthDiffers`, with `len_chars()` and the rope's length, if they differ; then
    /// `TooLong`, if the rope's text and the texts that are inserted have more than `isize::MAX`
    /// bytes together; then `OutOfMemory`. A call that fails leaves the history and the rope as
    /// they were.
    pub fn undo(&mut self, rope: &mut Rope) -> Result<Option<usize>, ChangeError>
        ensures differs { length rope.old.text ≢ len_of self.old
            → result ≡ Err (LengthDiffers (len_of self.old) (length rope.old.text)) }
        ensures too_long { length rope.old.text ≡ len_of self.old
            → 2 ^ 63 ≤ byte_len rope.old.text + inserted_bytes (change_back self.old).edits
            → result ≡ Err TooLong }
        ensures memory { length rope.old.text ≡ len_of self.old
            → byte_len rope.old.text + inserted_bytes (change_back self.old).edits < 2 ^ 63
            → IfErr result (λ e. e ≡ OutOfMemory) }
        ensures left { IfOk result (λ left. left ≡ left_by_undo self.old) }
        ensures ok { OnOk result (self.new ≡ undone self.old) }
        ensures text { OnOk result
            (rope.new.text ≡ run (ops (change_back self.old)) rope.old.text) }
        ensures none { parent_of self.old self.old.current ≡ None → rope.new ≡ rope.old }
        ensures err { OnErr result ((self.new ≡ self.old) × (rope.new ≡ rope.old)) }
        ensures stands { (first : List ℕ) → StandsAt first self.old rope.old.text
            → StandsAt first self.new rope.new.text }
        ensures texts { (first : List ℕ) (v : ℕ)
            → text_at first self.new v ≡ text_at first self.old v }
        ensures breaks { rope.new.breaks ≡ rope.old.breaks }
        ensures kept { IsRope rope.new }
    {
        self.check_len(rope)?;
        let left = self.current;
        let version = &self.versions[left];
        let Some(parent) = version.parent else {
            return Ok(None);
        };
        version.inverse.apply(rope)?;
        self.redo[parent] = Some(left);
        self.current = parent;
        Ok(Some(left))
    }

    /// Applies the change of the child that was left last to the rope, and makes that child the
    /// current version. Returns it, or `None` if no child was left, and then changes nothing.
    ///
    /// # Errors
    ///
    /// First `LengthDiffers`, with `len_chars()` and the rope's length, if they differ; then
    /// `TooLong`, if the rope's text and the texts that are inserted have more than `isize::MAX`
    /// bytes together; then `OutOfMemory`. A call that fails leaves the history and the rope as
    /// they were.
    pub fn redo(&mut self, rope: &mut Rope) -> Result<Option<usize>, ChangeError>
        ensures differs { length rope.old.text ≢ len_of self.old
            → result ≡ Err (LengthDiffers (len_of self.old) (length rope.old.text)) }
        ensures too_long { length rope.old.text ≡ len_of self.old
            → 2 ^ 63 ≤ byte_len rope.old.text + inserted_bytes (change_ahead self.old).edits
            → result ≡ Err TooLong }
        ensures memory { length rope.old.text ≡ len_of self.old
            → byte_len rope.old.text + inserted_bytes (change_ahead self.old).edits < 2 ^ 63
            → IfErr result (λ e. e ≡ OutOfMemory) }
        ensures reached { IfOk result (λ child. child ≡ redo_of self.old self.old.current) }
        ensures ok { OnOk result (self.new ≡ redone self.old) }
        ensures text { OnOk result
            (rope.new.text ≡ run (ops (change_ahead self.old)) rope.old.text) }
        ensures none { redo_of self.old self.old.current ≡ None → rope.new ≡ rope.old }
        ensures err { OnErr result ((self.new ≡ self.old) × (rope.new ≡ rope.old)) }
        ensures stands { (first : List ℕ) → StandsAt first self.old rope.old.text
            → StandsAt first self.new rope.new.text }
        ensures texts { (first : List ℕ) (v : ℕ)
            → text_at first self.new v ≡ text_at first self.old v }
        ensures breaks { rope.new.breaks ≡ rope.old.breaks }
        ensures kept { IsRope rope.new }
    {
        self.check_len(rope)?;
        let Some(child) = self.redo_version() else {
            return Ok(None);
        };
        self.versions[child].change.apply(rope)?;
        self.current = child;
        Ok(Some(child))
    }

    // Applies the inverse of a version to the rope, and returns its parent. The version isn't the
    // first one.
    fn step_up(&self, rope: &mut Rope, version: usize) -> Result<usize, ChangeError>
        requires within { version < length self.now.versions }
        requires some { 0 < version }
        requires len { length rope.old.text ≡ after (version_at self.now version).change }
        ensures parent { IfOk result (λ p. (p < version) × (parent_of self.now version ≡ Some p)) }
        ensures len { IfOk result (λ p.
            length rope.new.text ≡ after (version_at self.now p).change) }
        ensures text { OnOk result (rope.new.text
            ≡ run (ops (version_at self.now version).inverse) rope.old.text) }
        ensures error { IfErr result (λ e. (e ≡ TooLong) ⊎ (e ≡ OutOfMemory)) }
        ensures too_long { result ≡ Err TooLong
            → IsTooLong rope.old.text (version_at self.now version).inverse }
        ensures breaks { rope.new.breaks ≡ rope.old.breaks }
        ensures kept { IsRope rope.new }
    {
        let left = &self.versions[version];
        let Some(parent) = left.parent else {
            unreachable!();
        };
        left.inverse.apply(rope)?;
        Ok(parent)
    }

    // Applies the change of a version to the rope.
    fn step_down(&self, rope: &mut Rope, version: usize) -> Result<(), ChangeError>
        requires within { version < length self.now.versions }
        requires len { length rope.old.text ≡ before (version_at self.now version).change }
        ensures len { OnOk result
            (length rope.new.text ≡ after (version_at self.now version).change) }
        ensures text { OnOk result (rope.new.text
            ≡ run (ops (version_at self.now version).change) rope.old.text) }
        ensures error { IfErr result (λ e. (e ≡ TooLong) ⊎ (e ≡ OutOfMemory)) }
        ensures too_long { result ≡ Err TooLong
            → IsTooLong rope.old.text (version_at self.now version).change }
        ensures breaks { rope.new.breaks ≡ rope.old.breaks }
        ensures kept { IsRope rope.new }
    {
        self.versions[version].change.apply(rope)?;
        Ok(())
    }

    // Applies the inverses up to the last common ancestor of the current version and `version`, and
    // returns that ancestor. Adds each parent that it reaches to `parents`, and the versions from
    // `version` up to a child of the ancestor to `path`.
    fn climb(
        &self,
        rope: &mut Rope,
        version: usize,
        parents: &mut Vec<usize>,
        path: &mut Vec<usize>,
    ) -> Result<usize, ChangeError>
        requires history { IsHistory self.now }
        requires rope { IsRope rope.old }
        requires within { version < length self.now.versions }
        requires len { length rope.old.text ≡ len_of self.now }
        requires no_parents { parents.old.items ≡ [] }
        requires no_path { path.old.items ≡ [] }
        ensures top { IfOk result (λ top. top ≡ (ascended self.now parents.new.items).current) }
        ensures up { OnOk result (IsAscent self.now parents.new.items) }
        ensures down { IfOk result (λ top. IsPath self.now version path.new.items top) }
        ensures apart { OnOk result (All
            (λ x. All (λ y. x ≢ y) (self.now.current ∷ parents.new.items)) path.new.items) }
        ensures within { IfOk result (λ top. top < length self.now.versions) }
        ensures len { IfOk result (λ top.
            length rope.new.text ≡ after (version_at self.now top).change) }
        ensures text { IfOk result (λ top. (first : List ℕ)
            → StandsAt first self.now rope.old.text
            → rope.new.text ≡ text_at first self.now top) }
        ensures error { IfErr result (λ e. (e ≡ TooLong) ⊎ (e ≡ OutOfMemory)) }
        ensures too_long { result ≡ Err TooLong → (first : List ℕ)
            → StandsAt first self.now rope.old.text → IsTooLongUp first self.now }
        ensures breaks { rope.new.breaks ≡ rope.old.breaks }
        ensures kept { IsRope rope.new }
    {
        let mut up = self.current;
        let mut down = version;
        while up != down {
            if up > down {
                up = self.step_up(rope, up)?;
                if parents.push(up).is_err() {
                    return Err(ChangeError::OutOfMemory);
                }
            } else {
                if path.push(down).is_err() {
                    return Err(ChangeError::OutOfMemory);
                }
                let Some(parent) = self.parent(down) else {
                    unreachable!();
                };
                down = parent;
            }
        }
        Ok(up)
    }

    // Applies the changes on a path from `top` down to `version` to the rope.
    fn descend(
        &self,
        rope: &mut Rope,
        version: usize,
        top: usize,
        path: &mut Vec<usize>,
    ) -> Result<(), ChangeError>
        requires history { IsHistory self.now }
        requires rope { IsRope rope.old }
        requires path { IsPath self.now version path.old.items top }
        requires within { version < length self.now.versions }
        requires len { length rope.old.text ≡ after (version_at self.now top).change }
        ensures text { OnOk result ((first : List ℕ) → rope.old.text ≡ text_at first self.now top
            → rope.new.text ≡ text_at first self.now version) }
        ensures error { IfErr result (λ e. (e ≡ TooLong) ⊎ (e ≡ OutOfMemory)) }
        ensures too_long { result ≡ Err TooLong → (first : List ℕ)
            → rope.old.text ≡ text_at first self.now top → IsTooLongDown first self.now version }
        ensures breaks { rope.new.breaks ≡ rope.old.breaks }
        ensures kept { IsRope rope.new }
    {
        while let Some(child) = path.pop() {
            self.step_down(rope, child)?;
        }
        Ok(())
    }

    // Makes each of the parents the current version, and remembers the versions that are left.
    fn leave(&mut self, parents: &Vec<usize>)
        requires { IsAscent self.old parents.now.items }
        ensures { self.new ≡ ascended self.old parents.now.items }
    {
        for parent in parents {
            self.redo[*parent] = Some(self.current);
            self.current = *parent;
        }
    }

    /// Makes `version` the current version: applies to the rope the inverses up to the last common
    /// ancestor of both versions, as `undo` does, and then the changes down to `version`. Takes
    /// memory for the numbers of the versions on that path.
    ///
    /// # Errors
    ///
    /// First `LengthDiffers`, with `len_chars()` and the rope's length, if they differ. Then
    /// `TooLong`, where a text on the path and the texts that are inserted into it have more than
    /// `isize::MAX` bytes together, unless memory ends before that; and `OutOfMemory` otherwise. A
    /// call that fails leaves the history and the rope as they were.
    pub fn go_to(&mut self, rope: &mut Rope, version: usize) -> Result<(), ChangeError>
        requires { version < length self.old.versions }
        ensures differs { length rope.old.text ≢ len_of self.old
            → result ≡ Err (LengthDiffers (len_of self.old) (length rope.old.text)) }
        ensures error { length rope.old.text ≡ len_of self.old
            → IfErr result (λ e. (e ≡ TooLong) ⊎ (e ≡ OutOfMemory)) }
        ensures too_long { result ≡ Err TooLong → (first : List ℕ)
            → StandsAt first self.old rope.old.text → IsTooLongTo first self.old version }
        ensures ok { OnOk result (GoesTo self.old self.new version) }
        ensures err { OnErr result ((self.new ≡ self.old) × (rope.new ≡ rope.old)) }
        ensures stands { (first : List ℕ) → StandsAt first self.old rope.old.text
            → StandsAt first self.new rope.new.text }
        ensures texts { (first : List ℕ) (v : ℕ)
            → text_at first self.new v ≡ text_at first self.old v }
        ensures breaks { rope.new.breaks ≡ rope.old.breaks }
        ensures kept { IsRope rope.new }
    {
        self.check_len(rope)?;
        let Ok(mut moved) = rope.clone() else {
            return Err(ChangeError::OutOfMemory);
        };
        let mut parents = Vec::new(self.alloc);
        let mut path = Vec::new(self.alloc);
        let top = self.climb(&mut moved, version, &mut parents, &mut path)?;
        self.descend(&mut moved, version, top, &mut path)?;
        self.leave(&parents);
        self.current = version;
        *rope = moved;
        Ok(())
    }
}
