//! Changes of ropes, and the changes that lead back.
ghost use Rattle.std.specs.Prelude.{◌≡◌, ◌≢◌, ◌+◌, ◌<◌, ◌≤◌, ◌^◌, [], IfOk, IfErr, IsOk, OnOk, OnErr, length};
ghost use Rattle.rope_text.specs.Text.{byte_len};
ghost use Rattle.ropey.specs.View.{IsRope};
ghost use Rattle.rope_changes.specs.declared.error.ChangeError.TheVariants.{LengthDiffers, TooLong, OutOfMemory};
ghost use Rattle.rope_changes.specs.Applied.{inserted_bytes};
ghost use Rattle.rope_changes.specs.Change.{before, after, ops};
ghost use Rattle.rope_changes.specs.Inverted.{inverted};
ghost use Rattle.rope_changes.specs.Ops.{run};

use crate::change_set::ChangeSet;
use crate::error::ChangeError;
use crate::replacements::Replacements;
use crate::splice::{splice, text_of};
use rope_text::MAX_TEXT_BYTES;
use ropey::Rope;

impl ChangeSet {
    /// Applies the change to the text of a rope, whose set of line breaks stays. An empty change
    /// takes no memory and leaves the rope as it was.
    ///
    /// A change that is one insert or one removal costs what that costs. Any other is made in a
    /// clone that replaces the rope at the end, so each replacement also copies the nodes on its
    /// path.
    ///
    /// # Errors
    ///
    /// First `LengthDiffers`, with both lengths, if the rope's length isn't `len_before()`; then
    /// `TooLong`, if its text and the texts that the change inserts have more than `isize::MAX`
    /// bytes together; then `OutOfMemory`. A call that fails leaves the rope as it was.
    ///
    /// ```
    /// let mut change = ChangeSet::new(alloc, 7)?;
    /// change.replace(0, 3, "1")?;
    /// change.replace(4, 7, "2")?;
    /// let mut rope = Rope::from_str(alloc, "one two")?;
    /// change.apply(&mut rope)?;
    /// assert!(rt; rope.eq_str("1 2"));
    /// ```
    pub fn apply(&self, rope: &mut Rope) -> Result<(), ChangeError>
        ensures differs { length rope.old.text ≢ before self.now
            → result ≡ Err (LengthDiffers (before self.now) (length rope.old.text)) }
        ensures too_long { length rope.old.text ≡ before self.now
            → 2 ^ 63 ≤ byte_len rope.old.text + inserted_bytes self.now.edits
            → result ≡ Err TooLong }
        ensures memory { length rope.old.text ≡ before self.now
            → byte_len rope.old.text + inserted_bytes self.now.edits < 2 ^ 63
            → IfErr result (λ e. e ≡ OutOfMemory) }
        ensures empty { length rope.old.text ≡ before self.now → self.now.edits ≡ []
            → IsOk result × (rope.new ≡ rope.old) }
        ensures ok { OnOk result (rope.new.text ≡ run (ops self.now) rope.old.text) }
        ensures err { OnErr result (rope.new ≡ rope.old) }
        ensures breaks { rope.new.breaks ≡ rope.old.breaks }
        ensures kept { IsRope rope.new }
    {
        let len = rope.len_chars();
        if len != self.len_before {
            return Err(ChangeError::LengthDiffers(self.len_before, len));
        }
        if self.is_empty() {
            return Ok(());
        }
        if self.edits.len_bytes() > MAX_TEXT_BYTES - rope.len_bytes() {
            return Err(ChangeError::TooLong);
        }
        if self.edits.len() == 1 {
            return self.apply_only(rope);
        }
        let Ok(mut edited) = rope.clone() else {
            return Err(ChangeError::OutOfMemory);
        };
        let mut at = 0;
        let mut edits = self.edits.read();
        while let Some(edit) = edits.next() {
            let start = at + edit.kept;
            splice(&mut edited, start, start + edit.deleted, edit.text)?;
            at = start + edit.inserted;
        }
        *rope = edited;
        Ok(())
    }

    // Applies a change of one replacement. A refused insert or removal leaves the rope as it was,
    // so either alone is done where the rope stands; both are done in a clone.
    fn apply_only(&self, rope: &mut Rope) -> Result<(), ChangeError>
        requires only { length self.now.edits ≡ 1 }
        requires len { length rope.old.text ≡ before self.now }
        ensures ok { OnOk result (rope.new.text ≡ run (ops self.now) rope.old.text) }
        ensures refused { IfErr result (λ e. e ≡ OutOfMemory) }
        ensures err { OnErr result (rope.new ≡ rope.old) }
        ensures breaks { rope.new.breaks ≡ rope.old.breaks }
        ensures kept { OnOk result (IsRope rope.new) }
    {
        let mut edits = self.edits.read();
        let Some(edit) = edits.next() else {
            return Ok(());
        };
        let (start, end) = (edit.kept, edit.kept + edit.deleted);
        if start == end || edit.text.is_empty() {
            return splice(rope, start, end, edit.text);
        }
        let Ok(mut edited) = rope.clone() else {
            return Err(ChangeError::OutOfMemory);
        };
        splice(&mut edited, start, end, edit.text)?;
        *rope = edited;
        Ok(())
    }

    /// Returns the change that leads from the text after this change back to the text of `rope`,
    /// which is the text before. Takes memory for the texts that this change deletes.
    ///
    /// # Errors
    ///
    /// First `LengthDiffers`, with both lengths, if the rope's length isn't `len_before()`; then
    /// `OutOfMemory`.
    ///
    /// ```
    /// let mut rope = Rope::from_str(alloc, "one two")?;
    /// let mut change = ChangeSet::new(alloc, 7)?;
    /// change.replace(0, 3, "1")?;
    /// let undo = change.invert(&rope)?;
    /// change.apply(&mut rope)?;
    /// undo.apply(&mut rope)?;
    /// assert!(rt; rope.eq_str("one two"));
    /// ```
    pub fn invert(&self, rope: &Rope) -> Result<ChangeSet, ChangeError>
        ensures differs { length rope.now.text ≢ before self.now
            → result ≡ Err (LengthDiffers (before self.now) (length rope.now.text)) }
        ensures memory { length rope.now.text ≡ before self.now
            → IfErr result (λ e. e ≡ OutOfMemory) }
        ensures ok { IfOk result (λ inverse. inverse ≡ inverted self.now rope.now.text) }
        ensures len_before { IfOk result (λ inverse. before inverse ≡ after self.now) }
        ensures len_after { IfOk result (λ inverse. after inverse ≡ before self.now) }
    {
        let chars = rope.len_chars();
        if chars != self.len_before {
            return Err(ChangeError::LengthDiffers(self.len_before, chars));
        }
        let mut inverse = Replacements::with_capacity(self.alloc, self.edits.len(), 0)?;
        let mut at = 0;
        let mut edits = self.edits.read();
        while let Some(edit) = edits.next() {
            let from = at + edit.kept;
            at = from + edit.deleted;
            let text = text_of(self.alloc, rope, from, at)?;
            inverse.push(edit.kept, text.as_str(), edit.deleted, edit.inserted)?;
        }
        Ok(ChangeSet {
            edits: inverse,
            rest: self.rest,
            len_before: self.len_after,
            len_after: self.len_before,
            alloc: self.alloc,
        })
    }
}
