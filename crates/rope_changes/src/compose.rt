//! Two changes in a row as one.
ghost use Rattle.std.specs.Prelude.{◌≡◌, ◌≢◌, ◌+◌, ◌<◌, ◌≤◌, ◌^◌, ◌↔◌, IsTrue, IfOk, IfErr, OnOk, ℕ, List, length};
ghost use Rattle.rope_changes.specs.declared.error.ChangeError.TheVariants.{LengthDiffers, OutOfMemory};
ghost use Rattle.rope_changes.specs.Ops.{run, len_before, len_after};
ghost use Rattle.rope_changes.specs.Change.{before, after, ops};
ghost use Rattle.rope_changes.specs.Normal.{composed};
ghost use Rattle.rope_changes.specs.Left.{left, IsLoaded};
ghost use Rattle.rope_changes.specs.Composing.{Composes};

use crate::change_set::ChangeSet;
use crate::cursor::{Cursor, load_both};
use crate::error::ChangeError;

// Composes the next runs of two changes, where the first one keeps characters and the second one
// keeps or deletes them.
fn compose_kept(
    made: &mut ChangeSet,
    first: &mut Cursor<'_>,
    second: &mut Cursor<'_>,
) -> Result<(), ChangeError>
    requires meet { len_after (left first.old) ≡ len_before (left second.old) }
    requires keeps { 1 ≤ first.old.kept }
    requires passes { 1 ≤ second.old.kept + second.old.deleted }
    requires inserts_none { second.old.kept ≡ 0 → length second.old.text ≡ 0 }
    requires before_fits { before made.old + len_before (left first.old) < 2 ^ 63 }
    requires after_fits { after made.old + len_after (left second.old) < 2 ^ 63 }
    ensures ok { OnOk result (Composes (ops made.old) (left first.old) (left second.old)
        (ops made.new) (left first.new) (left second.new)) }
    ensures refused { IfErr result (λ e. e ≡ OutOfMemory) }
{
    if second.kept > 0 {
        let count = first.kept.min(second.kept);
        first.skip_kept(count);
        second.skip_kept(count);
        made.push_kept(count);
        return Ok(());
    }
    let count = first.kept.min(second.deleted);
    first.skip_kept(count);
    second.skip_deleted(count);
    made.push_deleted(count)
}

// Composes the next runs of two changes, where the first one inserts a text and the second one
// keeps or deletes characters of it. A text that is kept whole is added together with the
// characters that the first one deletes after it.
fn compose_inserted(
    made: &mut ChangeSet,
    first: &mut Cursor<'_>,
    second: &mut Cursor<'_>,
) -> Result<(), ChangeError>
    requires meet { len_after (left first.old) ≡ len_before (left second.old) }
    requires keeps_none { first.old.kept ≡ 0 }
    requires inserts { 1 ≤ length first.old.text }
    requires passes { 1 ≤ second.old.kept + second.old.deleted }
    requires inserts_none { second.old.kept ≡ 0 → length second.old.text ≡ 0 }
    requires before_fits { before made.old + len_before (left first.old) < 2 ^ 63 }
    requires after_fits { after made.old + len_after (left second.old) < 2 ^ 63 }
    ensures ok { OnOk result (Composes (ops made.old) (left first.old) (left second.old)
        (ops made.new) (left first.new) (left second.new)) }
    ensures refused { IfErr result (λ e. e ≡ OutOfMemory) }
{
    if first.inserted <= second.kept {
        let (count, deleted) = (first.inserted, first.deleted);
        let text = first.take_edit(deleted);
        second.skip_kept(count);
        return made.push(text, count, deleted);
    }
    if second.kept > 0 {
        let count = second.kept;
        let text = first.cut_text(count);
        second.skip_kept(count);
        return made.push(text, count, 0);
    }
    let count = first.inserted.min(second.deleted);
    first.cut_text(count);
    second.skip_deleted(count);
    Ok(())
}

// Composes the next runs of two changes. A text that the second one inserts is added together with
// the characters that it deletes after the text, as far as the first one keeps these.
fn compose_next(
    made: &mut ChangeSet,
    first: &mut Cursor<'_>,
    second: &mut Cursor<'_>,
) -> Result<(), ChangeError>
    requires meet { len_after (left first.old) ≡ len_before (left second.old) }
    requires first_loaded { IsLoaded first.old }
    requires second_loaded { IsLoaded second.old }
    requires some { 1 ≤ length (left first.old) + length (left second.old) }
    requires before_fits { before made.old + len_before (left first.old) < 2 ^ 63 }
    requires after_fits { after made.old + len_after (left second.old) < 2 ^ 63 }
    ensures ok { OnOk result (Composes (ops made.old) (left first.old) (left second.old)
        (ops made.new) (left first.new) (left second.new)) }
    ensures refused { IfErr result (λ e. e ≡ OutOfMemory) }
{
    if first.kept == 0 && first.inserted == 0 && first.deleted > 0 {
        let count = first.deleted;
        first.skip_deleted(count);
        return made.push_deleted(count);
    }
    if second.kept == 0 && second.inserted > 0 {
        let inserted = second.inserted;
        let count = first.kept.min(second.deleted);
        first.skip_kept(count);
        let text = second.take_edit(count);
        return made.push(text, inserted, count);
    }
    if first.kept > 0 {
        return compose_kept(made, first, second);
    }
    compose_inserted(made, first, second)
}

impl ChangeSet {
    /// Returns the change that does what this change and then `later` do. Takes memory for the
    /// replacements and the inserted texts of both changes.
    ///
    /// # Errors
    ///
    /// First `LengthDiffers`, with `later.len_before()` and `len_after()`, if they differ; then
    /// `OutOfMemory`.
    ///
    /// ```
    /// let mut first = ChangeSet::new(alloc, 7)?;
    /// first.replace(0, 3, "1")?;
    /// let mut later = ChangeSet::new(alloc, 5)?;
    /// later.replace(2, 5, "2")?;
    /// let mut rope = Rope::from_str(alloc, "one two")?;
    /// first.compose(&later)?.apply(&mut rope)?;
    /// assert!(rt; rope.eq_str("1 2"));
    /// ```
    // Never inlined, so that its loop has all registers.
    #[inline(never)]
    pub fn compose(&self, later: &ChangeSet) -> Result<ChangeSet, ChangeError>
        ensures differs { after self.now ≢ before later.now
            → result ≡ Err (LengthDiffers (before later.now) (after self.now)) }
        ensures memory { after self.now ≡ before later.now → IfErr result (λ e. e ≡ OutOfMemory) }
        ensures ok { IfOk result (λ change. ops change ≡ composed (ops self.now) (ops later.now)) }
        ensures applies { IfOk result (λ change. (text : List ℕ) → before self.now ≡ length text
            → run (ops change) text ≡ run (ops later.now) (run (ops self.now) text)) }
        ensures len_before { IfOk result (λ change. before change ≡ before self.now) }
        ensures len_after { IfOk result (λ change. after change ≡ after later.now) }
    {
        let given = self.len_after();
        if given != later.len_before() {
            return Err(ChangeError::LengthDiffers(later.len_before(), given));
        }
        let count = self.edits.len().saturating_add(later.edits.len());
        let bytes = self
            .edits
            .len_bytes()
            .saturating_add(later.edits.len_bytes());
        let mut made = ChangeSet::with_capacity(self.alloc, count, bytes)?;
        let mut first = Cursor::new(self);
        let mut second = Cursor::new(later);
        while load_both(&mut first, &mut second) {
            compose_next(&mut made, &mut first, &mut second)?;
        }
        Ok(made)
    }
}
