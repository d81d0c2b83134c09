//! A change as one of the text after another change of the same text.
ghost use Rattle.std.specs.Prelude.{◌≡◌, ◌≢◌, ◌+◌, ◌<◌, ◌≤◌, ◌^◌, ◌↔◌, IsTrue, IfOk, IfErr, length};
ghost use Rattle.rope_changes.specs.declared.error.ChangeError.TheVariants.{LengthDiffers, TooLong, OutOfMemory};
ghost use Rattle.rope_changes.specs.Ops.{len_before, len_after};
ghost use Rattle.rope_changes.specs.Change.{before, after, ops};
ghost use Rattle.rope_changes.specs.Normal.{carried, rebased};
ghost use Rattle.rope_changes.specs.Left.{left, IsLoaded, Inserts};
ghost use Rattle.rope_changes.specs.Rebasing.{Rebases};

use crate::change_set::{ChangeSet, MAX_LEN};
use crate::cursor::{Cursor, load_both};
use crate::error::ChangeError;
use crate::run::Run;
use crate::side::Side;

// Passes characters that both changes keep or delete, and returns the first run of the rebased
// change, which is of characters that the other change keeps.
fn rebase_passed<'a>(own: &mut Cursor<'a>, over: &mut Cursor<'_>, side: Side) -> Run<'a>
    requires meet { len_before (left own.old) ≡ len_before (left over.old) }
    requires own_passes { 1 ≤ own.old.kept + own.old.deleted }
    requires over_passes { 1 ≤ over.old.kept + over.old.deleted }
    requires own_inserts_none { own.old.kept ≡ 0 → length own.old.text ≡ 0 }
    requires over_inserts_none { over.old.kept ≡ 0 → length over.old.text ≡ 0 }
    ensures { Rebases side (left own.old) (left over.old) result (left own.new) (left over.new) }
{
    if over.kept > 0 {
        if own.kept > 0 {
            let count = own.kept.min(over.kept);
            own.skip_kept(count);
            over.skip_kept(count);
            return Run::Keep(count);
        }
        let count = own.deleted.min(over.kept);
        own.skip_deleted(count);
        over.skip_kept(count);
        return Run::Delete(count);
    }
    if own.kept > 0 {
        let count = own.kept.min(over.deleted);
        own.skip_kept(count);
        over.skip_deleted(count);
        return Run::Nothing;
    }
    let count = own.deleted.min(over.deleted);
    own.skip_deleted(count);
    over.skip_deleted(count);
    Run::Nothing
}

// Passes the next run of one of the changes or of both, and returns the first run of the rebased
// change.
fn rebase_next<'a>(own: &mut Cursor<'a>, over: &mut Cursor<'_>, side: Side) -> Run<'a>
    requires meet { len_before (left own.old) ≡ len_before (left over.old) }
    requires own_loaded { IsLoaded own.old }
    requires over_loaded { IsLoaded over.old }
    requires some { 1 ≤ length (left own.old) + length (left over.old) }
    ensures { Rebases side (left own.old) (left over.old) result (left own.new) (left over.new) }
{
    let over_inserts = over.inserts();
    if own.inserts() && side.is_first(over_inserts) {
        let count = own.inserted;
        return Run::Insert(own.take_text(), count);
    }
    if over_inserts {
        let count = over.inserted;
        over.take_text();
        return Run::Keep(count);
    }
    rebase_passed(own, over, side)
}

// Returns whether the text after the rebased change would be too long.
fn is_too_long(own: &ChangeSet, over: &ChangeSet, side: Side) -> bool
    requires { before own.now ≡ before over.now }
    ensures { IsTrue result ↔ (2 ^ 63 ≤ len_after (carried side (ops own.now) (ops over.now))) }
{
    let mut room = MAX_LEN;
    let mut first = Cursor::new(own);
    let mut second = Cursor::new(over);
    while load_both(&mut first, &mut second) {
        let added = rebase_next(&mut first, &mut second, side).len_after();
        if added > room {
            return true;
        }
        room -= added;
    }
    false
}

impl ChangeSet {
    /// Returns this change as a change of the text after `over`, where both are changes of one
    /// text. Where both insert at one index, the text of this change comes first with
    /// `Side::Before`, and the text of `over` with `Side::After`. If `a` is rebased over `b` with
    /// one side, and `b` over `a` with the other, both orders lead to the same text.
    /// Takes memory for the replacements and the inserted texts of the result.
    ///
    /// # Errors
    ///
    /// First `LengthDiffers`, with `len_before()` and `over.len_before()`, if they differ; then
    /// `TooLong`, if the text after the result would have more than `isize::MAX` characters; then
    /// `OutOfMemory`.
    ///
    /// ```
    /// let mut ours = ChangeSet::new(alloc, 7)?;
    /// ours.replace(0, 3, "1")?;
    /// let mut theirs = ChangeSet::new(alloc, 7)?;
    /// theirs.replace(4, 7, "2")?;
    /// let mut rope = Rope::from_str(alloc, "one two")?;
    /// ours.apply(&mut rope)?;
    /// theirs.rebase(&ours, Side::After)?.apply(&mut rope)?;
    /// assert!(rt; rope.eq_str("1 2"));
    /// ```
    pub fn rebase(&self, over: &ChangeSet, side: Side) -> Result<ChangeSet, ChangeError>
        ensures differs { before self.now ≢ before over.now
            → result ≡ Err (LengthDiffers (before self.now) (before over.now)) }
        ensures too_long { before self.now ≡ before over.now
            → 2 ^ 63 ≤ len_after (rebased side (ops self.now) (ops over.now))
            → result ≡ Err TooLong }
        ensures memory { before self.now ≡ before over.now
            → len_after (rebased side (ops self.now) (ops over.now)) < 2 ^ 63
            → IfErr result (λ e. e ≡ OutOfMemory) }
        ensures ok { IfOk result (λ change.
            ops change ≡ rebased side (ops self.now) (ops over.now)) }
        ensures len_before { IfOk result (λ change. before change ≡ after over.now) }
    {
        let given = over.len_before();
        if given != self.len_before() {
            return Err(ChangeError::LengthDiffers(self.len_before(), given));
        }
        if is_too_long(self, over, side) {
            return Err(ChangeError::TooLong);
        }
        let (count, bytes) = (self.edits.len(), self.edits.len_bytes());
        let mut made = ChangeSet::with_capacity(self.alloc, count, bytes)?;
        let mut first = Cursor::new(self);
        let mut second = Cursor::new(over);
        while load_both(&mut first, &mut second) {
            let run = rebase_next(&mut first, &mut second, side);
            made.push_run(&run)?;
        }
        Ok(made)
    }
}
