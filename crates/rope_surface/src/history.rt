//! Histories of a text: made, committed to, undone, redone and asked; marks: added, found, moved
//! and removed.
ghost use Rattle.std.specs.Prelude.{◌≡◌, ◌∷◌, ◌<◌, ◌↔◌, [], ℕ, List, length, map, filter, IsTrue, IfOk, IfSome, MatchOption, OnOk};
ghost use Rattle.std.specs.List.{Contains};
ghost use Rattle.std.specs.List.Sorted.{IsPermutation};
ghost use Rattle.rope_changes.specs.Change.{ops};
ghost use Rattle.rope_changes.specs.Ops.{run};
ghost use Rattle.rope_history.specs.Marking.{moved_mark, touches};
ghost use Rattle.rope_history.specs.Texts.{StandsAt, text_at, text_before};
ghost use Rattle.rope_history.specs.Versions.{GoesTo, committed, first_version, left_by_undo, len_of, parent_of, redo_of, redone, undone};

use rope_changes::{ChangeError, ChangeSet, Side};
use rope_history::{History, Mark, Marks, Within};
use ropey::Rope;
use std::alloc::Global;

/// Makes the history of a text.
pub fn new(alloc: Global, len: usize) -> Result<History, ChangeError>
    ensures { IfOk result (λ history. history ≡ first_version len) }
{
    History::new(alloc, len)
}

/// Commits a change.
pub fn commit(history: &mut History, rope: &mut Rope, change: ChangeSet) -> Result<(), ChangeError>
    ensures { OnOk result (history.new ≡ committed history.old change rope.old.text) }
{
    history.commit(rope, change)
}

/// Undoes the current version of a history, and returns it.
pub fn undo(history: &mut History, rope: &mut Rope) -> Result<Option<usize>, ChangeError>
    ensures history { OnOk result (history.new ≡ undone history.old) }
    ensures left { IfOk result (λ left. left ≡ left_by_undo history.old) }
    ensures stands { (first : List ℕ) → StandsAt first history.old rope.old.text
        → StandsAt first history.new rope.new.text }
{
    history.undo(rope)
}

/// Redoes the version that was undone last, and returns it.
pub fn redo(history: &mut History, rope: &mut Rope) -> Result<Option<usize>, ChangeError>
    ensures history { OnOk result (history.new ≡ redone history.old) }
    ensures reached { IfOk result (λ child. child ≡ redo_of history.old history.old.current) }
    ensures stands { (first : List ℕ) → StandsAt first history.old rope.old.text
        → StandsAt first history.new rope.new.text }
{
    history.redo(rope)
}

/// Goes to a version.
pub fn go_to(history: &mut History, rope: &mut Rope, version: usize) -> Result<(), ChangeError>
    requires { version < length history.old.versions }
    ensures history { OnOk result (GoesTo history.old history.new version) }
    ensures stands { (first : List ℕ) → StandsAt first history.old rope.old.text
        → StandsAt first history.new rope.new.text }
{
    history.go_to(rope, version)
}

/// Returns the number of versions, the current one, and the length of its text.
pub fn numbers(history: &History) -> (usize, usize, usize)
    ensures versions { result.0 ≡ length history.now.versions }
    ensures current { result.1 ≡ history.now.current }
    ensures len { result.2 ≡ len_of history.now }
{
    (
        history.len_versions(),
        history.current(),
        history.len_chars(),
    )
}

/// Returns the parent of a version.
pub fn parent(history: &History, version: usize) -> Option<usize>
    requires { version < length history.now.versions }
    ensures { result ≡ parent_of history.now version }
{
    history.parent(version)
}

/// Returns the version that would be redone.
pub fn redo_version(history: &History) -> Option<usize>
    ensures { result ≡ redo_of history.now history.now.current }
{
    history.redo_version()
}

/// Returns the change that made a version.
pub fn change(history: &History, version: usize) -> &ChangeSet
    requires { version < length history.now.versions }
    ensures { (first : List ℕ) → text_at first history.now version
        ≡ run (ops result.now) (text_before first history.now version) }
{
    history.change(version)
}

/// Returns the change that leads back from a version.
pub fn inverse(history: &History, version: usize) -> &ChangeSet
    requires { version < length history.now.versions }
    ensures { (first text : List ℕ) → StandsAt first history.now text
        → run (ops result.now) (text_at first history.now version)
        ≡ text_before first history.now version }
{
    history.inverse(version)
}

/// Makes marks of a text.
pub fn new_marks(alloc: Global, len: usize) -> Marks
    ensures { result ≡ record { marks = []; len = len; next_id = 0 } }
{
    Marks::new(alloc, len)
}

/// Adds a mark, and returns its number.
pub fn add(
    marks: &mut Marks,
    start: usize,
    end: usize,
    start_side: Side,
    end_side: Side,
) -> Result<usize, ChangeError>
    ensures { IfOk result (λ id. IsPermutation (record {
      id = id;
      start = start;
      end = end;
      start_side = start_side;
      end_side = end_side;
    } ∷ marks.old.marks) marks.new.marks) }
{
    marks.add(start, end, start_side, end_side)
}

/// Returns a mark by its number.
pub fn get(marks: &Marks, id: usize) -> Option<Mark>
    ensures { IfSome result (λ m. (m.id ≡ id) × Contains marks.now.marks m) }
{
    marks.get(id)
}

/// Removes a mark by its number.
pub fn remove(marks: &mut Marks, id: usize) -> Option<Mark>
    ensures { IfSome result (λ m. (m.id ≡ id)
        × IsPermutation marks.old.marks (m ∷ marks.new.marks)) }
{
    marks.remove(id)
}

/// Moves marks through a change.
pub fn apply(marks: &mut Marks, change: &ChangeSet) -> Result<(), ChangeError>
    ensures { OnOk result
        (IsPermutation (map (moved_mark (ops change.now)) marks.old.marks) marks.new.marks) }
{
    marks.apply(change)
}

/// Starts a cursor at the first mark that touches a range of characters.
pub fn within(marks: &Marks, start: usize, end: usize) -> Within<'_>
    ensures { result ≡ filter (touches start end) marks.now.marks }
{
    marks.within(start, end)
}

/// Returns the next mark of a cursor.
pub fn next_mark(marks: &mut Within<'_>) -> Option<Mark>
    ensures { MatchOption result (marks.old ≡ []) (λ m. marks.old ≡ m ∷ marks.new) }
{
    marks.next()
}

/// Returns the number of marks, whether there are none, and the length of their text.
pub fn mark_numbers(marks: &Marks) -> (usize, bool, usize)
    ensures count { result.0 ≡ length marks.now.marks }
    ensures empty { IsTrue result.1 ↔ (marks.now.marks ≡ []) }
    ensures len { result.2 ≡ marks.now.len }
{
    (marks.len(), marks.is_empty(), marks.len_chars())
}

/// Returns the range, the sides and the number of a mark.
pub fn mark_parts(mark: Mark) -> ((usize, usize), (Side, Side), usize)
    ensures range { result.0 ≡ (mark.start, mark.end) }
    ensures sides { result.1 ≡ (mark.start_side, mark.end_side) }
    ensures id { result.2 ≡ mark.id }
{
    let Mark {
        id,
        start,
        end,
        start_side,
        end_side,
    } = mark;
    ((start, end), (start_side, end_side), id)
}
