//! Changes as values: built, measured, listed, applied, inverted, composed, rebased, and moved
//! through.
ghost use Rattle.std.specs.Prelude.{◌≡◌, [], ◌<◌, ◌≤◌, ◌↔◌, IsTrue, IfOk, MatchOption, OnOk, Some, length, map as list_map};
ghost use Rattle.std.specs.List.{All};
ghost use Rattle.std.specs.Str.{chars};
ghost use Rattle.rope_changes.specs.Built.{built, unchanged};
ghost use Rattle.rope_changes.specs.Change.{IsInOrder, after, before, last_end, ops, replaced};
ghost use Rattle.rope_changes.specs.Inverted.{inverted};
ghost use Rattle.rope_changes.specs.Laws.{ComposeApplies, CompositionsAssociate, Converges, InverseApplies, InvertsBack, LengthsAgree, MovesCompose, MovesKeepOrder, MovesThroughComposed, NormalFormApplies, NormalFormIsUnique, NormalFormKeepsLengths, OperationsTell, RebasesConverge, ReplacesRange, StartStays};
ghost use Rattle.rope_changes.specs.Listed.{IsNext};
ghost use Rattle.rope_changes.specs.Moved.{moved};
ghost use Rattle.rope_changes.specs.Normal.{composed, rebased};
ghost use Rattle.rope_changes.specs.Ops.{run};

use rope_changes::{ChangeError, ChangeSet, Edit, EditRange, Edits, Side, laws};
use ropey::Rope;
use std::alloc::Global;
use std::fmt;

/// Makes a change that keeps all of a text.
pub fn new(alloc: Global, len: usize) -> Result<ChangeSet, ChangeError>
    ensures { IfOk result (λ change. change ≡ record { edits = []; rest = len }) }
{
    ChangeSet::new(alloc, len)
}

/// Makes a change of a text from edits in order.
pub fn of_edits(alloc: Global, len: usize, edits: &[Edit<'_>]) -> Result<ChangeSet, ChangeError>
    ensures { IfOk result (λ change. change ≡ built (unchanged len) edits.now) }
{
    ChangeSet::of_edits(alloc, len, edits)
}

/// Returns an edit that replaces a range of characters by a text.
pub fn edit<'a>(start: usize, end: usize, text: &'a str) -> Edit<'a>
    ensures start { result.start ≡ start }
    ensures end { result.end ≡ end }
{
    Edit { start, end, text }
}

/// Returns the lengths of the texts before and after a change.
pub fn lengths(change: &ChangeSet) -> (usize, usize)
    ensures before { result.0 ≡ before change.now }
    ensures after { result.1 ≡ after change.now }
{
    (change.len_before(), change.len_after())
}

/// Returns whether a change does nothing.
pub fn is_empty(change: &ChangeSet) -> bool
    ensures { IsTrue result ↔ (change.now.edits ≡ []) }
{
    change.is_empty()
}

/// Replaces a range of characters by a text.
pub fn replace(
    change: &mut ChangeSet,
    start: usize,
    end: usize,
    text: &str,
) -> Result<(), ChangeError>
    ensures { OnOk result (change.new ≡ replaced change.old start end (chars text.now)) }
{
    change.replace(start, end, text)
}

/// Deletes a range of characters, and returns the numbers of the error.
pub fn refused(change: &mut ChangeSet, start: usize, end: usize) -> Option<(usize, usize)>
    ensures invalid { end < start → result ≡ Some (start, end) }
    ensures outside { start ≤ end → before change.old < end
        → result ≡ Some (end, before change.old) }
    ensures out_of_order { start ≤ end → end ≤ before change.old → start < last_end change.old
        → result ≡ Some (start, last_end change.old) }
{
    match change.replace(start, end, "") {
        Err(ChangeError::RangeInvalid(start, end)) => Some((start, end)),
        Err(ChangeError::RangeOutOfBounds(end, len)) => Some((end, len)),
        Err(ChangeError::OutOfOrder(start, last_end)) => Some((start, last_end)),
        _ => None,
    }
}

/// Starts a cursor at the first replacement of a change.
pub fn edits(change: &ChangeSet) -> Edits<'_>
    ensures { result ≡ record { edits = change.now.edits; end = 0; new_end = 0 } }
{
    change.edits()
}

/// Returns the next replacement of a cursor.
pub fn next_edit<'a>(edits: &mut Edits<'a>) -> Option<EditRange<'a>>
    ensures { MatchOption result ((edits.old.edits ≡ []) × (edits.new ≡ edits.old))
        (λ edit. IsNext edits.old edit edits.new) }
{
    edits.next()
}

/// Returns the number of replacements that a cursor has left.
pub fn edits_left(edits: &Edits<'_>) -> usize
    ensures { result ≡ length edits.now.edits }
{
    edits.len()
}

/// Returns the ranges of a replacement in both texts, and its text.
pub fn ranges_of<'a>(edit: EditRange<'a>) -> ((usize, usize), (usize, usize), &'a str) {
    let EditRange {
        start,
        end,
        new_start,
        new_end,
        text,
    } = edit;
    ((start, end), (new_start, new_end), text)
}

/// Applies a change to a rope.
pub fn apply(change: &ChangeSet, rope: &mut Rope) -> Result<(), ChangeError>
    ensures { OnOk result (rope.new.text ≡ run (ops change.now) rope.old.text) }
{
    change.apply(rope)
}

/// Applies a change to a rope of another length, and returns the numbers of the error.
pub fn lengths_differ(change: &ChangeSet, rope: &mut Rope) -> Option<(usize, usize)> {
    match change.apply(rope) {
        Err(ChangeError::LengthDiffers(len_before, len)) => Some((len_before, len)),
        _ => None,
    }
}

/// Returns the errors that have no fields.
pub fn errors_without_fields() -> [ChangeError; 2] {
    [ChangeError::TooLong, ChangeError::OutOfMemory]
}

/// Inverts a change of the text of a rope.
pub fn invert(change: &ChangeSet, rope: &Rope) -> Result<ChangeSet, ChangeError>
    ensures { IfOk result (λ inverse. inverse ≡ inverted change.now rope.now.text) }
{
    change.invert(rope)
}

/// Returns the change that does what a change and then a later one do.
pub fn compose(change: &ChangeSet, later: &ChangeSet) -> Result<ChangeSet, ChangeError>
    ensures { IfOk result (λ both. ops both ≡ composed (ops change.now) (ops later.now)) }
{
    change.compose(later)
}

/// Returns a change as one of the text after another change.
pub fn rebase(change: &ChangeSet, over: &ChangeSet, side: Side) -> Result<ChangeSet, ChangeError>
    ensures { IfOk result (λ new. ops new ≡ rebased side (ops change.now) (ops over.now)) }
{
    change.rebase(over, side)
}

/// Returns the sides, in order.
pub fn sides() -> [Side; 2] {
    [Side::Before, Side::After]
}

/// Moves an index through a change.
pub fn map(change: &ChangeSet, char_idx: usize, side: Side) -> usize
    requires { char_idx ≤ before change.now }
    ensures { result ≡ moved side (ops change.now) char_idx }
{
    change.map(char_idx, side)
}

/// Moves indices through a change.
pub fn map_sorted(change: &ChangeSet, char_indices: &mut [usize], side: Side)
    requires { All (λ i. i ≤ before change.now) char_indices.old }
    ensures { char_indices.new ≡ list_map (moved side (ops change.now)) char_indices.old }
{
    change.map_sorted(char_indices, side);
}

/// Writes an error as its text.
pub fn print_error<W: fmt::Write>(error: &ChangeError, f: &mut fmt::Formatter<W>) -> fmt::Result {
    fmt::Display::fmt(error, f)
}

/// Holds by the laws of changes.
pub fn changes_agree()
    ensures lengths { LengthsAgree }
    ensures compose { ComposeApplies }
    ensures inverse { InverseApplies }
    ensures converge { Converges }
{
    laws::changes_agree();
}

/// Holds by the laws of normal forms.
pub fn normal_forms_agree()
    ensures applies { NormalFormApplies }
    ensures lengths { NormalFormKeepsLengths }
    ensures unique { NormalFormIsUnique }
    ensures operations { OperationsTell }
{
    laws::normal_forms_agree();
}

/// Holds by the law of compositions.
pub fn compositions_associate()
    ensures { CompositionsAssociate }
{
    laws::compositions_associate();
}

/// Holds by the law of rebased changes.
pub fn rebases_converge()
    ensures { RebasesConverge }
{
    laws::rebases_converge();
}

/// Holds by the laws of moved indices.
pub fn indices_move()
    ensures compose { MovesCompose }
    ensures composed { MovesThroughComposed }
    ensures start { StartStays }
    ensures order { MovesKeepOrder }
{
    laws::indices_move();
}

/// Holds by the laws of replaced ranges and of inverses.
pub fn ranges_are_replaced()
    ensures replaces { ReplacesRange }
    ensures inverts { InvertsBack }
{
    laws::ranges_are_replaced();
    laws::inverses_lead_back();
}
