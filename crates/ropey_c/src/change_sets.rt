//! Changes made of other changes: two in a row as one, and one carried over another of the same
//! text; and indices moved through changes.
ghost use Rattle.std.specs.Prelude.{◌≡◌, ◌≤◌, ◌↔◌, IsTrue};
ghost use Rattle.std.specs.List.{All};
ghost use Rattle.ropey_c.specs.ChangeSets.{ComposesTo, RebasesTo, MovesAt, MovesAllAt};
ghost use Rattle.ropey_c.specs.ChangeStatus.{given_side};

use crate::change_status::{given_side, status_of_change};
use crate::changes::keep;
use crate::changes_handle::ChangesHandle;
use crate::lent_changes::LentChanges;
use crate::macros::{held_changes, ok_or, some_or};
use crate::status::{CHAR_INDEX_OUT_OF_BOUNDS, OK, UNKNOWN_SIDE};
use std::alloc::Global;

/// Makes the changes that do what the changes and then `later` do, and frees those that `both`
/// held. Takes memory for the replacements of the result and for the texts that it inserts.
///
/// # Errors
///
/// `NO_CHANGES_HELD` if one of the two handles holds none, then `LENGTHS_DIFFER` if `later` is not
/// for the length of the text after the changes, then `OUT_OF_MEMORY`. A call that fails leaves
/// `both` as it was.
#[unsafe(no_mangle)]
pub extern "C" fn ropey_changes_compose(
    alloc: Global,
    changes: &LentChanges,
    later: &LentChanges,
    both: &mut ChangesHandle,
) -> u32
    ensures { ComposesTo changes.now.held later.now.held result both.old.held both.new.held }
{
    let held = held_changes!(changes);
    let made = ok_or!(held.compose(held_changes!(later)), status_of_change);
    keep(alloc, made, both)
}

/// Makes the changes as changes of the text after `over`, where both are changes of one text, and
/// frees those that `rebased` held. If both insert at one index, the text of the changes comes
/// first with the side `BEFORE`, and the text of `over` with `AFTER`. Takes memory for the
/// replacements of the result and for the texts that it inserts.
///
/// # Errors
///
/// `NO_CHANGES_HELD` if one of the two handles holds none, then `UNKNOWN_SIDE`, then
/// `LENGTHS_DIFFER` if the two are for different lengths, then `TOO_LONG` if the text after the
/// result would have more than `isize::MAX` characters, then `OUT_OF_MEMORY`. A call that fails
/// leaves `rebased` as it was.
#[unsafe(no_mangle)]
pub extern "C" fn ropey_changes_rebase(
    alloc: Global,
    changes: &LentChanges,
    over: &LentChanges,
    side: u32,
    rebased: &mut ChangesHandle,
) -> u32
    ensures { RebasesTo changes.now.held over.now.held (given_side side) result
        rebased.old.held rebased.new.held }
{
    let held = held_changes!(changes);
    let other = held_changes!(over);
    let side = some_or!(given_side(side), UNKNOWN_SIDE);
    let made = ok_or!(held.rebase(other, side), status_of_change);
    keep(alloc, made, rebased)
}

/// Writes to `moved` the index in the text after the changes of a character, or of the end, of the
/// text before them. If text is inserted at the index, `moved` is on the given side of that text.
/// An index inside a replaced range, past its start, goes to the end of the new text. Takes time
/// for the replacements up to the index.
///
/// # Errors
///
/// `NO_CHANGES_HELD`, then `UNKNOWN_SIDE`, then `CHAR_INDEX_OUT_OF_BOUNDS`. A call that fails
/// writes nothing.
#[unsafe(no_mangle)]
pub extern "C" fn ropey_changes_map(
    changes: &LentChanges,
    char_idx: usize,
    side: u32,
    moved: &mut usize,
) -> u32
    ensures { MovesAt changes.now.held (given_side side) char_idx result moved.old moved.new }
{
    let held = held_changes!(changes);
    let side = some_or!(given_side(side), UNKNOWN_SIDE);
    if char_idx > held.len_before() {
        return CHAR_INDEX_OUT_OF_BOUNDS;
    }
    *moved = held.map(char_idx, side);
    OK
}

// Returns whether each of the indices is at most `most`.
fn are_within(char_indices: &[usize], most: usize) -> bool
    ensures { IsTrue result ↔ All (λ i. i ≤ most) char_indices.now }
{
    for char_idx in char_indices {
        if *char_idx > most {
            return false;
        }
    }
    true
}

/// Moves each of the indices as `ropey_changes_map` does, in one pass over the replacements if the
/// indices ascend. An index below the one before it begins the pass again.
///
/// # Errors
///
/// `NO_CHANGES_HELD`, then `UNKNOWN_SIDE`, then `CHAR_INDEX_OUT_OF_BOUNDS` if one of the indices is
/// past the text before the changes. A call that fails moves none.
#[unsafe(no_mangle)]
pub extern "C" fn ropey_changes_map_sorted(
    changes: &LentChanges,
    char_indices: &mut [usize],
    side: u32,
) -> u32
    ensures { MovesAllAt changes.now.held (given_side side) result
        char_indices.old char_indices.new }
{
    let held = held_changes!(changes);
    let side = some_or!(given_side(side), UNKNOWN_SIDE);
    if !are_within(char_indices, held.len_before()) {
        return CHAR_INDEX_OUT_OF_BOUNDS;
    }
    held.map_sorted(char_indices, side);
    OK
}
