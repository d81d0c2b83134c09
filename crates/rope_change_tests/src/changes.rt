//! Each public call of changes once, against numbers by hand.
use crate::makers::{apply, replacing, rope_of};
use rope_changes::{ChangeError, ChangeSet, Edit, EditRange, Side};
use ropey::Rope;
use std::alloc::Global;
use std::process::Abort;

// Fails unless a change, applied to a rope of its length, gives this text.
fn expect_applied(rt: &impl Abort, change: &ChangeSet, rope: &mut Rope, text: &str) {
    apply(rt, change, rope);
    assert!(rt; rope.eq_str(text));
}

// Moves an index of the text before a change.
fn moved(rt: &impl Abort, change: &ChangeSet, index: usize, side: Side) -> usize {
    assert!(rt; index <= change.len_before());
    change.map(index, side)
}

// Fails unless these indices are moved to those beside them.
fn expect_moved(rt: &impl Abort, change: &ChangeSet, rows: &[(usize, Side, usize)]) {
    for (index, side, place) in rows {
        assert_eq!(rt; moved(rt, change, *index, *side), *place);
    }
}

// The number of replacements that are left, and of the next one the start and the end in the text
// before and in the text after, and its text.
type Row<'a> = (usize, [usize; 4], &'a str);

// Fails unless a replacement has these ends and this text.
fn expect_edit(rt: &impl Abort, edit: Option<EditRange<'_>>, ends: [usize; 4], text: &str) {
    let edit = edit.expect(rt, "a replacement is left");
    let found = [edit.start, edit.end, edit.new_start, edit.new_end];
    assert_eq!(rt; found, ends);
    assert!(rt; edit.text == text);
}

// Fails unless a change has these replacements.
fn expect_edits(rt: &impl Abort, change: &ChangeSet, rows: &[Row<'_>]) {
    let mut edits = change.edits();
    for (left, ends, text) in rows {
        assert!(rt; edits.len() == *left);
        expect_edit(rt, edits.next(), *ends, text);
    }
    assert!(rt; edits.len() == 0 && edits.next().is_none());
}

// Fails unless a change gives this text, and its inverse the one before it.
fn expect_undone(rt: &impl Abort, change: &ChangeSet, rope: &mut Rope, before: &str, after: &str) {
    let back = change.invert(rope).expect(rt, "there is memory");
    expect_applied(rt, change, rope, after);
    expect_applied(rt, &back, rope, before);
}

// Indices, the side to which each moves, and those to which they are moved.
const MOVED: [(usize, Side, usize); 5] = [
    (0, Side::Before, 0),
    (1, Side::Before, 1),
    (3, Side::Before, 1),
    (4, Side::Before, 2),
    (4, Side::After, 7),
];

// Fails unless a change of seven characters has these lengths, and moves indices.
fn expect_mapped(rt: &impl Abort, change: &ChangeSet) {
    assert!(rt; !change.is_empty());
    assert_eq!(rt; [change.len_before(), change.len_after()], [7, 7]);
    expect_moved(rt, change, &MOVED);
}

#[test]
fn a_change_is_built_mapped_applied_and_undone(rt: HostRuntime) {
    let ranges = [(0, 3, "1"), (4, 4, "and "), (4, 7, "2")];
    let change = replacing(&rt, rt.alloc(), 7, &ranges);
    expect_mapped(&rt, &change);
    let mut rope = rope_of(&rt, rt.alloc(), "one two");
    expect_undone(&rt, &change, &mut rope, "one two", "1 and 2");
}

#[test]
fn edits_have_their_ranges_in_both_texts(rt: HostRuntime) {
    let change = replacing(&rt, rt.alloc(), 7, &[(0, 3, "1"), (4, 4, "and ")]);
    let rows = [(2, [0, 3, 0, 1], "1"), (1, [4, 4, 2, 6], "and ")];
    expect_edits(&rt, &change, &rows);
}

// Ranges that a change of seven characters refuses after one that ends at 5, with their errors.
const REFUSED: [(usize, usize, ChangeError); 3] = [
    (6, 5, ChangeError::RangeInvalid(6, 5)),
    (6, 8, ChangeError::RangeOutOfBounds(8, 7)),
    (4, 6, ChangeError::OutOfOrder(4, 5)),
];

fn expect_ranges_refused(rt: &impl Abort, change: &mut ChangeSet) {
    for (start, end, error) in &REFUSED {
        assert!(rt; change.replace(*start, *end, "") == Err(*error));
    }
}

// Fails unless a change refuses a rope of another length, and leaves its text.
fn expect_rope_refused(rt: &impl Abort, change: &ChangeSet, rope: &mut Rope, error: ChangeError) {
    assert!(rt; change.apply(rope) == Err(error));
    assert!(rt; rope.eq_str("one"));
}

#[test]
fn errors_name_both_numbers(rt: HostRuntime) {
    let mut change = replacing(&rt, rt.alloc(), 7, &[(2, 5, "x")]);
    expect_ranges_refused(&rt, &mut change);
    let mut rope = rope_of(&rt, rt.alloc(), "one");
    let error = ChangeError::LengthDiffers(7, 3);
    expect_rope_refused(&rt, &change, &mut rope, error);
}

const FIRST: Edit<'static> = Edit {
    start: 0,
    end: 3,
    text: "1",
};

const SECOND: Edit<'static> = Edit {
    start: 4,
    end: 4,
    text: "and ",
};

// Fails unless ascending and descending indices of a text of seven characters are moved.
fn expect_sorted_moved(rt: &impl Abort, change: &ChangeSet) {
    assert!(rt; change.len_before() == 7);
    let mut ascending = [0, 2, 4, 4, 7];
    change.map_sorted(&mut ascending, Side::After);
    assert!(rt; ascending == [1, 1, 6, 6, 9]);
    let mut descending = [7, 4, 0];
    change.map_sorted(&mut descending, Side::Before);
    assert!(rt; descending == [9, 2, 0]);
}

#[test]
fn a_change_is_built_from_edits_and_moves_sorted_indices(rt: HostRuntime) {
    let change = ChangeSet::of_edits(rt.alloc(), 7, &[FIRST, SECOND]).expect(&rt, "they fit");
    assert!(rt; change.len_after() == 9);
    expect_sorted_moved(&rt, &change);
}

#[test]
fn edits_out_of_order_are_refused(rt: HostRuntime) {
    let wrong = ChangeSet::of_edits(rt.alloc(), 6, &[SECOND, FIRST]);
    assert!(rt; wrong.err() == Some(ChangeError::OutOfOrder(0, 4)));
}

// The replacements of two changes in one.
const COMPOSED: [Row<'static>; 2] = [(2, [0, 3, 0, 2], "1 "), (1, [4, 7, 3, 5], "2!")];

// Fails unless two changes, the second of five characters, do together what each does in turn.
fn expect_composed(rt: &impl Abort, first: &ChangeSet, later: &ChangeSet, rope: &mut Rope) {
    let both = first.compose(later).expect(rt, "there is memory");
    expect_edits(rt, &both, &COMPOSED);
    expect_applied(rt, &both, rope, "1  2!");
}

// Fails unless two changes can't be composed.
fn expect_not_composed(rt: &impl Abort, first: &ChangeSet, later: &ChangeSet, error: ChangeError) {
    let wrong = first.compose(later);
    assert!(rt; wrong.err() == Some(error));
}

#[test]
fn composed_changes_do_what_both_do(rt: HostRuntime) {
    let first = replacing(&rt, rt.alloc(), 7, &[(0, 3, "1, "), (4, 7, "2")]);
    let later = replacing(&rt, rt.alloc(), 5, &[(1, 2, ""), (5, 5, "!")]);
    let mut rope = rope_of(&rt, rt.alloc(), "one two");
    expect_composed(&rt, &first, &later, &mut rope);
    let error = ChangeError::LengthDiffers(7, 5);
    expect_not_composed(&rt, &later, &first, error);
}

// Fails unless a change, carried over another one, gives this text after that one.
fn expect_rebased(
    rt: &impl Abort,
    change: &ChangeSet,
    (over, side): (&ChangeSet, Side),
    rope: &mut Rope,
    text: &str,
) {
    let rebased = change.rebase(over, side).expect(rt, "there is memory");
    expect_applied(rt, &rebased, rope, text);
}

fn expect_converging(rt: &impl Abort, alloc: Global, one: &ChangeSet, other: &ChangeSet) {
    let mut left = rope_of(rt, alloc, "abcd");
    expect_applied(rt, one, &mut left, "axb");
    expect_rebased(rt, other, (one, Side::After), &mut left, "axybz");
    let mut right = rope_of(rt, alloc, "abcd");
    expect_applied(rt, other, &mut right, "aybczd");
    expect_rebased(rt, one, (other, Side::Before), &mut right, "axybz");
}

#[test]
fn rebased_changes_lead_to_one_text(rt: HostRuntime) {
    let one = replacing(&rt, rt.alloc(), 4, &[(1, 1, "x"), (2, 4, "")]);
    let other = replacing(&rt, rt.alloc(), 4, &[(1, 1, "y"), (3, 3, "z")]);
    expect_converging(&rt, rt.alloc(), &one, &other);
}

// Fails unless a change can't be carried over one of another length.
fn expect_not_rebased(rt: &impl Abort, change: &ChangeSet, over: &ChangeSet, error: ChangeError) {
    let wrong = change.rebase(over, Side::Before);
    assert!(rt; wrong.err() == Some(error));
}

#[test]
fn a_change_is_not_rebased_over_one_of_another_length(rt: HostRuntime) {
    let change = replacing(&rt, rt.alloc(), 4, &[(1, 1, "x"), (2, 4, "")]);
    let short = replacing(&rt, rt.alloc(), 3, &[]);
    expect_not_rebased(&rt, &change, &short, ChangeError::LengthDiffers(4, 3));
}

#[test]
fn errors_print_both_numbers(rt: HostRuntime) {
    let text = format!(in rt.alloc(); "{}", ChangeError::LengthDiffers(7, 3)).expect(
        &rt,
        "there is memory",
    );
    assert_eq!(rt;
        text.as_str(),
        "Text length differs: char length 3, the change is for 7"
    );
}
