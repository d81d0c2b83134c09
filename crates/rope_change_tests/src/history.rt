//! Each public call of histories and marks once, against texts and numbers by hand.
use crate::makers::{replacing, rope_of};
use rope_changes::{ChangeError, ChangeSet, Side};
use rope_history::{History, Mark, Marks};
use ropey::Rope;
use std::alloc::Global;
use std::process::Abort;

fn history_of(rt: &impl Abort, alloc: Global, len: usize) -> History {
    History::new(alloc, len).expect(rt, "there is memory")
}

fn unchanged(rt: &impl Abort, alloc: Global, len: usize) -> ChangeSet {
    ChangeSet::new(alloc, len).expect(rt, "the text fits")
}

// A step from version to version, with the version and the text to which it leads.
#[derive(Clone, Copy)]
enum Step {
    // Replaces a range by a text, which gives the text after it.
    Commit((usize, usize), &'static str, &'static str),
    // Leaves this version, or none, for this text.
    Undo(Option<usize>, &'static str),
    // Reaches this version, or none, and this text.
    Redo(Option<usize>, &'static str),
    // Goes to a version of this text.
    GoTo(usize, &'static str),
    // Stays, where `redo` leads to this version.
    LeadsTo(Option<usize>),
}

fn commit(
    rt: &impl Abort,
    alloc: Global,
    history: &mut History,
    rope: &mut Rope,
    (start, end, text): (usize, usize, &str),
) {
    let change = replacing(rt, alloc, history.len_chars(), &[(start, end, text)]);
    history.commit(rope, change).expect(rt, "there is memory");
}

// Fails unless a version exists, and is then the current one.
fn go_to(rt: &impl Abort, history: &mut History, rope: &mut Rope, version: usize) {
    assert!(rt; version < history.len_versions());
    history.go_to(rope, version).expect(rt, "there is memory");
    assert_eq!(rt; history.current(), version);
}

// Fails unless this version is left.
fn undo(rt: &impl Abort, history: &mut History, rope: &mut Rope, version: Option<usize>) {
    let left = history.undo(rope).expect(rt, "there is memory");
    assert_eq!(rt; left, version);
}

// Fails unless this version is reached.
fn redo(rt: &impl Abort, history: &mut History, rope: &mut Rope, version: Option<usize>) {
    let reached = history.redo(rope).expect(rt, "there is memory");
    assert_eq!(rt; reached, version);
}

// Takes a step, and returns the text to which it is to lead, if it is told.
fn take(
    rt: &impl Abort,
    alloc: Global,
    history: &mut History,
    rope: &mut Rope,
    step: Step,
) -> Option<&'static str> {
    match step {
        Step::Commit((start, end), text, after) => {
            commit(rt, alloc, history, rope, (start, end, text));
            Some(after)
        }
        Step::Undo(version, text) => {
            undo(rt, history, rope, version);
            Some(text)
        }
        Step::Redo(version, text) => {
            redo(rt, history, rope, version);
            Some(text)
        }
        Step::GoTo(version, text) => {
            go_to(rt, history, rope, version);
            Some(text)
        }
        Step::LeadsTo(version) => {
            assert_eq!(rt; history.redo_version(), version);
            None
        }
    }
}

// Takes steps, and fails unless each leads to its text.
fn take_all(
    rt: &impl Abort,
    alloc: Global,
    history: &mut History,
    rope: &mut Rope,
    steps: &[Step],
) {
    for step in steps {
        if let Some(text) = take(rt, alloc, history, rope, *step) {
            assert!(rt; rope.eq_str(text));
        }
    }
}

// Fails unless the current version, the length of its text and the number of versions are these.
fn expect_counts(rt: &impl Abort, history: &History, counts: [usize; 3]) {
    let found = [
        history.current(),
        history.len_chars(),
        history.len_versions(),
    ];
    assert_eq!(rt; found, counts);
}

const COMMITS: [Step; 2] = [
    Step::Commit((3, 5), " ", "one two"),
    Step::Commit((0, 3), "three", "three two"),
];

const BACK_AND_FORTH: [Step; 6] = [
    Step::Undo(Some(2), "one two"),
    Step::Undo(Some(1), "one\r\ntwo"),
    Step::Undo(None, "one\r\ntwo"),
    Step::Redo(Some(1), "one two"),
    Step::Redo(Some(2), "three two"),
    Step::Redo(None, "three two"),
];

#[test]
fn versions_are_committed_undone_and_redone(rt: HostRuntime) {
    let mut rope = rope_of(&rt, rt.alloc(), "one\r\ntwo");
    let mut history = history_of(&rt, rt.alloc(), 8);
    take_all(&rt, rt.alloc(), &mut history, &mut rope, &COMMITS);
    expect_counts(&rt, &history, [2, 9, 3]);
    take_all(&rt, rt.alloc(), &mut history, &mut rope, &BACK_AND_FORTH);
}

// Returns where a change of a text of one character moves its end.
fn moved_end(rt: &impl Abort, change: &ChangeSet) -> usize {
    assert_eq!(rt; change.len_before(), 1);
    change.map(1, Side::After)
}

// Fails unless three versions, two of them of one parent, have their parents and changes.
fn expect_branches(rt: &impl Abort, history: &History) {
    assert_eq!(rt; history.len_versions(), 3);
    assert_eq!(rt; [history.parent(2), history.parent(0)], [Some(0), None]);
    let moved = moved_end(rt, history.change(1));
    assert_eq!(rt; [moved, history.inverse(1).len_after()], [2, 1]);
}

const BRANCHES: [Step; 7] = [
    Step::Commit((1, 1), "b", "ab"),
    Step::Undo(Some(1), "a"),
    Step::LeadsTo(Some(1)),
    Step::Commit((1, 1), "c", "ac"),
    Step::LeadsTo(None),
    Step::Undo(Some(2), "a"),
    Step::Redo(Some(2), "ac"),
];

#[test]
fn branches_are_kept(rt: HostRuntime) {
    let mut rope = rope_of(&rt, rt.alloc(), "a");
    let mut history = history_of(&rt, rt.alloc(), 1);
    take_all(&rt, rt.alloc(), &mut history, &mut rope, &BRANCHES);
    expect_branches(&rt, &history);
}

const JUMPS: [Step; 12] = [
    Step::Commit((1, 1), "b", "ab"),
    Step::Commit((0, 1), "c", "cb"),
    Step::GoTo(0, "a"),
    Step::Commit((0, 0), "d", "da"),
    Step::GoTo(2, "cb"),
    Step::Undo(Some(2), "ab"),
    Step::Undo(Some(1), "a"),
    Step::Redo(Some(1), "ab"),
    Step::Redo(Some(2), "cb"),
    Step::GoTo(3, "da"),
    Step::Undo(Some(3), "a"),
    Step::LeadsTo(Some(3)),
];

#[test]
fn every_version_can_be_reached(rt: HostRuntime) {
    let mut rope = rope_of(&rt, rt.alloc(), "a");
    let mut history = history_of(&rt, rt.alloc(), 1);
    take_all(&rt, rt.alloc(), &mut history, &mut rope, &JUMPS);
    assert_eq!(rt; history.len_versions(), 4);
}

// Fails unless a history of three characters refuses a rope of four.
fn expect_rope_refused(rt: &impl Abort, alloc: Global, history: &mut History, rope: &mut Rope) {
    let differs = ChangeError::LengthDiffers(3, 4);
    let moves = [history.undo(rope), history.redo(rope)];
    assert_eq!(rt; moves, [Err(differs), Err(differs)]);
    let committed = history.commit(rope, unchanged(rt, alloc, 4));
    assert_eq!(rt; committed, Err(differs));
}

// Fails unless a history of three characters refuses a change of four.
fn expect_change_refused(rt: &impl Abort, alloc: Global, history: &mut History, rope: &mut Rope) {
    let committed = history.commit(rope, unchanged(rt, alloc, 4));
    assert_eq!(rt; committed, Err(ChangeError::LengthDiffers(4, 3)));
    assert!(rt; rope.eq_str("one") && history.len_versions() == 1);
}

#[test]
fn lengths_that_differ_are_refused(rt: HostRuntime) {
    let mut history = history_of(&rt, rt.alloc(), 3);
    let mut other = rope_of(&rt, rt.alloc(), "four");
    expect_rope_refused(&rt, rt.alloc(), &mut history, &mut other);
    let mut rope = rope_of(&rt, rt.alloc(), "one");
    expect_change_refused(&rt, rt.alloc(), &mut history, &mut rope);
}

// Returns the ends of a mark.
fn ends_of(rt: &impl Abort, marks: &Marks, id: usize) -> [usize; 2] {
    let mark = marks.get(id).expect(rt, "there is such a mark");
    [mark.start, mark.end]
}

// Returns the number of a mark, if there is one.
fn id_of(mark: Option<Mark>) -> Option<usize> {
    match mark {
        Some(mark) => Some(mark.id),
        None => None,
    }
}

// Ranges of marks with the sides of their ends, in the order of their numbers.
const RANGES: [(usize, usize, Side, Side); 3] = [
    (4, 7, Side::After, Side::Before),
    (3, 3, Side::After, Side::Before),
    (0, 7, Side::Before, Side::After),
];

fn add_marks(rt: &impl Abort, marks: &mut Marks) {
    assert!(rt; marks.is_empty());
    for (id, (start, end, start_side, end_side)) in RANGES.iter().enumerate() {
        assert_eq!(rt; marks.add(*start, *end, *start_side, *end_side), Ok(id));
    }
}

// Fails unless the marks at a position are found in order.
fn expect_touching(rt: &impl Abort, marks: &Marks) {
    let mut touching = marks.within(3, 3);
    for id in &[Some(2), Some(1), None] {
        assert_eq!(rt; id_of(touching.next()), *id);
    }
}

// Fails unless the ends of the marks move with a change.
fn expect_moved(rt: &impl Abort, marks: &mut Marks, change: &ChangeSet) {
    marks.apply(change).expect(rt, "the lengths agree");
    assert_eq!(rt; [marks.len(), marks.len_chars()], [3, 9]);
    let ends = [ends_of(rt, marks, 0), ends_of(rt, marks, 1)];
    assert_eq!(rt; ends, [[6, 9], [6, 6]]);
}

// Fails unless a mark can be removed once.
fn expect_removed(rt: &impl Abort, marks: &mut Marks) {
    let removed = [
        id_of(marks.remove(1)),
        id_of(marks.get(1)),
        id_of(marks.remove(1)),
    ];
    assert_eq!(rt; removed, [Some(1), None, None]);
}

#[test]
fn marks_move_with_changes(rt: HostRuntime) {
    let mut marks = Marks::new(rt.alloc(), 7);
    add_marks(&rt, &mut marks);
    expect_touching(&rt, &marks);
    let change = replacing(&rt, rt.alloc(), 7, &[(3, 4, " - ")]);
    expect_moved(&rt, &mut marks, &change);
    expect_removed(&rt, &mut marks);
}

fn expect_ranges_refused(rt: &impl Abort, marks: &mut Marks) {
    let refused = [
        marks.add(5, 4, Side::Before, Side::After),
        marks.add(4, 8, Side::Before, Side::After),
    ];
    assert_eq!(rt;
        refused,
        [
            Err(ChangeError::RangeInvalid(5, 4)),
            Err(ChangeError::RangeOutOfBounds(8, 7)),
        ]
    );
}

#[test]
fn marks_outside_the_text_are_refused(rt: HostRuntime) {
    let mut marks = Marks::new(rt.alloc(), 7);
    expect_ranges_refused(&rt, &mut marks);
    let change = unchanged(&rt, rt.alloc(), 8);
    assert_eq!(rt; marks.apply(&change), Err(ChangeError::LengthDiffers(8, 7)));
}
