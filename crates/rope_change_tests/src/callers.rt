//! The callers in `rope_callers::changes`, on small texts.
use crate::makers::{replacing, rope_of};
use rope_callers::changes::{did_change, edit_at_carets, edit_with_bookmarks, undo};
use rope_changes::{ChangeSet, Edit, Side};
use rope_documents::{ContentChange, Range};
use rope_history::{History, Marks};
use rope_position::{Encoding, Position};
use rope_text::LineBreaks;
use ropey::Rope;
use std::alloc::Global;
use std::borrow::CowStr;
use std::process::Abort;

/// An edit at each of two carets, the first of which selects a character.
const EDITS: [Edit<'static>; 2] = [
    Edit {
        start: 0,
        end: 1,
        text: "é",
    },
    Edit {
        start: 5,
        end: 5,
        text: "é",
    },
];

#[test]
fn an_edit_is_made_at_each_caret(rt: HostRuntime) {
    let mut rope = rope_of(&rt, rt.alloc(), "a b c");
    let change = edit_at_carets(rt.alloc(), &mut rope, &EDITS).expect(&rt, "there is memory");
    assert!(rt; rope.eq_str("é b cé"));
    assert_eq!(rt; change.len_after(), 6);
}

fn expect_edited(rt: &impl Abort, rope: &mut Rope, bookmarks: &mut Marks, change: &ChangeSet) {
    assert!(rt; rope.len_chars() == bookmarks.len_chars());
    edit_with_bookmarks(rope, bookmarks, change).expect(rt, "there is memory");
    assert!(rt; rope.eq_str("three two"));
}

/// Fails unless a bookmark of the second word moves with it.
fn expect_word_moved(rt: &impl Abort, bookmarks: &mut Marks, rope: &mut Rope, change: &ChangeSet) {
    let word = bookmarks
        .add(4, 7, Side::After, Side::Before)
        .expect(rt, "there is memory");
    expect_edited(rt, rope, bookmarks, change);
    let moved = bookmarks.get(word).expect(rt, "there is such a mark");
    assert_eq!(rt; [moved.start, moved.end], [6, 9]);
}

#[test]
fn bookmarks_move_with_the_text(rt: HostRuntime) {
    let mut rope = rope_of(&rt, rt.alloc(), "one two");
    let mut bookmarks = Marks::new(rt.alloc(), 7);
    let change = replacing(&rt, rt.alloc(), 7, &[(0, 3, "three")]);
    expect_word_moved(&rt, &mut bookmarks, &mut rope, &change);
}

/// Fails unless this is whether a version was undone, and this the text then.
fn expect_undone(
    rt: &impl Abort,
    history: &mut History,
    rope: &mut Rope,
    (is_undone, text): (bool, &str),
) {
    let found = undo(history, rope).expect(rt, "there is memory");
    assert!(rt; found == is_undone);
    assert!(rt; rope.eq_str(text));
}

/// Fails unless a version is committed and undone.
fn expect_version_undone(rt: &impl Abort, alloc: Global, history: &mut History, rope: &mut Rope) {
    let change = replacing(rt, alloc, 3, &[(3, 3, " two")]);
    history.commit(rope, change).expect(rt, "there is memory");
    assert!(rt; rope.eq_str("one two"));
    expect_undone(rt, history, rope, (true, "one"));
    expect_undone(rt, history, rope, (false, "one"));
}

#[test]
fn a_version_is_undone(rt: HostRuntime) {
    let mut rope = rope_of(&rt, rt.alloc(), "one");
    let mut history = History::new(rt.alloc(), 3).expect(&rt, "there is memory");
    expect_version_undone(&rt, rt.alloc(), &mut history, &mut rope);
}

/// Fails unless a character before a CR LF is replaced as an editor says.
fn expect_followed(rt: &impl Abort, alloc: Global, document: &mut Rope) {
    let start = Position { line: 1, column: 2 };
    let end = Position { line: 1, column: 9 };
    let sent = ContentChange {
        range: Some(Range { start, end }),
        text: CowStr::Borrowed("c"),
    };
    did_change(alloc, document, &[sent], Encoding::Utf16).expect(rt, "there is memory");
    assert!(rt; document.eq_str("a\r\n😀c\r\n"));
}

#[test]
fn a_document_follows_its_editor(rt: HostRuntime) {
    let mut document = Rope::from_str_with(rt.alloc(), "a\r\n😀b\r\n", LineBreaks::CrLf).expect(
        &rt,
        "there is memory",
    );
    expect_followed(&rt, rt.alloc(), &mut document);
}
