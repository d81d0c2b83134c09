//! The callers that make or change a text.
use rope_callers::copies::copy_without;
use rope_callers::edits::titled;
use rope_callers::first_edit::with_flowers;
use rope_callers::history::History;
use rope_callers::places::{insert_at_byte, line_start_of, put_at_end, remove_line};
use rope_callers::positions::insert_at_position;
use rope_callers::search::insert_before_char;
use rope_plain::failure::Failure;
use rope_plain::{holds, same};
use rope_position::Position;
use ropey::{Error, Rope};
use std::alloc::Global;

fn expect_text(rope: &Rope, text: &str) -> Result<(), Failure> {
    holds!(rope.eq_str(text));
    Ok(())
}

#[test]
fn a_title_stands_before_its_text(rt: HostRuntime) -> Result<(), Failure> {
    let rope = titled(rt.alloc(), "one\ntwo\n", "list\n")?;
    expect_text(&rope, "list\none\ntwo\n")
}

#[test]
fn a_line_is_replaced_by_another(rt: HostRuntime) -> Result<(), Failure> {
    let rope = with_flowers(rt.alloc())?;
    expect_text(&rope, "one\nflowers\nthree\n")
}

fn expect_edits_inside(rope: &mut Rope) -> Result<(), Failure> {
    put_at_end(rope, "c\nd")?;
    holds!(rope.eq_str("ä\nb\nc\nd"));
    holds!(1 <= rope.len_bytes());
    insert_at_byte(rope, 1, "x")?;
    holds!(rope.eq_str("xä\nb\nc\nd"));
    Ok(())
}

fn expect_lines_removed(rope: &mut Rope) -> Result<(), Failure> {
    holds!(6 <= rope.len_chars());
    same!(line_start_of(rope, 6), 5);
    same!(remove_line(rope, 1), Ok(true));
    holds!(rope.eq_str("xä\nc\nd"));
    same!(remove_line(rope, 3), Ok(false));
    Ok(())
}

fn expect_edits_and_removals(rope: &mut Rope) -> Result<(), Failure> {
    expect_edits_inside(rope)?;
    expect_lines_removed(rope)
}

#[test]
fn edits_are_made_at_indices_inside_the_text(rt: HostRuntime) -> Result<(), Failure> {
    let mut rope = Rope::from_str(rt.alloc(), "ä\nb\n")?;
    expect_edits_and_removals(&mut rope)
}

fn expect_a_copy(rope: &Rope) -> Result<(), Failure> {
    holds!(rope.len_chars() == 4);
    let copy = copy_without(rope, 1, 3)?;
    let are_kept = copy.eq_str("ad") && rope.eq_str("abcd");
    holds!(are_kept);
    Ok(())
}

#[test]
fn a_copy_lacks_the_part_and_the_rope_keeps_it(rt: HostRuntime) -> Result<(), Failure> {
    let rope = Rope::from_str(rt.alloc(), "abcd")?;
    expect_a_copy(&rope)
}

fn expect_two_inserts(history: &mut History) -> Result<(), Failure> {
    history.insert(0, "a")?;
    holds!(history.text.len_chars() == 2);
    history.insert(2, "c")?;
    holds!(history.text.eq_str("abc"));
    Ok(())
}

fn expect_all_undone(history: &mut History) -> Result<(), Failure> {
    holds!(history.undo());
    holds!(history.text.eq_str("ab"));
    holds!(history.undo());
    holds!(history.text.eq_str("b"));
    holds!(!history.undo());
    holds!(history.text.eq_str("b"));
    Ok(())
}

/// Fails unless the edits of a text are undone.
fn expect_undone(alloc: Global) -> Result<(), Failure> {
    let text = Rope::from_str(alloc, "b")?;
    let past = Vec::new(alloc);
    let mut history = History { text, past };
    expect_two_inserts(&mut history)?;
    expect_all_undone(&mut history)
}

#[test]
fn edits_are_undone_the_last_one_first(rt: HostRuntime) -> Result<(), Failure> {
    expect_undone(rt.alloc())
}

fn expect_inserts_before(rope: &mut Rope) -> Result<(), Failure> {
    same!(insert_before_char(rope, '=', " "), Ok(Some(1)));
    same!(insert_before_char(rope, 'x', " "), Ok(None));
    holds!(rope.eq_str("ä =b=c"));
    Ok(())
}

fn expect_inserts_at_positions(rope: &mut Rope) -> Result<(), Failure> {
    let past = Position { line: 2, column: 0 };
    insert_at_position(rope, Position { line: 1, column: 2 }, "x")?;
    holds!(rope.eq_str("a\n𝔸xb"));
    same!(
        insert_at_position(rope, past, "x"),
        Err(Error::LineIndexOutOfBounds(2, 2))
    );
    Ok(())
}

#[test]
fn edits_are_made_at_characters_and_positions_found(rt: HostRuntime) -> Result<(), Failure> {
    let mut sums = Rope::from_str(rt.alloc(), "ä=b=c")?;
    expect_inserts_before(&mut sums)?;
    let mut lines = Rope::from_str(rt.alloc(), "a\n𝔸b")?;
    expect_inserts_at_positions(&mut lines)
}
