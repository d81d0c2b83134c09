//! Characters removed from one leaf.
use rope_plain::failure::{Failure, expect_same};
use rope_plain::same;
use rope_text::LineBreaks;
use rope_tree::build::build;
use rope_tree::{Editor, Made, Maker, Node, remove_at};
use std::alloc::Global;
use std::process::Abort;

/// Removes characters that exist.
fn remove(editor: &mut Editor, root: &mut Node, start: usize, end: usize) -> Made<bool> {
    if start < end && end <= root.info().chars {
        return remove_at(editor, root, start, end);
    }
    Ok(false)
}

/// Returns a tree of a text.
fn tree_of(rt: &impl Abort, alloc: Global, text: &str, breaks: LineBreaks) -> Node {
    build(&mut Maker::new(alloc), text, breaks).expect(rt, "there is memory")
}

/// Returns a tree of a thousand lines, in 8,000 characters.
fn tree_of_lines(rt: &impl Abort, alloc: Global, breaks: LineBreaks) -> Node {
    let text = "Hello!\r\n"
        .repeat(alloc, 1000)
        .expect(rt, "there is memory");
    tree_of(rt, alloc, text.as_str(), breaks)
}

fn expect_removed_in_place(alloc: Global, root: &mut Node) -> Result<(), Failure> {
    let mut editor = Editor::new(alloc);
    same!(remove(&mut editor, root, 4000, 4008), Ok(true));
    same!(editor.maker.made, 0);
    let counts = [root.info().bytes, root.info().break_count];
    expect_same("bytes and breaks", &counts, &[7992, 999])
}

fn expect_copied(alloc: Global, root: &mut Node, other: &Node) -> Result<(), Failure> {
    let mut editor = Editor::new(alloc);
    same!(remove(&mut editor, root, 4003, 4005), Ok(true));
    same!(editor.maker.made, 2);
    let lens = [root.info().chars, other.info().chars];
    expect_same("the lengths", &lens, &[7990, 7992])
}

fn expect_removed_by_copies(
    rt: &impl Abort,
    alloc: Global,
    root: &mut Node,
) -> Result<(), Failure> {
    let other = root.share().expect(rt, "there is memory");
    expect_copied(alloc, root, &other)
}

fn expect_removed(rt: &impl Abort, alloc: Global, root: &mut Node) -> Result<(), Failure> {
    expect_removed_in_place(alloc, root)?;
    expect_removed_by_copies(rt, alloc, root)
}

#[test]
fn characters_are_removed_in_place_or_from_copies(rt: HostRuntime) -> Result<(), Failure> {
    let mut root = tree_of_lines(&rt, rt.alloc(), LineBreaks::CrLf);
    expect_removed(&rt, rt.alloc(), &mut root)
}

fn expect_two_leaves_kept(alloc: Global, root: &mut Node) -> Result<(), Failure> {
    let mut editor = Editor::new(alloc);
    same!(remove(&mut editor, root, 0, 2000), Ok(false));
    expect_same("root.info().chars", &root.info().chars, &8000)
}

fn expect_whole_leaf_kept(alloc: Global, leaf: &mut Node) -> Result<(), Failure> {
    let mut editor = Editor::new(alloc);
    let removed = [
        remove(&mut editor, leaf, 0, 6),
        remove(&mut editor, leaf, 1, 6),
    ];
    same!(removed, [Ok(false), Ok(true)]);
    expect_same("leaf.info().bytes", &leaf.info().bytes, &1)
}

// Leaves of 984 bytes: at a leaf's ends no LF may come first and no CR last; inside they may meet.
fn expect_pairs_kept_at_ends(alloc: Global, root: &mut Node) -> Result<(), Failure> {
    let mut editor = Editor::new(alloc);
    let removed = [
        remove(&mut editor, root, 983, 984),
        remove(&mut editor, root, 984, 991),
        remove(&mut editor, root, 982, 984),
    ];
    same!(removed, [Ok(false), Ok(false), Ok(true)]);
    same!(root.info().break_count, 999);
    same!(remove(&mut editor, root, 7, 15), Ok(true));
    let counts = [root.info().break_count, root.info().chars];
    expect_same("breaks and characters", &counts, &[998, 7990])
}

#[test]
fn characters_of_two_leaves_are_kept(rt: HostRuntime) -> Result<(), Failure> {
    let mut root = tree_of_lines(&rt, rt.alloc(), LineBreaks::CrLf);
    expect_two_leaves_kept(rt.alloc(), &mut root)
}

#[test]
fn a_leaf_keeps_a_character(rt: HostRuntime) -> Result<(), Failure> {
    let mut leaf = tree_of(&rt, rt.alloc(), "Hello!", LineBreaks::Lf);
    expect_whole_leaf_kept(rt.alloc(), &mut leaf)
}

#[test]
fn pairs_are_kept_at_the_ends_of_a_leaf(rt: HostRuntime) -> Result<(), Failure> {
    let mut root = tree_of_lines(&rt, rt.alloc(), LineBreaks::Unicode);
    expect_pairs_kept_at_ends(rt.alloc(), &mut root)
}
