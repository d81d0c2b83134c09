//! The numbers of nodes and levels of a tree built of a whole text.
use rope_plain::failure::{Failure, expect_same};
use rope_text::LineBreaks;
use rope_tree::Maker;
use rope_tree::build::build;
use std::alloc::{AllocError, Global};

/// Returns the number of nodes made for a tree of the text, and its height, bytes, characters and
/// line breaks.
fn counts(alloc: Global, text: &str, breaks: LineBreaks) -> Result<(u64, [usize; 4]), AllocError> {
    let mut maker = Maker::new(alloc);
    let node = build(&mut maker, text, breaks)?;
    let info = node.info();
    Ok((
        maker.made,
        [node.height(), info.bytes, info.chars, info.break_count],
    ))
}

/// Returns the counts of a tree of `lines` lines.
fn counts_of_lines(alloc: Global, lines: usize) -> Result<(u64, [usize; 4]), AllocError> {
    let text = "Hello!\r\n".repeat(alloc, lines)?;
    counts(alloc, text.as_str(), LineBreaks::CrLf)
}

#[test]
fn a_tree_gets_a_level_past_24_leaves_and_the_empty_text_a_leaf(
    rt: HostRuntime,
) -> Result<(), Failure> {
    let found = [
        counts_of_lines(rt.alloc(), 2952),
        counts_of_lines(rt.alloc(), 2953),
        counts(rt.alloc(), "", LineBreaks::Unicode),
    ];
    let expected = [
        Ok((25, [1, 23_616, 23_616, 2952])),
        Ok((28, [2, 23_624, 23_624, 2953])),
        Ok((1, [0, 0, 0, 0])),
    ];
    expect_same("the counts", &found, &expected)
}
