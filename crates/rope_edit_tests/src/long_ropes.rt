//! A long text inserted into one of 2^62 bytes. crates/rope/stdin has its other edits.
use rope_plain::failure::{Failure, expect_same};
use rope_plain::same;
use rope_plain::texts::{doubled, repeated};
use ropey::Rope;

/// The number of bytes of the text, and half of it.
const WHOLE: usize = 1 << 62;

const HALF: usize = 1 << 61;

fn expect_long_text_inserted(rope: &mut Rope, text: &str) -> Result<(), Failure> {
    rope.try_insert(HALF, text)?;
    let found = [
        rope.get_char(HALF - 1),
        rope.get_char(HALF),
        rope.get_char(HALF + 5_999),
        rope.get_char(HALF + 6_000),
    ];
    same!(rope.len_bytes(), WHOLE + 6_000);
    let expected = [Some('a'), Some('z'), Some('z'), Some('a')];
    expect_same("the characters found", &found, &expected)
}

#[test]
fn a_long_text_is_inserted_into_2_to_the_62_bytes(rt: HostRuntime) -> Result<(), Failure> {
    let text = repeated(rt.alloc(), "z", 6_000)?;
    let mut rope = doubled(rt.alloc(), "a", 62)?;
    expect_long_text_inserted(&mut rope, text.as_str())
}
