//! Ropes that are re-chunked after many edits have left their chunks short.
use crate::texts::chunk_count;
use rope_plain::compare::{expect_few_chunks, expect_plain_unicode, lens};
use rope_plain::failure::Failure;
use rope_plain::same;
use ropey::{Error, Rope};

fn type_at_the_front(rope: &mut Rope, count: usize) -> Result<(), Error> {
    for _ in 0..count {
        rope.insert_char(0, 'a')?;
    }
    rope.shrink_to_fit()
}

fn expect_typed(rope: &mut Rope) -> Result<(), Failure> {
    type_at_the_front(rope, 5_000)?;
    same!(lens(rope), [5_000, 5_000, 1, 5_000]);
    same!(chunk_count(rope), 6);
    expect_plain_unicode(rope, &['a'; 5_000])
}

fn expect_empty(rope: &mut Rope) -> Result<(), Failure> {
    rope.shrink_to_fit()?;
    expect_plain_unicode(rope, &[])?;
    expect_few_chunks(rope)
}

fn expect_empty_and_typed(rope: &mut Rope) -> Result<(), Failure> {
    expect_empty(rope)?;
    expect_typed(rope)
}

#[test]
fn a_rope_typed_at_its_front_shrinks_to_full_chunks(rt: HostRuntime) -> Result<(), Failure> {
    let mut rope = Rope::new(rt.alloc())?;
    expect_empty_and_typed(&mut rope)
}
