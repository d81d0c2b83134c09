//! Ropes that a builder makes of pieces, against rows worked by hand and plain lists of characters.
use crate::rows::at_round;
use rope_plain::compare::{SETS, expect_few_chunks, expect_plain, lens};
use rope_plain::failure::{Failure, expect_same, within};
use rope_plain::numbers::Numbers;
use rope_plain::same;
use rope_plain::texts::random_text;
use ropey::{LineBreaks, Rope, RopeBuilder};
use std::alloc::Global;
use std::process::Abort;

/// A builder, and the list of characters passed to it.
#[derive(Drop)]
struct Pair {
    builder: RopeBuilder,
    plain: Vec<char>,
    breaks: LineBreaks,
}

impl Pair {
    fn new(rt: &impl Abort, alloc: Global, breaks: LineBreaks) -> Pair {
        let builder = RopeBuilder::new_with(alloc, breaks).expect(rt, "there is memory");
        Pair {
            builder,
            plain: Vec::new(alloc),
            breaks,
        }
    }

    /// Passes a piece to both.
    fn append(&mut self, rt: &impl Abort, text: &str) {
        for c in text.chars() {
            self.plain.push(c).expect(rt, "there is memory");
        }
        self.builder.append(text).expect(rt, "there is memory");
    }

    /// Fails unless the rope has the text in few chunks.
    fn expect_built(self, rt: &impl Abort) -> Result<(), Failure> {
        let rope = self.builder.finish().expect(rt, "there is memory");
        expect_plain_in_few_chunks(&rope, &self.plain, self.breaks)
    }
}

fn expect_plain_in_few_chunks(
    rope: &Rope,
    plain: &[char],
    breaks: LineBreaks,
) -> Result<(), Failure> {
    expect_plain(rope, plain, breaks)?;
    expect_few_chunks(rope)
}

/// Pieces that split each CR LF, or are between two.
const PIECES: [&str; 14] = [
    "Hello there!  How're you doing?\r",
    "\nIt's a fine ",
    "d",
    "a",
    "y,",
    " ",
    "isn't it?",
    "\r",
    "\nAren't you ",
    "glad we're alive?\r",
    "\n",
    "こんにち",
    "は、みんなさ",
    "ん！",
];

const WHOLE: &str =
    "Hello there!  How're you doing?\r\nIt's a fine day, isn't it?\r\nAren't you glad we're alive?\r\nこんにちは、みんなさん！";

fn append_all(builder: &mut RopeBuilder) -> ropey::Result<()> {
    for piece in &PIECES {
        builder.append(piece)?;
    }
    Ok(())
}

/// Fails unless a rope has these lengths, and begins with this chunk.
fn expect_lens(rope: &Rope, expected: [usize; 4], chunk: Option<&str>) -> Result<(), Failure> {
    same!(lens(rope), expected);
    expect_same("the first chunk", &rope.chunks().next(), &chunk)
}

#[test]
fn a_builder_joins_pieces(rt: HostRuntime) -> Result<(), Failure> {
    let mut builder = RopeBuilder::new(rt.alloc()).expect(&rt, "there is memory");
    append_all(&mut builder).expect(&rt, "there is memory");
    let rope = builder.finish().expect(&rt, "there is memory");
    expect_lens(&rope, [127, 103, 4, 103], Some(WHOLE))
}

#[test]
fn a_builder_ends_empty_without_pieces(rt: HostRuntime) -> Result<(), Failure> {
    let builder = RopeBuilder::new(rt.alloc()).expect(&rt, "there is memory");
    let rope = builder.finish().expect(&rt, "there is memory");
    expect_lens(&rope, [0, 0, 1, 0], None)
}

/// The maximum lengths of a piece, in bytes.
const MOST: [usize; 6] = [3, 12, 100, 990, 2_000, 9_000];

fn append_random_piece(
    rt: &impl Abort,
    alloc: Global,
    pair: &mut Pair,
    numbers: &mut Numbers,
    most: usize,
) {
    let piece = random_text(alloc, numbers, most).expect(rt, "there is memory");
    pair.append(rt, piece.as_str());
}

/// Appends many pieces, most of them short.
fn append_random_pieces(rt: &impl Abort, alloc: Global, pair: &mut Pair, numbers: &mut Numbers) {
    let kinds = numbers.up_to(5);
    for _ in 0..numbers.up_to(60) {
        let most = MOST[numbers.up_to(kinds) % 6];
        append_random_piece(rt, alloc, pair, numbers, most);
    }
}

/// Fails unless a rope of many pieces is right.
fn expect_built_at_random(
    rt: &impl Abort,
    alloc: Global,
    numbers: &mut Numbers,
    breaks: LineBreaks,
) -> Result<(), Failure> {
    let mut pair = Pair::new(rt, alloc, breaks);
    append_random_pieces(rt, alloc, &mut pair, numbers);
    pair.expect_built(rt)
}

/// The start of the random sequence.
const SEED: u64 = 0x9E37_79B9_7F4A_7C15;

#[test]
fn a_builder_makes_the_text_of_random_pieces(rt: HostRuntime) -> Result<(), Failure> {
    let mut numbers = Numbers::new(SEED);
    for turn in 0..300usize {
        let breaks = SETS[turn % 3];
        let built = expect_built_at_random(&rt, rt.alloc(), &mut numbers, breaks);
        let outcome = within(format_args!("line breaks {breaks:?}"), built);
        at_round(SEED, turn / 3, outcome)?;
    }
    Ok(())
}
