//! Each public call of documents once, against texts by hand, and an exchange of two ropes.
use crate::makers::{apply, replacing};
use rope_changes::ChangeSet;
use rope_documents::{
    ContentChange, DocumentError, Range, apply_content_changes, to_content_changes,
};
use rope_position::{Encoding, Position};
use ropey::{CowStr, LineBreaks, Rope};
use std::alloc::Global;
use std::process::Abort;

fn document(rt: &impl Abort, alloc: Global, text: &str) -> Rope {
    Rope::from_str_with(alloc, text, LineBreaks::CrLf).expect(rt, "there is memory")
}

// Applies a list that has no invalid range.
fn receive(
    rt: &impl Abort,
    alloc: Global,
    rope: &mut Rope,
    changes: &[ContentChange<'_>],
    encoding: Encoding,
) -> ChangeSet {
    apply_content_changes(alloc, rope, changes, encoding).expect(rt, "there is memory")
}

// Returns the list of a change of the text of a rope.
fn send<'a>(
    rt: &impl Abort,
    alloc: Global,
    change: &'a ChangeSet,
    rope: &Rope,
    encoding: Encoding,
) -> Vec<ContentChange<'a>> {
    to_content_changes(alloc, change, rope, encoding).expect(rt, "there is memory")
}

// The lines and columns at which a range starts and ends.
type Ends = [usize; 4];

fn range(ends: Ends) -> Range {
    let [start_line, start, end_line, end] = ends;
    Range {
        start: Position {
            line: start_line,
            column: start,
        },
        end: Position {
            line: end_line,
            column: end,
        },
    }
}

fn part(ends: Ends, text: &str) -> ContentChange<'_> {
    ContentChange {
        range: Some(range(ends)),
        text: CowStr::Borrowed(text),
    }
}

fn whole(text: &str) -> ContentChange<'_> {
    ContentChange {
        range: None,
        text: CowStr::Borrowed(text),
    }
}

// Fails unless a change makes the text of another rope.
fn expect_copied(rt: &impl Abort, change: &ChangeSet, copy: &mut Rope, rope: &Rope, after: &str) {
    apply(rt, change, copy);
    assert!(rt; rope.eq_str(after) && copy.eq_str(after));
}

// Fails unless a text becomes another one by a list, and by the change that is made of the list.
fn expect_received(
    rt: &impl Abort,
    alloc: Global,
    text: &str,
    changes: &[ContentChange<'_>],
    encoding: Encoding,
    after: &str,
) {
    let mut rope = document(rt, alloc, text);
    let mut copy = rope.clone().expect(rt, "there is memory");
    let change = receive(rt, alloc, &mut rope, changes, encoding);
    expect_copied(rt, &change, &mut copy, &rope, after);
}

// Encodings, and the column after a letter and a character of four bytes.
const COLUMNS: [(Encoding, usize); 3] = [
    (Encoding::Utf8, 5),
    (Encoding::Utf16, 3),
    (Encoding::Utf32, 2),
];

fn expect_column(rt: &impl Abort, alloc: Global, encoding: Encoding, column: usize) {
    let changes = [part([0, 1, 0, column], "x")];
    let text = "a😀b\r\ncd";
    expect_received(rt, alloc, text, &changes, encoding, "axb\r\ncd");
}

#[test]
fn columns_count_code_units(rt: HostRuntime) {
    for (encoding, column) in &COLUMNS {
        expect_column(&rt, rt.alloc(), *encoding, *column);
    }
}

fn expect_parts_received(rt: &impl Abort, alloc: Global) {
    let parts = [
        part([0, 3, 0, 4], "\r\n"),
        part([1, 0, 1, 3], "2"),
        part([1, 1, 2, 2], ", "),
        part([1, 6, 1, 6], "!"),
    ];
    let (text, after) = ("one two\r\nthree", "one\r\n2, ree!");
    expect_received(rt, alloc, text, &parts, Encoding::Utf16, after);
}

fn expect_clamped(rt: &impl Abort, alloc: Global) {
    let parts = [part([0, 9, 0, 9], "!"), part([9, 0, 9, 9], "?")];
    let (text, after) = ("one\r\ntwo", "one!\r\ntwo?");
    expect_received(rt, alloc, text, &parts, Encoding::Utf16, after);
}

fn expect_whole_received(rt: &impl Abort, alloc: Global) {
    let changes = [
        part([0, 0, 0, 3], "1"),
        whole("new\ntext"),
        part([1, 0, 1, 0], "the "),
    ];
    let (text, after) = ("one\r\ntwo", "new\nthe text");
    expect_received(rt, alloc, text, &changes, Encoding::Utf16, after);
}

#[test]
fn changes_are_made_one_after_the_other(rt: HostRuntime) {
    let alloc = rt.alloc();
    let text = "one\r\ntwo";
    expect_parts_received(&rt, alloc);
    expect_clamped(&rt, alloc);
    expect_whole_received(&rt, alloc);
    expect_received(&rt, alloc, text, &[], Encoding::Utf16, text);
}

// Returns the error of an invalid range, which leaves the text.
fn invalid(rt: &impl Abort, alloc: Global, rope: &mut Rope) -> DocumentError {
    let changes = [part([0, 0, 0, 3], "1"), part([1, 1, 0, 1], "x")];
    let made = apply_content_changes(alloc, rope, &changes, Encoding::Utf16);
    made.err().expect(rt, "the range is invalid")
}

fn expect_told(rt: &impl Abort, alloc: Global, error: DocumentError) {
    let text = format!(in alloc; "{error}").expect(rt, "there is memory");
    assert_eq!(rt;
        text.as_str(),
        "Invalid range: start line 1, column 1, end line 0, column 1"
    );
}

#[test]
fn a_range_that_ends_before_its_start_is_refused(rt: HostRuntime) {
    let mut rope = document(&rt, rt.alloc(), "one\r\ntwo");
    let error = invalid(&rt, rt.alloc(), &mut rope);
    assert!(rt; rope.eq_str("one\r\ntwo"));
    let Range { start, end } = range([1, 1, 0, 1]);
    assert_eq!(rt; error, DocumentError::RangeInvalid(start, end));
    expect_told(&rt, rt.alloc(), error);
}

// Fails unless an item of a list has this range and this text.
fn expect_item(rt: &impl Abort, item: Option<&ContentChange<'_>>, ends: Ends, text: &str) {
    let item = item.expect(rt, "there is such an item");
    assert!(rt; item.range == Some(range(ends)));
    assert!(rt; item.text.as_str() == text);
}

// Fails unless a list has these two items.
fn expect_items(rt: &impl Abort, list: &[ContentChange<'_>], rows: [(Ends, &str); 2]) {
    assert_eq!(rt; list.len(), 2);
    expect_item(rt, list.get(0), rows[0].0, rows[0].1);
    expect_item(rt, list.get(1), rows[1].0, rows[1].1);
}

// Fails unless the last item of a list borrows its text.
fn expect_last_borrowed(rt: &impl Abort, list: &[ContentChange<'_>]) {
    let is_borrowed = match list.last() {
        Some(item) => matches!(item.text, CowStr::Borrowed(_)),
        None => false,
    };
    assert!(rt; is_borrowed);
}

fn expect_last_first(rt: &impl Abort, alloc: Global, change: &ChangeSet, rope: &Rope) {
    let list = send(rt, alloc, change, rope, Encoding::Utf16);
    expect_items(rt, &list, [([1, 0, 1, 1], ""), ([0, 3, 0, 4], "x")]);
    expect_last_borrowed(rt, &list);
}

// Fails unless the list of a change of another length is refused.
fn expect_length_refused(rt: &impl Abort, alloc: Global, change: &ChangeSet, rope: &Rope) {
    let wrong = to_content_changes(alloc, change, rope, Encoding::Utf16);
    assert_eq!(rt; wrong.err(), Some(DocumentError::LengthDiffers(7, 1)));
}

#[test]
fn the_last_replacement_comes_first(rt: HostRuntime) {
    let change = replacing(&rt, rt.alloc(), 7, &[(2, 3, "x"), (5, 6, "")]);
    let rope = document(&rt, rt.alloc(), "a😀b\r\ncd");
    expect_last_first(&rt, rt.alloc(), &change, &rope);
    let short = document(&rt, rt.alloc(), "a");
    expect_length_refused(&rt, rt.alloc(), &change, &short);
}

// Fails unless the list of a change of a text has its breaks whole, and leads to this text.
fn expect_whole_breaks(rt: &impl Abort, alloc: Global, change: &ChangeSet, text: &str) {
    let rope = document(rt, alloc, text);
    let list = send(rt, alloc, change, &rope, Encoding::Utf16);
    expect_items(rt, &list, [([1, 1, 2, 0], "\rx\n"), ([0, 1, 1, 0], "\n")]);
    expect_received(rt, alloc, text, &list, Encoding::Utf16, "a\nb\rx\nc");
}

#[test]
fn a_replacement_inside_a_break_is_sent_with_the_whole_break(rt: HostRuntime) {
    let change = replacing(&rt, rt.alloc(), 7, &[(1, 2, ""), (5, 5, "x")]);
    expect_whole_breaks(&rt, rt.alloc(), &change, "a\r\nb\r\nc");
}

// Pseudo-random numbers, from a fixed seed.
#[derive(Drop)]
struct Numbers(u32);

impl Numbers {
    ghost use Rattle.std.specs.Prelude.{◌<◌};

    fn below(&mut self, bound: usize) -> usize
        requires { 0 < bound }
        ensures { result < bound }
    {
        self.0 = self.0.wrapping_mul(1_664_525).wrapping_add(1_013_904_223);
        (self.0 >> 8) as usize % bound
    }
}

const TEXTS: [&str; 8] = ["", "x", "\r", "\n", "\r\n", "é😀", "\n\r\r\n", "two words"];

// Replaces a range of a text of `len` characters from an index on, and returns an index after it.
fn replace_from(
    rt: &impl Abort,
    change: &mut ChangeSet,
    len: usize,
    at: usize,
    numbers: &mut Numbers,
) -> usize {
    if at >= len || len > 1000 {
        return at;
    }
    let start = at + numbers.below(len - at);
    let end = start + numbers.below((len - start).min(4));
    change
        .replace(start, end, TEXTS[numbers.below(8)])
        .expect(rt, "the range is in order");
    end + numbers.below(3)
}

// Returns a change of a text with up to four replacements.
fn random_change(rt: &impl Abort, alloc: Global, len: usize, numbers: &mut Numbers) -> ChangeSet {
    let mut change = ChangeSet::new(alloc, len).expect(rt, "the text fits");
    let mut at = 0;
    for _ in 0..4 {
        at = replace_from(rt, &mut change, len, at, numbers);
    }
    change
}

// Fails unless a list, and the change that is made of it, give a rope the text of another one.
fn expect_same_text(
    rt: &impl Abort,
    alloc: Global,
    server: &mut Rope,
    list: &[ContentChange<'_>],
    encoding: Encoding,
    client: &Rope,
) {
    let mut again = server.clone().expect(rt, "there is memory");
    let made = receive(rt, alloc, server, list, encoding);
    assert!(rt; *server == *client);
    apply(rt, &made, &mut again);
    assert!(rt; again == *client);
}

// Changes one rope, and another one by the list for that change.
fn exchange(
    rt: &impl Abort,
    alloc: Global,
    client: &mut Rope,
    server: &mut Rope,
    numbers: &mut Numbers,
) {
    let encodings = [Encoding::Utf8, Encoding::Utf16, Encoding::Utf32];
    let encoding = encodings[numbers.below(3)];
    let change = random_change(rt, alloc, client.len_chars(), numbers);
    let list = send(rt, alloc, &change, client, encoding);
    apply(rt, &change, client);
    expect_same_text(rt, alloc, server, &list, encoding, client);
}

// Lets each of two ropes send changes to the other.
fn exchange_all(rt: &impl Abort, alloc: Global, left: &mut Rope, right: &mut Rope) {
    let mut numbers = Numbers(2);
    for round in 0..200 {
        if round % 3 == 0 {
            exchange(rt, alloc, right, left, &mut numbers);
        } else {
            exchange(rt, alloc, left, right, &mut numbers);
        }
    }
}

#[test]
fn two_ropes_that_exchange_lists_have_one_text(rt: HostRuntime) {
    let text = "one\r\ntwo\rthree\nfour\r\n\r\nfive 😀\r\n";
    let mut left = document(&rt, rt.alloc(), text);
    let mut right = document(&rt, rt.alloc(), text);
    exchange_all(&rt, rt.alloc(), &mut left, &mut right);
}
