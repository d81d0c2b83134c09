//! Files of literal bytes, read by readers that give them in pieces, and written back.
use crate::makers::rope_of;
use rope_files::{Encoding, ReadAnyError, ReadAnyResult, WriteAsError, read_any, write_as};
use rope_plain::texts::repeated;
use ropey::{LineBreaks, Rope};
use std::alloc::Global;
use std::io::{self, ErrorKind, Read};
use std::process::Abort;

const ENCODINGS: [Encoding; 7] = [
    Encoding::Utf8,
    Encoding::Utf8Bom,
    Encoding::Utf16Le,
    Encoding::Utf16LeBom,
    Encoding::Utf16Be,
    Encoding::Utf16BeBom,
    Encoding::Latin1,
];

/// Gives at most `most` bytes a read, and fails once `fails_at` were given.
#[derive(Clone, Copy)]
struct Parts<'a> {
    rest: &'a [u8],
    most: usize,
    fails_at: Option<usize>,
}

impl Read for Parts<'_> {
    fn read(&mut self, buf: &mut [u8]) -> io::Result<usize> {
        let mut count = self.most.min(self.rest.len()).min(buf.len());
        if let Some(left) = self.fails_at {
            if left == 0 {
                return Err(io::Error::from(ErrorKind::BrokenPipe));
            }
            count = count.min(left);
            self.fails_at = Some(left - count);
        }
        let (given, rest) = self.rest.split_at(count);
        buf[..count].copy_from_slice(given);
        self.rest = rest;
        Ok(count)
    }
}

fn in_parts(bytes: &[u8], most: usize) -> Parts<'_> {
    Parts {
        rest: bytes,
        most,
        fails_at: None,
    }
}

fn read(
    alloc: Global,
    bytes: &[u8],
    most: usize,
    declared: Option<Encoding>,
) -> ReadAnyResult<(Rope, Encoding)> {
    read_any(alloc, in_parts(bytes, most), LineBreaks::Unicode, declared)
}

/// The maximum numbers of bytes of a piece.
const SIZES: [usize; 5] = [1, 2, 3, 5, 4096];

/// Bytes, the declared encoding, the text, and the encoding found.
type Kept<'a> = (&'a [u8], Option<Encoding>, &'a str, Encoding);

/// Checks that a rope is written as these bytes.
fn expect_written(rt: &impl Abort, alloc: Global, rope: &Rope, encoding: Encoding, bytes: &[u8]) {
    let mut written = Vec::new(alloc);
    write_as(rope, encoding, &mut written).expect(rt, "the text is written");
    assert!(rt; written.as_slice() == bytes);
}

/// Checks that the bytes are read as this text, in pieces of a size, and written back.
fn expect_kept_in_pieces(rt: &impl Abort, alloc: Global, row: Kept<'_>, most: usize) {
    let (bytes, declared, text, encoding) = row;
    let (rope, found) = read(alloc, bytes, most, declared).expect(rt, "the bytes are a text");
    assert!(rt; found == encoding && rope.eq_str(text));
    expect_written(rt, alloc, &rope, found, bytes);
}

/// Checks that the bytes are read as this text, in pieces of several sizes, and written back.
fn expect_kept(rt: &impl Abort, alloc: Global, row: Kept<'_>) {
    for most in &SIZES {
        expect_kept_in_pieces(rt, alloc, row, *most);
    }
}

/// A number for each error and its offset.
fn code(outcome: ReadAnyResult<(Rope, Encoding)>) -> (u8, u64) {
    match outcome {
        Ok(_) => (0, 0),
        Err(ReadAnyError::Read(_)) => (1, 0),
        Err(ReadAnyError::NoMark) => (2, 0),
        Err(ReadAnyError::InvalidUtf8) => (3, 0),
        Err(ReadAnyError::UnpairedSurrogate(at)) => (4, at),
        Err(ReadAnyError::HalfCodeUnit(at)) => (5, at),
        Err(ReadAnyError::Rope(_)) => (6, 0),
    }
}

/// Checks that the bytes are refused with this error, in pieces of several sizes.
fn expect_refused(
    rt: &impl Abort,
    alloc: Global,
    bytes: &[u8],
    declared: Option<Encoding>,
    error: (u8, u64),
) {
    for most in &SIZES {
        let found = code(read(alloc, bytes, *most, declared));
        assert!(rt; found == error);
    }
}

fn expect_all_kept(rt: &impl Abort, alloc: Global, rows: &[Kept<'_>]) {
    for row in rows {
        expect_kept(rt, alloc, *row);
    }
}

/// Files whose mark, or its absence, says the encoding. A pair goes over the ends of reads.
const MARKED: [Kept<'static>; 11] = [
    (b"", None, "", Encoding::Utf8),
    (b"a", None, "a", Encoding::Utf8),
    (b"h\xC3\xA9llo\r\n", None, "h\u{E9}llo\r\n", Encoding::Utf8),
    (b"\xEF\xBB\xBF", None, "", Encoding::Utf8Bom),
    (b"\xEF\xBB\xBFab", None, "ab", Encoding::Utf8Bom),
    (b"\xFF\xFE", None, "", Encoding::Utf16LeBom),
    (b"\xFF\xFEa\0\n\0", None, "a\n", Encoding::Utf16LeBom),
    (b"\xFE\xFF\0a\0\n", None, "a\n", Encoding::Utf16BeBom),
    (b"\xFE\xFF", None, "", Encoding::Utf16BeBom),
    (
        b"\xFF\xFEx\0\x3D\xD8\x00\xDE\xAC\x20",
        None,
        "x\u{1F600}\u{20AC}",
        Encoding::Utf16LeBom,
    ),
    (
        b"\xFE\xFF\0x\xD8\x3D\xDE\x00\x20\xAC",
        None,
        "x\u{1F600}\u{20AC}",
        Encoding::Utf16BeBom,
    ),
];

/// Files whose encoding is declared, also against their mark.
const DECLARED: [Kept<'static>; 5] = [
    (
        b"\xEF\xBB\xBFab",
        Some(Encoding::Utf8),
        "\u{FEFF}ab",
        Encoding::Utf8,
    ),
    (
        b"\xFF\xFEa\0",
        Some(Encoding::Latin1),
        "\u{FF}\u{FE}a\0",
        Encoding::Latin1,
    ),
    (
        b"a\0\xE9\0",
        Some(Encoding::Utf16Le),
        "a\u{E9}",
        Encoding::Utf16Le,
    ),
    (
        b"\xFF\xFEa\0",
        Some(Encoding::Utf16Le),
        "\u{FEFF}a",
        Encoding::Utf16Le,
    ),
    (
        b"\0a\0\xE9",
        Some(Encoding::Utf16Be),
        "a\u{E9}",
        Encoding::Utf16Be,
    ),
];

#[test]
fn a_mark_or_a_declaration_says_the_encoding(rt: HostRuntime) {
    expect_all_kept(&rt, rt.alloc(), &MARKED);
    expect_all_kept(&rt, rt.alloc(), &DECLARED);
}

/// Bytes that are refused, the declared encoding, and the error.
const REFUSED: [(&[u8], Option<Encoding>, (u8, u64)); 13] = [
    (b"a\0", Some(Encoding::Utf16LeBom), (2, 0)),
    (b"\xFE\xFF\0a", Some(Encoding::Utf16LeBom), (2, 0)),
    (b"", Some(Encoding::Utf8Bom), (2, 0)),
    (b"\xEF\xBB", Some(Encoding::Utf8Bom), (2, 0)),
    (b"\xFF\xFEa", None, (5, 2)),
    (b"\xFF\xFEa\0b", None, (5, 4)),
    (b"\xFE\xFF\0a\xD8\x3D", None, (4, 4)),
    (b"\0a\xD8\x3D\xDE", Some(Encoding::Utf16Be), (4, 2)),
    (b"\0a\xD8\x3D\0b", Some(Encoding::Utf16Be), (4, 2)),
    (b"\xDE\x00\0b", Some(Encoding::Utf16Be), (4, 0)),
    (b"\xD8\x3D\xD8\x3D\xDE\x00", Some(Encoding::Utf16Be), (4, 0)),
    (b"ab\xC3", None, (3, 0)),
    (b"\xEF\xBB\xBFab\xFFc", None, (3, 0)),
];

#[test]
fn invalid_text_is_refused_at_its_offset(rt: HostRuntime) {
    for (bytes, declared, error) in &REFUSED {
        expect_refused(&rt, rt.alloc(), bytes, *declared, *error);
    }
}

/// Returns all bytes in order.
fn all_bytes(rt: &impl Abort, alloc: Global) -> Vec<u8> {
    let mut bytes = Vec::new(alloc);
    for byte in 0..=255u8 {
        bytes.push(byte).expect(rt, "there is memory");
    }
    bytes
}

/// Returns the first 256 characters in order.
fn all_of_latin1(rt: &impl Abort, alloc: Global) -> String {
    let mut text = String::new(alloc);
    for byte in 0..=255u8 {
        text.push(char::from(byte)).expect(rt, "there is memory");
    }
    text
}

/// Checks that the first character that Latin-1 lacks is reported, and nothing is written.
fn expect_unencodable(rt: &impl Abort, alloc: Global, rope: &Rope) {
    let mut written = Vec::new(alloc);
    let outcome = write_as(rope, Encoding::Latin1, &mut written);
    assert!(rt; matches!(outcome, Err(WriteAsError::Unencodable(1))));
    assert!(rt; written.is_empty());
}

#[test]
fn latin1_has_all_bytes(rt: HostRuntime) {
    let bytes = all_bytes(&rt, rt.alloc());
    let text = all_of_latin1(&rt, rt.alloc());
    let latin1 = Encoding::Latin1;
    expect_kept(&rt, rt.alloc(), (&bytes, Some(latin1), &text, latin1));
}

#[test]
fn latin1_lacks_other_characters(rt: HostRuntime) {
    let rope = rope_of(&rt, rt.alloc(), "\u{FF}\u{100}");
    expect_unencodable(&rt, rt.alloc(), &rope);
}

/// Checks that a text is kept in an encoding.
fn expect_kept_in(rt: &impl Abort, alloc: Global, rope: &Rope, text: &str, encoding: Encoding) {
    let mut written = Vec::new(alloc);
    write_as(rope, encoding, &mut written).expect(rt, "the text is written");
    expect_kept(rt, alloc, (&written, Some(encoding), text, encoding));
}

fn expect_kept_in_each(rt: &impl Abort, alloc: Global, text: &str) {
    let rope = rope_of(rt, alloc, text);
    for encoding in &ENCODINGS {
        expect_kept_in(rt, alloc, &rope, text, *encoding);
    }
}

#[test]
fn long_texts_are_kept_in_each_encoding(rt: HostRuntime) {
    let text = repeated(rt.alloc(), "a\u{E9}\r\n", 3000).expect(&rt, "there is memory");
    expect_kept_in_each(&rt, rt.alloc(), text.as_str());
}

/// Checks that a read that fails after some bytes returns the reader's error.
fn expect_failed(rt: &impl Abort, alloc: Global, left: usize) {
    let reader = Parts {
        rest: b"\xFF\xFEa\0\x3D\xD8\x00\xDE",
        most: 2,
        fails_at: Some(left),
    };
    let result = read_any(alloc, reader, LineBreaks::Unicode, None);
    assert!(rt; code(result).0 == 1);
}

#[test]
fn a_failed_read_is_returned(rt: HostRuntime) {
    for left in 0..6 {
        expect_failed(&rt, rt.alloc(), left);
    }
}
