//! Bytes in several reads, bytes that are not UTF-8, and readers that fail.
use crate::devices::{Endless, NEVER, Parts, SINGLY};
use crate::stumbles::read_kind;
use rope_plain::compare::expect_few_chunks;
use rope_plain::failure::{Failure, at, expect_same};
use rope_plain::texts::{expect_shown, repeated};
use rope_plain::{holds, same, some};
use ropey::io::{Mark, ReadError, Watched};
use ropey::{Error, LineBreaks, Rope};
use std::alloc::Global;
use std::io::{self, ErrorKind};

/// Fails unless the bytes of a rope are these.
fn expect_bytes(alloc: Global, rope: &Rope, bytes: &[u8]) -> Result<(), Failure> {
    let mut written = Vec::new(alloc);
    rope.write_to(&mut written)?;
    expect_same("written", &written.as_slice(), &bytes)
}

/// Fails unless a read returns this text.
fn expect_text(alloc: Global, answer: Result<Rope, ReadError>, text: &str) -> Result<(), Failure> {
    let rope = answer?;
    expect_bytes(alloc, &rope, text.as_bytes())
}

/// Fails unless a read returns `InvalidData`.
fn expect_no_text(answer: Result<Rope, ReadError>) -> Result<(), Failure> {
    match answer {
        Err(ReadError::InvalidData) => Ok(()),
        Err(error) => Err(error.into()),
        Ok(_) => Err(Failure::new("read, though no UTF-8")),
    }
}

/// Fails unless both calls return the text of the bytes, in several reads, and leave no mark.
fn expect_read(alloc: Global, bytes: &[u8], ends: u64, text: &str) -> Result<(), Failure> {
    let mut source = Watched::new(Parts::new(bytes, ends, NEVER));
    expect_text(alloc, Rope::from_watched(alloc, &mut source), text)?;
    holds!(!source.failed());
    let reader = Parts::new(bytes, ends, NEVER);
    expect_text(alloc, Rope::from_reader(alloc, reader), text)
}

/// Fails unless both calls return `InvalidData` for bytes that come one a read, and leave no mark.
fn expect_invalid(alloc: Global, bytes: &[u8]) -> Result<(), Failure> {
    let mut source = Watched::new(Parts::new(bytes, SINGLY, NEVER));
    expect_no_text(Rope::from_watched(alloc, &mut source))?;
    holds!(!source.failed());
    expect_no_text(Rope::from_reader(alloc, Parts::new(bytes, SINGLY, NEVER)))
}

/// Characters of one to four bytes, and a pair, in 12 bytes.
const TEXT: &str = "aé\r\nこ🐸";

#[test]
fn one_byte_a_read_makes_the_same_rope(rt: HostRuntime) -> Result<(), Failure> {
    let alloc = rt.alloc();
    expect_read(alloc, b"\xe3\x81\x93", SINGLY, "こ")?;
    expect_read(alloc, b"", SINGLY, "")?;
    expect_invalid(alloc, b"\xe3\x81")?;
    expect_invalid(alloc, b"\x61\xff")
}

#[test]
fn a_text_is_read_however_it_is_cut(rt: HostRuntime) -> Result<(), Failure> {
    for ends in 0..2048u64 {
        let outcome = expect_read(rt.alloc(), TEXT.as_bytes(), ends, TEXT);
        at("ends", ends as usize, outcome)?;
    }
    Ok(())
}

/// Fails unless the first bytes are read if they are complete characters, and are `InvalidData`
/// elsewhere.
fn expect_cut_off(alloc: Global, len: usize) -> Result<(), Failure> {
    let front = TEXT.as_bytes().split_at(len.min(TEXT.len())).0;
    if ![0usize, 1, 3, 4, 5, 8, 12].contains(&len) {
        return expect_invalid(alloc, front);
    }
    let text = some!(TEXT.get(..len));
    expect_read(alloc, front, SINGLY, text)
}

#[test]
fn a_text_cut_off_within_a_character_is_no_utf8(rt: HostRuntime) -> Result<(), Failure> {
    for len in 0..13usize {
        at("len", len, expect_cut_off(rt.alloc(), len))?;
    }
    Ok(())
}

fn expect_all_invalid(alloc: Global) -> Result<(), Failure> {
    expect_invalid(alloc, b"\xc0\x80")?;
    expect_invalid(alloc, b"\xed\xa0\x80")?;
    expect_invalid(alloc, b"\xf4\x90\x80\x80")
}

#[test]
fn bytes_that_are_no_utf8_are_refused(rt: HostRuntime) -> Result<(), Failure> {
    expect_all_invalid(rt.alloc())
}

/// Fails unless letters without end, with one wrong byte among them, are refused after a number of
/// bytes.
fn expect_refused_after(alloc: Global, before: usize, read: usize) -> Result<(), Failure> {
    let mut source = Watched::new(Endless::new(before, NEVER));
    expect_no_text(Rope::from_watched(alloc, &mut source))?;
    let is_marked = source.failed();
    let device = source.into_inner();
    holds!(!is_marked);
    expect_same("device.given", &device.given, &read)
}

/// Fails unless a failure among the bytes still to read is returned.
fn expect_failed_after(alloc: Global, fails_at: usize) -> Result<(), Failure> {
    let mut source = Watched::new(Endless::new(0, fails_at));
    let kind = read_kind(Rope::from_watched(alloc, &mut source));
    same!(kind, Some(ErrorKind::BrokenPipe));
    holds!(source.failed());
    Ok(())
}

#[test]
fn bytes_that_are_no_utf8_are_refused_before_the_end(rt: HostRuntime) -> Result<(), Failure> {
    expect_refused_after(rt.alloc(), 0, 1968)?;
    expect_refused_after(rt.alloc(), 10, 1978)?;
    expect_failed_after(rt.alloc(), 1967)
}

/// Fails unless a read fails and the mark is set.
fn expect_marked(alloc: Global, source: &mut Watched<Parts<'_>>) -> Result<(), Failure> {
    holds!(Rope::from_watched(alloc, source).is_err());
    holds!(source.failed());
    Ok(())
}

#[test]
fn an_old_mark_is_cleared(rt: HostRuntime) -> Result<(), Failure> {
    let mut source = Watched::new(Parts::new(b"ab", SINGLY, 1));
    expect_marked(rt.alloc(), &mut source)?;
    source.clear();
    holds!(!source.failed());
    expect_marked(rt.alloc(), &mut source)
}

/// Fails unless bytes were read into few chunks, and are written unchanged.
fn expect_copied(
    alloc: Global,
    answer: Result<Rope, ReadError>,
    bytes: &[u8],
) -> Result<(), Failure> {
    let rope = answer?;
    expect_few_chunks(&rope)?;
    expect_bytes(alloc, &rope, bytes)
}

/// Fails unless they are, in such reads.
fn expect_copied_in_parts(alloc: Global, bytes: &[u8], ends: u64) -> Result<(), Failure> {
    let answer = Rope::from_reader(alloc, Parts::new(bytes, ends, NEVER));
    expect_copied(alloc, answer, bytes)
}

/// Fails unless a rope of the long text was read.
fn expect_long(answer: Result<Rope, ReadError>) -> Result<(), Failure> {
    let rope = answer?;
    let lens = [rope.len_bytes(), rope.len_lines()];
    expect_same("bytes and lines", &lens, &[11_000, 1_001])
}

fn expect_all_copied(alloc: Global, bytes: &[u8]) -> Result<(), Failure> {
    expect_copied_in_parts(alloc, bytes, SINGLY)?;
    expect_copied_in_parts(alloc, bytes, 0)?;
    expect_long(Rope::from_reader(alloc, bytes))
}

#[test]
fn long_texts_are_read_in_few_chunks(rt: HostRuntime) -> Result<(), Failure> {
    let text = repeated(rt.alloc(), "é\r\nこ🐸", 1000)?;
    expect_all_copied(rt.alloc(), text.as_str().as_bytes())
}

/// Fails unless a rope of two lines was read, with LF alone as line breaks.
fn expect_lf_lines(answer: Result<Rope, ReadError>) -> Result<(), Failure> {
    let rope = answer?;
    let found = (rope.len_lines(), rope.line_breaks());
    expect_same("lines and their breaks", &found, &(2, LineBreaks::Lf))
}

fn expect_read_by_lf(alloc: Global) -> Result<(), Failure> {
    let mut source = Watched::new(Parts::new(b"a\r\n", SINGLY, NEVER));
    let watched = Rope::from_watched_with(alloc, &mut source, LineBreaks::Lf);
    let plain = Rope::from_reader_with(alloc, b"a\r\n".as_slice(), LineBreaks::Lf);
    expect_lf_lines(watched)?;
    expect_lf_lines(plain)
}

#[test]
fn a_rope_is_read_by_its_set(rt: HostRuntime) -> Result<(), Failure> {
    expect_read_by_lf(rt.alloc())
}

/// Fails unless an error is displayed as this text.
fn expect_displayed(alloc: Global, error: ReadError, text: &str) -> Result<(), Failure> {
    expect_shown(format!(in alloc; "{error}"), text)
}

/// Fails unless an error is displayed and printed for debugging as this text.
fn expect_shown_twice(alloc: Global, error: ReadError, text: &str) -> Result<(), Failure> {
    expect_shown(format!(in alloc; "{error} {error:?}"), text)
}

#[test]
fn errors_of_reading_are_shown(rt: HostRuntime) -> Result<(), Failure> {
    let failed = ReadError::Read(io::Error::from(ErrorKind::Other));
    expect_displayed(rt.alloc(), failed, "Read failed")?;
    let text = "stream did not contain valid UTF-8";
    expect_displayed(rt.alloc(), ReadError::InvalidData, text)?;
    let text =
        "Text would be longer than isize::MAX bytes Text would be longer than isize::MAX bytes";
    expect_shown_twice(rt.alloc(), ReadError::from(Error::TooLong), text)
}
