//! Lines that come in several reads, devices that fail, and outcomes of runs.
use crate::served::expect_served;
use crate::talks::{Asking, Halting, Narrow, Stumbling, Telling};
use rope_plain::failure::{Failure, at, expect_same};
use rope_plain::same;
use rope_plain::sums::plus;
use rope_plain::texts::repeated;
use rope_protocol::{Ended, serve};
use std::alloc::{AllocError, Global};
use std::cell::Cell;

/// Inputs, the outcomes of the runs over them, and the output.
const ENDS: [(&[u8], Ended, &str); 18] = [
    (b"", Ended::Done, ""),
    (b"\n", Ended::BadLine(1), ""),
    (b"text \nlen 0", Ended::Done, "rope 0\n0 0 1 0\n"),
    (b"text \nfrob\nlen 0\n", Ended::BadLine(2), "rope 0\n"),
    (b"len 7\n\n", Ended::BadLine(2), "no rope\n"),
    (b"len 7\r\n", Ended::BadLine(1), ""),
    (b"len 7\ntext \xff\n", Ended::BadLine(2), "no rope\n"),
    (
        b"len 7\nlen 7\nfrob",
        Ended::BadLine(3),
        "no rope\nno rope\n",
    ),
    (b"new\nfit 0", Ended::Done, "rope 0\nok\n"),
    (b"new\nb2c 0 0\n", Ended::Done, "rope 0\n0\n"),
    // a CR before the LF is a character of the TEXT
    (
        b"text a\r\nshow 0\ntextb lf \r\nlen 1\n",
        Ended::Done,
        "rope 0\n\"a\\r\"\nrope 1\n1 1 1 1\n",
    ),
    (
        b"new\nins 0 0 b\r\ninsc 0 0 \r\nshow 0\nlen 0\r",
        Ended::BadLine(5),
        "rope 0\nok\nok\n\"\\rb\\r\"\n",
    ),
    (
        b"text \nins 0 0 \nins 0 1 \nchunks 0\ntext \nins 2 0 a\n",
        Ended::Done,
        "rope 0\nok\nerror: Char index out of bounds: char index 1, Rope/RopeSlice char length 0\n0\nrope 1\nno rope\n",
    ),
    (
        b"text abc\nclone 0\ndel 0 1 -\nshow 0\nshow 1\ndel 0 0 -\nshow 0\njoin 1 1\ncut 1 4\nshow 1\nshow 2\n",
        Ended::Done,
        "rope 0\nrope 1\nok\n\"a\"\n\"abc\"\nok\n\"\"\nok\nrope 2\n\"abca\"\n\"bc\"\n",
    ),
    (
        b"text abc\ndel 0 2 1\ndel 0 1 1\ndel 0 - 9\n",
        Ended::Done,
        "rope 0\nerror: Invalid char range 2..1: start must be <= end\nok\nerror: Char range out of bounds: char range ..9, Rope/RopeSlice char length 3\n",
    ),
    (
        b"new\ninsc 0 0 \\n\nclone 1\njoin 0 1\njoin 1 0\ncut 0 2\ncut 1 0\nchunks 0\n",
        Ended::Done,
        "rope 0\nok\nno rope\nno rope\nno rope\nerror: Char index out of bounds: char index 2, Rope/RopeSlice char length 1\nno rope\n1 \"\\n\"\n",
    ),
    (
        b"textb lf a\\rb\\n\nlen 0\ntext a\\rb\\n\nlen 1\njoin 0 1\nfit 0\nbreaks 0\nbreaks 1\nfit 2\nbreaks 2\nshow 0\n",
        Ended::Done,
        "rope 0\n4 4 2 4\nrope 1\n4 4 3 4\nerror: Ropes have different line breaks\nok\nlf\nunicode\nno rope\nno rope\n\"a\\rb\\n\"\n",
    ),
    (
        b"textb crlf a\\r\\n\njoin 0 0\nlen 0\ncut 0 3\nclone 1\nbreaks 2\nnew\njoin 3 2\njoin 2 3\nbreaks 3\n",
        Ended::Done,
        "rope 0\nok\n6 6 3 6\nrope 1\nrope 2\ncrlf\nrope 3\nerror: Ropes have different line breaks\nerror: Ropes have different line breaks\nunicode\n",
    ),
];

/// Fails unless the run over the input of a row has its outcome, byte by byte and at once.
fn expect_row(alloc: Global, row: &(&[u8], Ended, &str)) -> Result<(), Failure> {
    let (input, ended, output) = row;
    expect_served(alloc, input, 1, *ended, output)?;
    expect_served(alloc, input, 4096, *ended, output)
}

#[test]
fn a_run_ends_as_its_input_does(rt: HostRuntime) -> Result<(), Failure> {
    for (number, row) in ENDS.iter().enumerate() {
        at("row", number, expect_row(rt.alloc(), row))?;
    }
    Ok(())
}

/// Fails unless a bad line after good ones is reported by its number, from 1.
fn expect_bad(alloc: Global, number: u64, good: &str, replies: &str) -> Result<(), Failure> {
    let input = [good, "frob\nlen 0\n"].concat(alloc)?;
    let bytes = input.as_str().as_bytes();
    expect_served(alloc, bytes, 4096, Ended::BadLine(number), replies)
}

/// Fails unless a bad line after `count` good ones is reported by its number.
fn expect_bad_after(alloc: Global, count: u16) -> Result<(), Failure> {
    let good = repeated(alloc, "len 0\n", usize::from(count))?;
    let replies = repeated(alloc, "no rope\n", usize::from(count))?;
    expect_bad(alloc, u64::from(count) + 1, good.as_str(), replies.as_str())
}

#[test]
fn a_bad_line_is_reported_by_its_number(rt: HostRuntime) -> Result<(), Failure> {
    for count in &[0u16, 1, 2, 3, 9, 10, 99, 255, 256, 4095] {
        let outcome = expect_bad_after(rt.alloc(), *count);
        at("good lines", usize::from(*count), outcome)?;
    }
    Ok(())
}

/// Fails unless a run fails at such a writer, which then has these bytes.
fn expect_stopped_by(
    alloc: Global,
    input: &[u8],
    device: Narrow,
    kept: &[u8],
) -> Result<(), Failure> {
    let mut reader = input;
    let mut writer = device;
    same!(serve(alloc, &mut reader, &mut writer), Ended::Failed);
    expect_same("writer.kept", &writer.kept.as_slice(), &kept)
}

/// Fails unless a run with room for three bytes fails, and one whose writer can't be flushed.
fn expect_stopped(alloc: Global, input: &[u8]) -> Result<(), Failure> {
    let mut blocked = Narrow::new(alloc, 1000);
    blocked.fails_to_flush = true;
    expect_stopped_by(alloc, input, Narrow::new(alloc, 3), b"rop")?;
    expect_stopped_by(alloc, input, blocked, b"rope 0\n")
}

#[test]
fn a_failed_write_ends_the_run(rt: HostRuntime) -> Result<(), Failure> {
    expect_stopped(rt.alloc(), b"text \n")?;
    expect_stopped(rt.alloc(), b"text \nfrob\n")
}

/// Returns a line with these digits three times, and then other lines.
fn thrice_before(alloc: Global, digits: &str, short: &str) -> Result<String, AllocError> {
    let (next, last) = ("\nlen ", "\n");
    ["len ", digits, next, digits, next, digits, last, short].concat(alloc)
}

/// Returns three lines of 5,000 digits, and 2,000 short ones.
fn long_lines(alloc: Global) -> Result<String, AllocError> {
    let digits = repeated(alloc, "0", 5000)?;
    let short = repeated(alloc, "len 1\n", 2000)?;
    thrice_before(alloc, digits.as_str(), short.as_str())
}

/// Returns the outcome of the run over an input with `room` bytes for replies, and the number of
/// bytes written.
fn written(alloc: Global, input: &[u8], room: usize) -> (Ended, usize) {
    let mut reader = input;
    let mut writer = Narrow::new(alloc, room);
    let ended = serve(alloc, &mut reader, &mut writer);
    (ended, writer.kept.len())
}

/// Fails unless long lines have replies if there is room for all, and the run fails if there is
/// not.
fn expect_all_served(alloc: Global, input: &[u8]) -> Result<(), Failure> {
    let (ended, _) = written(alloc, input, 9000);
    same!(ended, Ended::Failed);
    let all = written(alloc, input, 20000);
    expect_same("with room for all it", &all, &(Ended::Done, 2003 * 8))
}

#[test]
fn long_lines_and_replies_are_served(rt: HostRuntime) -> Result<(), Failure> {
    let input = long_lines(rt.alloc())?;
    expect_all_served(rt.alloc(), input.as_str().as_bytes())
}

const LONG: &str = "text a\nlen 0\n";

/// Inputs, one piece a read, and the number of replies flushed at each read.
const SEEN: [(&[&str], &[usize]); 6] = [
    (&["text a\n", "len 0\n", "show 0\n"], &[0, 1, 2, 3]),
    (&["new\n", "b2c 0 0\n", "fit 0\n"], &[0, 1, 2, 3]),
    (
        &["text a\nlen 0\nsh", "ow", " 0\nlen 0", "\n"],
        &[0, 2, 2, 3, 4],
    ),
    (&["\n", "len 0\n"], &[0]),
    (&["len 0\nfrob\n", "len 0\n"], &[0]),
    (&[LONG, LONG, "len 0"], &[0, 2, 4, 4, 5]),
];

fn expect_flushed(alloc: Global, parts: &[&str], seen: &[usize]) -> Result<(), Failure> {
    let flushed = Cell::new(0usize);
    let mut reader = Asking::new(alloc, parts, &flushed);
    let mut writer = Telling::new(&flushed);
    serve(alloc, &mut reader, &mut writer);
    expect_same("reader.seen", &reader.seen.as_slice(), &seen)
}

#[test]
fn replies_come_before_the_next_read(rt: HostRuntime) -> Result<(), Failure> {
    for (row, (parts, seen)) in SEEN.iter().enumerate() {
        at("row", row, expect_flushed(rt.alloc(), parts, seen))?;
    }
    Ok(())
}

/// Fails unless a run ends at the read that fails once, with these replies flushed, and doesn't
/// read again.
fn expect_stopped_once(alloc: Global, fails_at: usize, replies: &[u8]) -> Result<(), Failure> {
    let parts = ["text a\n", "len 0\nsh", "ow 0\n"];
    let mut reader = Stumbling::new(&parts, fails_at);
    let mut writer = Narrow::new(alloc, 1000);
    let ended = serve(alloc, &mut reader, &mut writer);
    same!((ended, reader.reads), (Ended::Failed, plus(fails_at, 1)));
    expect_same("writer.kept", &writer.kept.as_slice(), &replies)
}

#[test]
fn a_read_that_fails_once_ends_the_run(rt: HostRuntime) -> Result<(), Failure> {
    expect_stopped_once(rt.alloc(), 0, b"")?;
    expect_stopped_once(rt.alloc(), 1, b"rope 0\n")?;
    expect_stopped_once(rt.alloc(), 2, b"rope 0\n1 1 1 1\n")?;
    expect_stopped_once(rt.alloc(), 3, b"rope 0\n1 1 1 1\n\"a\"\n")
}

/// Fails unless the run over three lines, the last of them bad, has this outcome, and the writer
/// that fails once has this.
fn expect_halted(
    alloc: Global,
    device: Halting,
    ended: Ended,
    replies: &[u8],
) -> Result<(), Failure> {
    let mut reader = b"text a\nlen 0\nfrob\n".as_slice();
    let mut writer = device;
    same!(serve(alloc, &mut reader, &mut writer), ended);
    expect_same("writer.kept", &writer.kept.as_slice(), &replies)
}

/// Fails unless a write that takes none after a number of bytes ends the run, and one that is
/// interrupted is tried again, as the standard library's `write_all` does.
fn expect_write_stopped(alloc: Global, room: usize) -> Result<(), Failure> {
    let replies = b"rope 0\n1 1 1 1\n".as_slice();
    let (front, _) = replies.split_at(room.min(replies.len()));
    expect_halted(alloc, Halting::new(alloc, room, true), Ended::Failed, front)?;
    expect_halted(
        alloc,
        Halting::new(alloc, room, false),
        Ended::BadLine(3),
        replies,
    )
}

#[test]
fn a_write_of_no_bytes_ends_the_run(rt: HostRuntime) -> Result<(), Failure> {
    for room in 0..15usize {
        at("room", room, expect_write_stopped(rt.alloc(), room))?;
    }
    Ok(())
}
