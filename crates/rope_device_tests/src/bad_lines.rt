//! Lines that are not of the language.
use crate::served::expect_served;
use rope_plain::failure::{Failure, within};
use rope_protocol::Ended;
use std::alloc::Global;

/// Fails unless nothing is written for a line alone, and it is reported as bad.
fn expect_refused(alloc: Global, line: &[u8]) -> Result<(), Failure> {
    let input = [line, b"\n".as_slice()].concat(alloc)?;
    expect_served(alloc, &input, 4096, Ended::BadLine(1), "")
}

/// Fails unless each line, served alone, is refused.
fn expect_all_refused(alloc: Global, lines: &[&[u8]]) -> Result<(), Failure> {
    for line in lines {
        within(
            format_args!("line {:?}", str::from_utf8(line)),
            expect_refused(alloc, line),
        )?;
    }
    Ok(())
}

const WORDS: [&[u8]; 50] = [
    b"",
    b" ",
    b"text",
    b" text a",
    b"Text a",
    b"LEN 0",
    b"frob 0",
    b"new ",
    b"new 0",
    b"clone",
    b"clone 0 0",
    b"clone 0:0..1",
    b"copy",
    b"copy ",
    b"copy 0 0",
    b"show",
    b"show 0 0",
    b"len",
    b"len ",
    b"len 0 ",
    b"len  0",
    b"len 0 0",
    b"len 0\r",
    b"len -1",
    b"len +1",
    b"len 1_0",
    b"len \xd9\xa1",
    b"len 18446744073709551616",
    b"chunks a",
    b"chunks 0 b 0",
    b"fit",
    b"fit ",
    b"fit 0 0",
    b"breaks",
    b"breaks 0 0",
    b"cut 0",
    b"cut 0 -",
    b"cut 0 0 0",
    b"join 0",
    b"join 0 -",
    b"join 0 0 0",
    b"join 0:0..1 0",
    b"del 0",
    b"del 0 0",
    b"del 0 0 ",
    b"del 0 0 --",
    b"del - 0 0",
    b"del 0 0 0 0",
    b"len \xff",
    b"text \xff",
];

#[test]
fn unknown_words_are_bad_lines(rt: HostRuntime) -> Result<(), Failure> {
    expect_all_refused(rt.alloc(), &WORDS)
}

const PARTS_AND_QUERIES: [&[u8]; 45] = [
    b"len 0:1..",
    b"len 0:..1",
    b"len 0:1",
    b"len 0:1.2",
    b"len 0:1...2",
    b"len :0..1",
    b"len 0:0..1:2",
    b"len 0:-..1",
    b"len 0: 0..1",
    b"b2c 0",
    b"b2c 0 ",
    b"b2c 0 -",
    b"b2c 0 0 0",
    b"b2x 0 0",
    b"c2c 0 0",
    b"byte 0",
    b"byte 0 -1",
    b"char 0 ",
    b"line 0",
    b"line 0 0 0",
    b"chunk 0 0",
    b"chunk 0 x 0",
    b"chunk 0 b",
    b"chunk 0 b ",
    b"chunk 0 b 0 0",
    b"walk 0 bytes 0",
    b"walk 0 bytes 0 ",
    b"walk 0 bytes 0 x",
    b"walk 0 bytes 0 nN",
    b"walk 0 bytes 0 n p",
    b"walk 0 byte 0 n",
    b"walk 0 chunks 0 n",
    b"walk 0 chunks-x 0 n",
    b"walk 0 n",
    b"walk bytes 0 n",
    b"cmp 0",
    b"cmp 0 ",
    b"cmp 0 -",
    b"cmp 0 0 0",
    b"cmp 0 0:1",
    b"c2p 0",
    b"c2p 0 0 0",
    b"p2c 0 0",
    b"p2c 0 0 ",
    b"p2c 0 0 0 0",
];

#[test]
fn unknown_parts_and_queries_are_bad_lines(rt: HostRuntime) -> Result<(), Failure> {
    expect_all_refused(rt.alloc(), &PARTS_AND_QUERIES)
}

const TEXTS: [&[u8]; 35] = [
    b"ins 0 0",
    b"ins 0  x",
    b"ins  0 x",
    b"ins a 0 x",
    b"ins 0 a x",
    b"ins 0 0 \\x",
    b"insc 0 0",
    b"insc 0 0 ",
    b"insc 0 0 ab",
    b"insc 0 0 a ",
    b"insc 0 0 \\x",
    b"insc 0 - a",
    b"textb",
    b"textb lf",
    b"textb xx a",
    b"textb LF a",
    b"textb  a",
    b"textb lf \\",
    b"text a\\",
    b"text \\",
    b"text \\N",
    b"text \\\"",
    b"text \\u",
    b"text \\u0041",
    b"text \\u{",
    b"text \\u{}",
    b"textb lf \\u{}",
    b"ins 0 0 \\u{}",
    b"insc 0 0 \\u{}",
    b"text \\u{41",
    b"text \\u{g}",
    b"text \\u{ 41}",
    b"text \\u{0000041}",
    b"text \\u{D800}",
    b"text \\u{110000}",
];

#[test]
fn texts_that_are_wrongly_escaped_are_bad_lines(rt: HostRuntime) -> Result<(), Failure> {
    expect_all_refused(rt.alloc(), &TEXTS)
}

/// Each number of each line with a sign before it, which no number may have.
const SIGNS: [&[u8]; 36] = [
    b"clone +0",
    b"copy +0",
    b"copy 0:+0..1",
    b"copy 0:0..+1",
    b"ins +0 0 x",
    b"ins 0 +0 x",
    b"insc +0 0 x",
    b"insc 0 +0 x",
    b"del +0 0 1",
    b"del 0 +0 1",
    b"del 0 0 +1",
    b"del 0 - +1",
    b"del 0 -0 1",
    b"cut +0 0",
    b"cut 0 +0",
    b"join +0 0",
    b"join 0 +0",
    b"fit +0",
    b"len +0",
    b"show +0",
    b"chunks +0",
    b"breaks +0",
    b"b2c +0 0",
    b"b2c 0 +0",
    b"byte 0 +0",
    b"char 0 +0",
    b"line 0 +0",
    b"chunk 0 b +0",
    b"walk 0 bytes +0 n",
    b"walk +0 bytes 0 n",
    b"cmp +0 0",
    b"cmp 0 +0",
    b"cmp 0 0:+0..1",
    b"c2p 0 +0",
    b"p2c 0 +0 0",
    b"p2c 0 0 +0",
];

#[test]
fn numbers_with_a_sign_are_bad_lines(rt: HostRuntime) -> Result<(), Failure> {
    expect_all_refused(rt.alloc(), &SIGNS)
}
