//! Positions where a text may be cut.
use rope_plain::failure::{Failure, expect_same};
use rope_plain::same;
use rope_text::crlf::{
    find_good_split, is_break, nearest_internal_break, next_break, prev_break, seam_is_break,
};

#[test]
fn a_cut_lies_beside_a_pair() -> Result<(), Failure> {
    let text = b"Hello world!\r\nHow's it going?";
    let breaks = [
        seam_is_break(b"\r\n\r\n\r", b"\n\r\n\r\n"),
        is_break(13, text),
        seam_is_break(b"\r\n\r\n\r\n", b"\r\n\r\n"),
        is_break(0, text),
        is_break(12, text),
        is_break(14, text),
        is_break(19, text),
    ];
    same!(breaks, [false, false, true, true, true, true, true]);
    let found = [prev_break(14, text), next_break(12, text)];
    expect_same("the previous and the next", &found, &[12, 14])
}

#[test]
fn the_nearest_cut_is_found() -> Result<(), Failure> {
    let text = b"\r\nHello world!\r\n";
    let pair = b"\r\n";
    let cuts = [
        nearest_internal_break(0, text),
        nearest_internal_break(1, text),
        nearest_internal_break(2, text),
        nearest_internal_break(14, text),
        nearest_internal_break(15, text),
        nearest_internal_break(16, text),
        nearest_internal_break(0, pair),
        nearest_internal_break(1, pair),
        nearest_internal_break(2, pair),
        find_good_split(1, "こ".as_bytes(), true),
    ];
    expect_same("cuts", &cuts, &[2, 2, 2, 14, 14, 14, 2, 2, 2, 3])
}
