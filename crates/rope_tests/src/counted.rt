//! The counts of lookups in ropes of known depth.
use crate::ropes::{chunk_count, rope_of_repeated};
use rope_plain::compare::lens;
use rope_plain::failure::{Failure, at, expect_same};
use rope_plain::{holds, same};
use ropey::{Rope, Steps};

/// A lookup that counts its steps.
#[derive(Clone, Copy)]
enum Lookup {
    Byte,
    ByteToChar,
    ByteToLine,
    Char,
    CharToByte,
    CharToLine,
    CharToUtf16,
    LineToByte,
    LineToChar,
    Utf16ToChar,
}

impl Lookup {
    /// Returns its result at an index, or `None` past the end.
    fn find(self, rope: &Rope, place: usize, steps: &mut Steps) -> Option<usize> {
        match self {
            Lookup::Byte | Lookup::ByteToChar | Lookup::ByteToLine => {
                self.find_by_byte(rope, place, steps)
            }
            Lookup::LineToByte | Lookup::LineToChar | Lookup::Utf16ToChar => {
                self.find_by_line_or_unit(rope, place, steps)
            }
            _ => self.find_by_char(rope, place, steps),
        }
    }

    fn find_by_byte(self, rope: &Rope, byte_idx: usize, steps: &mut Steps) -> Option<usize> {
        if byte_idx >= rope.len_bytes() {
            return None;
        }
        match self {
            Lookup::ByteToChar => Some(rope.byte_to_char_counted(byte_idx, steps)),
            Lookup::ByteToLine => Some(rope.byte_to_line_counted(byte_idx, steps)),
            _ => Some(usize::from(rope.byte_counted(byte_idx, steps))),
        }
    }

    fn find_by_char(self, rope: &Rope, char_idx: usize, steps: &mut Steps) -> Option<usize> {
        if char_idx >= rope.len_chars() {
            return None;
        }
        match self {
            Lookup::CharToByte => Some(rope.char_to_byte_counted(char_idx, steps)),
            Lookup::CharToLine => Some(rope.char_to_line_counted(char_idx, steps)),
            Lookup::CharToUtf16 => Some(rope.char_to_utf16_cu_counted(char_idx, steps)),
            _ => Some(rope.char_counted(char_idx, steps) as usize),
        }
    }

    fn find_by_line_or_unit(self, rope: &Rope, place: usize, steps: &mut Steps) -> Option<usize> {
        match self {
            Lookup::LineToByte if place < rope.len_lines() => {
                Some(rope.line_to_byte_counted(place, steps))
            }
            Lookup::LineToChar if place < rope.len_lines() => {
                Some(rope.line_to_char_counted(place, steps))
            }
            Lookup::Utf16ToChar if place < rope.len_utf16_cu() => {
                Some(rope.utf16_cu_to_char_counted(place, steps))
            }
            _ => None,
        }
    }

    /// Returns its maximum number of comparisons, over all indices before an end; `None` if one of
    /// them has no result.
    fn most_compares(self, rope: &Rope, end: usize) -> Option<u64> {
        let mut most = 0;
        for place in 0..end {
            let mut steps = Steps::new();
            self.find(rope, place, &mut steps)?;
            most = most.max(steps.compares);
        }
        Some(most)
    }
}

fn expect_two_levels(rope: &Rope) -> Result<(), Failure> {
    let counts = [
        rope.len_bytes(),
        chunk_count(rope),
        rope.depth(),
        rope.capacity(),
    ];
    let expected = [20_000, 21, 1, 20_664];
    expect_same("bytes, chunks, depth, capacity", &counts, &expected)
}

/// Fails unless each byte is found through two nodes, and by at most five comparisons.
fn expect_bytes_found(rope: &Rope) -> Result<(), Failure> {
    let mut most = 0;
    for place in 0..20_000 {
        let mut steps = Steps::new();
        same!(Lookup::Byte.find(rope, place, &mut steps), Some(97));
        same!(steps.nodes, 2);
        most = most.max(steps.compares);
    }
    expect_same("most", &most, &5)
}

fn expect_bytes_found_in_two_levels(rope: &Rope) -> Result<(), Failure> {
    expect_two_levels(rope)?;
    expect_bytes_found(rope)
}

#[test]
fn a_byte_is_found_through_two_nodes(rt: HostRuntime) -> Result<(), Failure> {
    let rope = rope_of_repeated(&rt, rt.alloc(), "a", 20_000);
    expect_bytes_found_in_two_levels(&rope)
}

/// Each lookup, and the end of its valid indices.
const ENDS: [(Lookup, usize); 10] = [
    (Lookup::Byte, 20_000),
    (Lookup::ByteToChar, 20_000),
    (Lookup::ByteToLine, 20_000),
    (Lookup::Char, 20_000),
    (Lookup::CharToByte, 20_000),
    (Lookup::CharToLine, 20_000),
    (Lookup::CharToUtf16, 20_000),
    (Lookup::Utf16ToChar, 20_000),
    (Lookup::LineToByte, 10_000),
    (Lookup::LineToChar, 10_000),
];

/// Fails unless each lookup compares at most five times.
fn expect_all_found(rope: &Rope) -> Result<(), Failure> {
    for (lookup, end) in &ENDS {
        same!(lookup.most_compares(rope, *end), Some(5));
    }
    Ok(())
}

fn expect_all_found_in_two_levels(rope: &Rope) -> Result<(), Failure> {
    same!(lens(rope), [20_000, 20_000, 10_001, 20_000]);
    same!([chunk_count(rope), rope.depth()], [21, 1]);
    expect_all_found(rope)
}

#[test]
fn each_lookup_in_two_levels_compares_at_most_five_times(rt: HostRuntime) -> Result<(), Failure> {
    let rope = rope_of_repeated(&rt, rt.alloc(), "a\n", 10_000);
    expect_all_found_in_two_levels(&rope)
}

/// Fails unless a lookup in four levels has this result, through four nodes and by few comparisons.
fn expect_found_in_four_levels(
    rope: &Rope,
    lookup: Lookup,
    place: usize,
    expected: usize,
) -> Result<(), Failure> {
    let mut steps = Steps::new();
    let found = lookup.find(rope, place, &mut steps);
    same!(found, Some(expected));
    same!(steps.nodes, 4);
    holds!(steps.compares <= 15);
    Ok(())
}

fn expect_char_found_in_four_levels(rope: &Rope) -> Result<(), Failure> {
    holds!((1_017..=1_020).contains(&chunk_count(rope)));
    same!(rope.depth(), 3);
    expect_found_in_four_levels(rope, Lookup::CharToByte, 500_000, 500_000)
}

#[test]
fn a_character_is_found_through_four_nodes(rt: HostRuntime) -> Result<(), Failure> {
    let rope = rope_of_repeated(&rt, rt.alloc(), "a", 1_000_000);
    expect_char_found_in_four_levels(&rope)
}

/// Each conversion, an index in the middle, and its result there.
const IN_THE_MIDDLE: [(Lookup, usize, usize); 8] = [
    (Lookup::ByteToChar, 500_000, 500_000),
    (Lookup::ByteToLine, 500_000, 250_000),
    (Lookup::CharToByte, 500_000, 500_000),
    (Lookup::CharToLine, 500_000, 250_000),
    (Lookup::CharToUtf16, 500_000, 500_000),
    (Lookup::Utf16ToChar, 500_000, 500_000),
    (Lookup::LineToByte, 250_000, 500_000),
    (Lookup::LineToChar, 250_000, 500_000),
];

fn expect_converted_in_four_levels(rope: &Rope) -> Result<(), Failure> {
    for (row, (lookup, place, expected)) in IN_THE_MIDDLE.iter().enumerate() {
        let outcome = expect_found_in_four_levels(rope, *lookup, *place, *expected);
        at("row", row, outcome)?;
    }
    expect_same("rope.depth()", &rope.depth(), &3)
}

#[test]
fn each_conversion_visits_four_nodes(rt: HostRuntime) -> Result<(), Failure> {
    let rope = rope_of_repeated(&rt, rt.alloc(), "a\n", 500_000);
    expect_converted_in_four_levels(&rope)
}
