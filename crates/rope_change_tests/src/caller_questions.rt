//! The callers that query, and the one that reads and writes.
use rope_callers::checked::line_length;
use rope_callers::files::{CopyError, copy_text};
use rope_callers::lines::{all_fit, long_line_before};
use rope_callers::positions::position_of_byte;
use rope_callers::search::find_char;
use rope_plain::failure::Failure;
use rope_plain::{holds, same, some};
use rope_position::Position;
use ropey::io::ReadError;
use ropey::{Error, Rope};
use std::alloc::Global;

fn expect_lines(rope: &Rope) -> Result<(), Failure> {
    let lens = [
        line_length(rope, 1),
        line_length(rope, 3),
        line_length(rope, 4),
    ];
    same!(lens, [Some(5), Some(0), None]);
    holds!(all_fit(rope, 5));
    holds!(!all_fit(rope, 4));
    Ok(())
}

fn expect_long_lines(rope: &Rope) -> Result<(), Failure> {
    holds!(rope.len_lines() == 4);
    holds!(!(long_line_before(rope, 1, 5).is_some()));
    let line = some!(long_line_before(rope, 4, 3));
    same!(line.as_str(), Some("four\n"));
    Ok(())
}

fn expect_lines_both_ways(rope: &Rope) -> Result<(), Failure> {
    expect_lines(rope)?;
    expect_long_lines(rope)
}

#[test]
fn lines_are_read_forward_and_back(rt: HostRuntime) -> Result<(), Failure> {
    let rope = Rope::from_str(rt.alloc(), "one\nfour\nä\n")?;
    expect_lines_both_ways(&rope)
}

fn expect_places(rope: &Rope) -> Result<(), Failure> {
    let found = [find_char(rope, 'b'), find_char(rope, 'c')];
    let positions = [position_of_byte(rope, 6), position_of_byte(rope, 8)];
    let place = Position { line: 1, column: 2 };
    same!(found, [Some(3), None]);
    same!(
        positions,
        [Ok(place), Err(Error::ByteIndexOutOfBounds(8, 7))]
    );
    Ok(())
}

#[test]
fn characters_and_positions_are_found(rt: HostRuntime) -> Result<(), Failure> {
    let rope = Rope::from_str(rt.alloc(), "a\n𝔸b")?;
    expect_places(&rope)
}

fn expect_copied(alloc: Global, text: &[u8]) -> Result<(), Failure> {
    match copy_text(alloc, text, Vec::new(alloc)) {
        Ok(written) => {
            same!(written.as_slice(), text);
            Ok(())
        }
        Err(_) => Err(Failure::new("the text was not copied")),
    }
}

fn expect_refused(alloc: Global, text: &[u8]) -> Result<(), Failure> {
    let refused = copy_text(alloc, text, Vec::new(alloc));
    holds!(matches!(refused, Err(CopyError::Read(ReadError::InvalidData))));
    Ok(())
}

#[test]
fn a_text_is_copied_from_a_reader_to_a_writer(rt: HostRuntime) -> Result<(), Failure> {
    expect_refused(rt.alloc(), b"a\xff".as_slice())?;
    expect_copied(rt.alloc(), b"a\xc3\xa4\n".as_slice())
}
