//! Inserts into ropes, against rows worked by hand.
use crate::texts::chunk_count;
use rope_plain::compare::{expect_together, lens};
use rope_plain::failure::{Failure, at};
use rope_plain::texts::rope_of;
use rope_plain::{holds, same};
use ropey::Rope;
use std::alloc::Global;

/// A text, repeated, an insert into it, and the result.
#[derive(Clone, Copy)]
struct Row<'a> {
    text: &'a str,
    count: usize,
    inserts: &'a [(usize, &'a str)],
    lens: [usize; 4],
    /// The minimum and maximum number of chunks.
    least: usize,
    most: usize,
    /// A character that is in one chunk with the next one.
    first: usize,
}

const ROWS: [Row<'static>; 5] = [
    // A pair after a full leaf.
    Row {
        text: "a",
        count: 984,
        inserts: &[(984, "\r"), (985, "\n")],
        lens: [986, 986, 2, 986],
        least: 2,
        most: 986,
        first: 984,
    },
    // A full leaf that is split between letters.
    Row {
        text: "a",
        count: 984,
        inserts: &[(492, "\r\n")],
        lens: [986, 986, 2, 986],
        least: 2,
        most: 2,
        first: 492,
    },
    // An inserted break makes a pair with the one after it, or before it.
    Row {
        text: "\n",
        count: 1_967,
        inserts: &[(983, "\r")],
        lens: [1_968, 1_968, 1_968, 1_968],
        least: 2,
        most: 1_968,
        first: 983,
    },
    Row {
        text: "\r",
        count: 1_967,
        inserts: &[(984, "\n")],
        lens: [1_968, 1_968, 1_968, 1_968],
        least: 2,
        most: 1_968,
        first: 983,
    },
    // A pair that is split, before others.
    Row {
        text: "\r\n",
        count: 492,
        inserts: &[(1, "x")],
        lens: [985, 985, 494, 985],
        least: 2,
        most: 985,
        first: 3,
    },
];

fn insert_all(rope: &mut Rope, inserts: &[(usize, &str)]) -> Result<(), Failure> {
    for (char_idx, text) in inserts {
        rope.try_insert(*char_idx, text)?;
    }
    Ok(())
}

fn expect_edited(rope: &mut Rope, row: &Row<'_>) -> Result<(), Failure> {
    insert_all(rope, row.inserts)?;
    let chunks = chunk_count(rope);
    same!(lens(rope), row.lens);
    holds!(row.least <= chunks);
    holds!(chunks <= row.most);
    expect_together(rope, row.first)
}

fn expect_row(alloc: Global, row: &Row<'_>) -> Result<(), Failure> {
    let mut rope = rope_of(alloc, row.text, row.count)?;
    expect_edited(&mut rope, row)
}

#[test]
fn inserts_keep_make_and_split_pairs(rt: HostRuntime) -> Result<(), Failure> {
    for (number, row) in ROWS.iter().enumerate() {
        at("row", number, expect_row(rt.alloc(), row))?;
    }
    Ok(())
}
