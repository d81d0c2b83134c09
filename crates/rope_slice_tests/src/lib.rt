//! Tests of lookups, slices and cursors at random indices, against lists of characters.
//!
//! No contract shows that chunks of texts of 2^62 bytes are found without a scan.
//!
//! The proofs show the rest, and it is run to test the compiler: lookups, ranges with bounds at
//! their limits, slices of slices, and random walks of each cursor, against the model in
//! `plain_slice`, `plain_cursor` and `rope_plain`.
//!
//! Worked rows are in crates/rope/stdin, which needs no proof.
#![tactic(auto)]

#[cfg(test)]
mod cursors;
#[cfg(test)]
mod cut_ranges;
#[cfg(test)]
mod cuts;
#[cfg(test)]
mod long_chunks;
#[cfg(test)]
mod places;
#[cfg(test)]
mod plain_cursor;
#[cfg(test)]
mod plain_slice;
#[cfg(test)]
mod random_ropes;
#[cfg(test)]
mod random_slices;
#[cfg(test)]
mod rows;
#[cfg(test)]
mod slice_model;
#[cfg(test)]
mod walker;
#[cfg(test)]
mod walks;
