//! Tests of plain texts, of trees, and of ropes that are made, compared, shown and searched.
//!
//! No contract shows these:
//! - a call succeeds if there is memory, and rows worked by hand come out;
//! - the definitions in specs/ agree with a plain loop, for every text of up to five characters out
//!   of nine;
//! - a search counts each of its comparisons;
//! - the `Debug` texts.
//!
//! The proofs show these too, and they are run to test the compiler: counts and UTF-8 at each
//! position of a block, pieces of builders, order and equality.
//!
//! Rows that a line of commands can show are in crates/rope/stdin, which needs no proof.
//!
//! A test that makes a rope passes it by reference, and returns once: each return of a function
//! that owns a rope is proved to drop it, which takes long.
#![tactic(auto)]

#[cfg(test)]
mod build;
#[cfg(test)]
mod builder;
#[cfg(test)]
mod comparisons;
#[cfg(test)]
mod conversions;
#[cfg(test)]
mod counted;
#[cfg(test)]
mod crlf;
#[cfg(test)]
mod hashes;
#[cfg(test)]
mod makers;
#[cfg(test)]
mod node_text;
#[cfg(test)]
mod range;
#[cfg(test)]
mod removal;
#[cfg(test)]
mod ropes;
#[cfg(test)]
mod rows;
#[cfg(test)]
mod str_utils;
#[cfg(test)]
mod texts_out;
#[cfg(test)]
mod utf8;
