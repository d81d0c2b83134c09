//! Tests of edits of ropes, against lists of characters.
//!
//! No contract shows these:
//! - a call succeeds if there is memory, and rows worked by hand come out;
//! - a rope has few chunks after many edits;
//! - a counted edit counts each node and comparison.
//!
//! The proofs show these too, and they are run to test the compiler: each edit gives its text, with
//! its lengths and lookups, and clones don't change.
//!
//! Edits of short texts and of 2^62 bytes are in crates/rope/stdin, which needs no proof.
#![tactic(auto)]

#[cfg(test)]
mod counts;
#[cfg(test)]
mod edits;
#[cfg(test)]
mod long_removals;
#[cfg(test)]
mod long_ropes;
#[cfg(test)]
mod pairs;
#[cfg(test)]
mod random_edits;
#[cfg(test)]
mod removals;
#[cfg(test)]
mod short_chunks;
#[cfg(test)]
mod shrinking;
#[cfg(test)]
mod texts;
