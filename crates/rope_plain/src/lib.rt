//! The model that tests share, written from the rules alone: it cites no definition of the crates
//! that it is compared with. It is only proved to be safe and to end.
//!
//! Texts are lists of characters, whose counts and conversions scan all of them. `failure` has the
//! line that explains a failed test, `sums` sums that the prover needn't show to fit. The benchmark
//! draws its numbers from here too.
#![tactic(auto)]

pub mod compare;
pub mod failure;
pub mod numbers;
pub mod pair;
pub mod plain_text;
pub mod sums;
pub mod texts;
