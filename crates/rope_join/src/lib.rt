//! Splits and joins of trees. Where their nodes have other owners, the results share these.
//!
//! Modules, lowest first:
//! - `cut`: the front and the back of a split tree, and the range between two indices
//! - `join`: two trees as one
//! - `gap`: a tree without a range of its characters
//! - `long_edits`: inserts, removals and appends that change more than one leaf
#![tactic(auto)]

pub mod cut;
mod gap;
pub mod join;
pub mod long_edits;
