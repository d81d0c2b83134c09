//! Tests of changes, histories, marks, documents and files, and of the proved callers.
//!
//! No contract shows these:
//! - a call succeeds if there is memory, and rows worked by hand come out;
//! - random changes of long ropes agree with lists of characters, random versions with a tree of
//!   texts, and random marks with a list of ranges;
//! - two ropes that exchange lists of changes have one text;
//! - a reader that gives a file in pieces, or fails, is read to its end or its error;
//! - the callers of docs/CALLING.md run.
#![tactic(auto)]

#[cfg(test)]
mod applied;
#[cfg(test)]
mod caller_edits;
#[cfg(test)]
mod caller_questions;
#[cfg(test)]
mod callers;
#[cfg(test)]
mod changes;
#[cfg(test)]
mod documents;
#[cfg(test)]
mod files;
#[cfg(test)]
mod history;
#[cfg(test)]
mod makers;
#[cfg(test)]
mod marks;
#[cfg(test)]
mod versions;
