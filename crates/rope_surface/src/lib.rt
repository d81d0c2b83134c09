//! Every public item of `ropey`, `rope_position`, `rope_script`, `rope_protocol`, `rope_changes`,
//! `rope_history`, `rope_documents` and `rope_files`, used under its name, with its arguments in
//! their order and with its types.
//!
//! This crate fails to compile if an item is renamed or dropped, if a call takes an argument more
//! or less, or if an argument, a field or a result has another type. Where two of them have the
//! same type, a clause says which is which, and the prover refuses the two exchanged. Add a caller
//! with every new public item; change a caller only where the public surface is to change.
//!
//! Left out is what `ropey` alone takes from `rope_slice`: `RopeSlice::of_node` and the variants of
//! `RopeSlice`.
//!
//! Modules:
//! - `texts`: plain texts, sets of line breaks, sizes, counts of steps, index ranges
//! - `errors`: the variants of `Error`
//! - `ropes`: ropes made, built, measured, compared and given out
//! - `edits`, `rope_lookups`, `rope_parts`: edits, look-ups, and slices and cursors of ropes
//! - `slices`, `slice_lookups`, `slice_parts`: the calls of slices
//! - `cursors`: the four cursors
//! - `devices`: readers and writers
//! - `positions`: positions in lines
//! - `commands`: commands, replies, and the line language
//! - `changes`: changes as values, the laws of changes
//! - `history`: histories of a text, and marks
//! - `documents`: content changes of a language server
//! - `files`: files in their encodings
#![tactic(auto)]

pub mod changes;
pub mod commands;
pub mod cursors;
pub mod devices;
pub mod documents;
pub mod edits;
pub mod errors;
pub mod files;
pub mod history;
pub mod positions;
pub mod rope_lookups;
pub mod rope_parts;
pub mod ropes;
pub mod slice_lookups;
pub mod slice_parts;
pub mod slices;
pub mod texts;
