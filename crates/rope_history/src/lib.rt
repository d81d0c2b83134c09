//! The versions that a text went through, as a tree of changes, and marks that move with the text.
//!
//! A history keeps for each version its parent, the change that made it, and the change that leads
//! back. `undo` and `redo` apply these to the rope; a change that is committed after an `undo`
//! begins a new branch, and the old one is kept. For a rope with the text `"one"`,
//! `History::new(alloc, 3)` has version 0. After `commit` of a change that appends `" two"`,
//! version 1 is current; `undo` makes the text `"one"` again, and `redo` makes it `"one two"`.
//! `go_to` makes any version the current one.
//!
//! Pass the same rope to every call, and edit it through the history alone: a history keeps no text
//! of its own, only the texts that its changes insert and delete.
//!
//! Contracts see a history as its versions, and define the text of each of them from the first text
//! on: the text of its parent with its change run on it. No call changes the text of a version that
//! was there. While the rope has the text of the current version before each call, it has it after
//! each call, also after one that fails.
//!
//! A commit takes memory for the change and its inverse, that is for the inserted and deleted
//! texts, and for the nodes of the rope that it copies. `commit`, `undo` and `redo` take the time
//! of `ChangeSet::apply`, and `commit` also that of `ChangeSet::invert`; `go_to` takes the time of
//! one `ChangeSet::apply` per version it passes. Every other call of a history takes constant time
//! and no memory.
//!
//! Marks are ranges of a text, such as bookmarks and diagnostics, with a side for each end on which
//! it stays where text is inserted there. `Marks::apply` moves them through a change of the text:
//! after `commit` and `redo` pass it `change` of the current version, and after `undo` `inverse` of
//! the version that was left. Contracts see marks as a list in order of the starts.
//!
//! `add` takes memory for one mark and its index; no other call of marks takes any. `get` takes
//! logarithmic time in the number of marks, `add` time for the marks that start later, `remove` for
//! the marks, `apply` for two calls of `ChangeSet::map` per mark and for sorting the marks, which
//! are nearly in order, and a cursor for the marks that it passes.
//!
//! Modules:
//! - `history`: the versions of a text
//! - `marks`: ranges that move with a text
#![tactic(auto)]

mod history;
mod marks;

pub use history::History;
pub use marks::{Mark, Marks, Within};
