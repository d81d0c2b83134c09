//! Documents of the Language Server Protocol: the changes that client and server send each other.
//!
//! An editor sends a server each edit of a document as a list of content changes. Each of them
//! replaces the text between two positions, or the whole text, and its positions are those of the
//! text that the change before it left. `apply_content_changes` makes such a list of a rope, all
//! of it or nothing, and returns one `ChangeSet` for it, through which indices can be moved and
//! which can be undone. `to_content_changes` makes the list of a change set, for the other side.
//! A peer that holds the same text as the rope and applies the list has the text after the change.
//!
//! For the text `"one\r\ntwo"`, the change of the range from line 0, column 3 to line 1, column 0
//! to `" "` leads to `"one two"`.
//!
//! Positions are read as the protocol reads them: a column past the end of its line is the line's
//! end before its break, and a line past the last one is the end of the text. So no position lies
//! between the CR and the LF of one line break. A replacement that starts or ends there is sent as
//! one of the whole break, with the CR or the LF in its text.
//!
//! The protocol knows LF, CR and CR LF as line breaks and no others: a document is a rope made with
//! `LineBreaks::CrLf`. What is proved holds for any set of line breaks that both sides have.
//!
//! `apply_content_changes` takes memory for the nodes of the rope that it edits and for the change,
//! and time for two edits and some lookups of the rope per content change. The n changes of a list
//! are composed in halves, so each of them is read some log n times. `to_content_changes` takes
//! memory for the list, and for the texts of the replacements that start or end between a CR and
//! its LF; other texts are borrowed from the change. It costs some ten lookups per replacement.
//!
//! Modules, lowest first:
//! - `content_change`: a change as the protocol sends it
//! - `error`: why a call fails
//! - `apply`: lists of changes applied to a rope
//! - `send`: the list of a change
//! - `laws`: a position leads back to its character
#![tactic(auto)]

mod apply;
mod content_change;
mod error;
pub mod laws;
mod send;

pub use apply::apply_content_changes;
pub use content_change::{ContentChange, Range};
pub use error::DocumentError;
pub use send::to_content_changes;
