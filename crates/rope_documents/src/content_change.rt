//! A change of a document, as the Language Server Protocol sends it.

use rope_position::Position;
use std::borrow::CowStr;

/// The part of a document between two positions, `Range` in the protocol.
#[derive(Clone, Copy, PartialEq, Eq, Hash, Debug)]
pub struct Range {
    /// The position at which it starts.
    pub start: Position,
    /// The position at which it ends.
    pub end: Position,
}

/// A replacement of a part of a document, `TextDocumentContentChangeEvent` in the protocol.
#[derive(Debug, Drop)]
pub struct ContentChange<'a> {
    /// The part that is replaced, or `None` for the whole document.
    pub range: Option<Range>,
    /// The text that replaces it.
    pub text: CowStr<'a>,
}
