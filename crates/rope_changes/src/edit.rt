//! The replacement of one range.

/// A range of characters, and the text that replaces it.
#[derive(Clone, Copy, Debug, PartialEq, Eq)]
pub struct Edit<'a> {
    /// The index of the first character that is replaced.
    pub start: usize,
    /// The index after the last character that is replaced.
    pub end: usize,
    /// The text that replaces them.
    pub text: &'a str,
}
