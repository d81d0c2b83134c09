//! The encodings whose code units a position's column can count.

/// The unit of a position's column, as `PositionEncodingKind` of the Language Server Protocol.
#[derive(Clone, Copy, PartialEq, Eq, Hash, Debug)]
pub enum Encoding {
    /// The bytes of UTF-8, `utf-8` in the protocol.
    Utf8,
    /// The code units of UTF-16, `utf-16` in the protocol, which is its default.
    Utf16,
    /// Characters, `utf-32` in the protocol.
    Utf32,
}
