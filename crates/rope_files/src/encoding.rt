//! The encodings of files, and the marks that some of them begin with.
ghost use Rattle.std.specs.Prelude.{◌≡◌, ◌≤◌, length};
ghost use Rattle.rope_files.specs.Encodings.{mark_of, marked_encoding, layout_of};

use crate::layout::{ByteOrder, Layout};

/// How a file's bytes stand for its text. `Bom` is said of a file that begins with a byte order
/// mark.
#[derive(Clone, Copy, PartialEq, Eq, Debug)]
pub enum Encoding {
    /// UTF-8.
    Utf8,
    /// UTF-8 after the mark `EF BB BF`.
    Utf8Bom,
    /// UTF-16, the low byte of each code unit first.
    Utf16Le,
    /// UTF-16 after the mark `FF FE`, the low byte of each code unit first.
    Utf16LeBom,
    /// UTF-16, the high byte of each code unit first.
    Utf16Be,
    /// UTF-16 after the mark `FE FF`, the high byte of each code unit first.
    Utf16BeBom,
    /// A byte for each character: those from U+0000 to U+00FF (ISO/IEC 8859-1).
    Latin1,
}

impl Encoding {
    /// Returns the byte order mark that files in this encoding begin with, empty where there is
    /// none.
    pub fn mark(self) -> &'static [u8]
        ensures mark { result.now ≡ mark_of self }
        ensures few { length result.now ≤ 3 }
    {
        match self {
            Encoding::Utf8Bom => &[0xEF, 0xBB, 0xBF],
            Encoding::Utf16LeBom => &[0xFF, 0xFE],
            Encoding::Utf16BeBom => &[0xFE, 0xFF],
            _ => &[],
        }
    }

    /// Returns the encoding whose mark the bytes begin with, and `Utf8` where they begin with none.
    /// Three bytes are enough to tell.
    pub fn of_mark(bytes: &[u8]) -> Encoding
        ensures { result ≡ marked_encoding bytes.now }
    {
        if bytes.starts_with(&[0xEF, 0xBB, 0xBF]) {
            Encoding::Utf8Bom
        } else if bytes.starts_with(&[0xFF, 0xFE]) {
            Encoding::Utf16LeBom
        } else if bytes.starts_with(&[0xFE, 0xFF]) {
            Encoding::Utf16BeBom
        } else {
            Encoding::Utf8
        }
    }

    // How the bytes of a character lie, `None` for UTF-8.
    pub(crate) fn layout(self) -> Option<Layout>
        ensures { result ≡ layout_of self }
    {
        match self {
            Encoding::Utf8 | Encoding::Utf8Bom => None,
            Encoding::Utf16Le | Encoding::Utf16LeBom => Some(Layout::CodeUnits(ByteOrder::Little)),
            Encoding::Utf16Be | Encoding::Utf16BeBom => Some(Layout::CodeUnits(ByteOrder::Big)),
            Encoding::Latin1 => Some(Layout::Bytes),
        }
    }
}
