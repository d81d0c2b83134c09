//! Borrowed texts of leaves and texts to insert: short ones, which fit in a leaf, and medium ones,
//! which are split into several leaves.
ghost use Rattle.std.specs.Prelude.{◌≡◌, ◌+◌, ◌≤◌, true, length, take, drop};
ghost use Rattle.std.specs.Str.{chars, all_scalars, encode_utf8_all, IsCharBoundary, IsUtf8};
ghost use Rattle.rope_text.specs.declared.TheConstants.{MAX_BYTES};
ghost use Rattle.rope_text.specs.Text.{byte_len};
ghost use Rattle.rope_text.specs.Conversions.{char_to_byte};
ghost use Rattle.rope_leaf.specs.declared.TheConstants.{MAX_MEDIUM_BYTES};

use rope_text::str_utils;
use std::marker::Model;

/// A borrowed text of at most `MAX_BYTES` bytes, modelled as the list of its characters.
///
/// If the number of characters is known, an index is found faster: in ASCII it is the byte index,
/// and other texts are scanned from the end that is nearer to the character.
#[derive(Drop)]
pub struct ShortText<'a> {
    pub(crate) text: &'a str,
    /// The number of characters, or `UNCOUNTED`.
    pub(crate) char_count: usize,
}

// More characters than any short text has: they weren't counted.
const UNCOUNTED: usize = usize::MAX;

impl<'a> Model for ShortText<'a> {
    ghost use Rattle.std.specs.Prelude.{ℕ, List};
    ghost use Rattle.std.specs.Str.{chars};
    ghost use Rattle.rope_leaf.specs.Short.{IsShort};

    ghost Value = { List ℕ };

    ghost view = { λ s. chars s.text.now };

    ghost invariant = { IsShort };
}

impl<'a> ShortText<'a> {
    /// Wraps a text of at most `MAX_BYTES` bytes, without counting its characters.
    pub fn new(text: &'a str) -> ShortText<'a>
        requires { length text.now ≤ MAX_BYTES }
        ensures value { result ≡ chars text.now }
        ensures len { byte_len result ≡ length text.now }
    {
        let char_count = UNCOUNTED;
        ShortText { text, char_count }
    }

    /// Returns the text.
    pub fn as_str(&self) -> &'a str
        ensures bytes { result.now ≡ encode_utf8_all self.now }
        ensures chars { chars result.now ≡ self.now }
        ensures fits { byte_len self.now ≤ MAX_BYTES }
        ensures scalars { all_scalars self.now ≡ true }
    {
        self.text
    }

    /// Returns the length in bytes.
    pub fn len(&self) -> usize
        ensures value { result ≡ byte_len self.now }
        ensures fits { result ≤ MAX_BYTES }
    {
        self.as_str().len()
    }

    /// Returns the byte index at which a character starts, or the length if the index is past the
    /// end.
    pub fn char_to_byte_idx(&self, char_idx: usize) -> usize
        ensures value { result ≡ char_to_byte self.now char_idx }
        ensures boundary { IsCharBoundary (encode_utf8_all self.now) result }
    {
        if self.char_count == self.text.len() {
            char_idx.min(self.text.len())
        } else if self.char_count < self.text.len() {
            str_utils::char_to_byte_idx_of(self.text, self.char_count, char_idx)
        } else {
            str_utils::char_to_byte_idx(self.text, char_idx)
        }
    }

    /// Splits the text before a character; past the end, the second part is empty.
    #[inline(always)]
    pub fn split_at_char(&self, char_idx: usize) -> (&'a str, &'a str)
        ensures front { chars result.0.now ≡ take char_idx self.now }
        ensures back { chars result.1.now ≡ drop char_idx self.now }
        ensures utf8 { IsUtf8 result.0.now }
        ensures len { length result.0.now + length result.1.now ≡ byte_len self.now }
        ensures fits { byte_len self.now ≤ MAX_BYTES }
    {
        let text = self.as_str();
        let byte_idx = self.char_to_byte_idx(char_idx);
        (&text[..byte_idx], &text[byte_idx..])
    }

    /// Returns this text as a medium one.
    #[inline(always)]
    pub fn as_medium(&self) -> MediumText<'a>
        ensures value { result ≡ self.now }
    {
        MediumText { text: self.text }
    }
}

/// A borrowed text of at most `MAX_MEDIUM_BYTES` bytes, modelled as the list of its characters.
#[derive(Drop)]
pub struct MediumText<'a> {
    text: &'a str,
}

impl<'a> Model for MediumText<'a> {
    ghost use Rattle.std.specs.Prelude.{ℕ, List};
    ghost use Rattle.std.specs.Str.{chars};
    ghost use Rattle.rope_leaf.specs.Short.{IsMedium};

    ghost Value = { List ℕ };

    ghost view = { λ s. chars s.text.now };

    ghost invariant = { IsMedium };
}

impl<'a> MediumText<'a> {
    /// Wraps a text of at most `MAX_MEDIUM_BYTES` bytes.
    pub fn new(text: &'a str) -> MediumText<'a>
        requires { length text.now ≤ MAX_MEDIUM_BYTES }
        ensures value { result ≡ chars text.now }
        ensures len { byte_len result ≡ length text.now }
    {
        MediumText { text }
    }

    /// Returns the text.
    pub fn as_str(&self) -> &'a str
        ensures bytes { result.now ≡ encode_utf8_all self.now }
        ensures chars { chars result.now ≡ self.now }
        ensures fits { byte_len self.now ≤ MAX_MEDIUM_BYTES }
        ensures scalars { all_scalars self.now ≡ true }
    {
        self.text
    }

    /// Returns the length in bytes.
    pub fn len(&self) -> usize
        ensures value { result ≡ byte_len self.now }
        ensures fits { result ≤ MAX_MEDIUM_BYTES }
    {
        self.as_str().len()
    }

    /// Returns this text as a short one. It has to fit in a leaf.
    pub fn as_short(&self) -> ShortText<'a>
        requires { byte_len self.now ≤ MAX_BYTES }
        ensures { result ≡ self.now }
    {
        ShortText::new(self.text)
    }
}
