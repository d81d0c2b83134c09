//! A slice's text copied, borrowed or shown.
ghost use Rattle.std.specs.Prelude.{◌≡◌, ◌≤◌, ◌↔◌, ◌++◌, length, IsOk, IfOk, IfErr, OnOk};
ghost use Rattle.std.specs.Cow.{cow_str_bytes, IsBorrowedStr};
ghost use Rattle.std.specs.Str.{chars, encode_utf8_all};
ghost use Rattle.std.specs.String.{string_bytes};
ghost use Rattle.std.specs.Fmt.{WritesOnOk, WritesStyledOnOk};
ghost use Rattle.rope_text.specs.declared.error.Error.TheVariants.{OutOfMemory};
ghost use Rattle.rope_slice.specs.Slice.{text_of, chunks_of};

use crate::slice::RopeSlice;
use rope_text::Result;
use std::alloc::{AllocError, Global};
use std::borrow::CowStr;
use std::fmt;

// Appends a chunk to the text. The contract is about characters, as the chunks of a cursor are.
fn push_chunk(text: &mut String, chunk: &str) -> std::result::Result<(), AllocError>
    ensures { OnOk result
        (string_bytes text.new ≡ string_bytes text.old ++ encode_utf8_all (chars chunk.now)) }
{
    text.push_str(chunk)
}

// Writes a chunk. The contract is about characters, as the chunks of a cursor are.
fn show_chunk<W: fmt::Write>(chunk: &str, f: &mut fmt::Formatter<W>) -> fmt::Result
    ensures writes { WritesOnOk W.write_str_gives f.old result
        (encode_utf8_all (chars chunk.now)) f.new }
    ensures styled { WritesStyledOnOk W.write_str_gives f.old result
        (encode_utf8_all (chars chunk.now)) f.new }
{
    f.write_str(chunk)
}

impl<'a> RopeSlice<'a> {
    /// Returns a copy of the text as a string. Takes time in proportion to the text, and allocates
    /// once.
    ///
    /// `RopeSlice::from("ab").try_to_string(alloc)` is `Ok` of a `String` of `"ab"`.
    ///
    /// # Errors
    ///
    /// `OutOfMemory`.
    pub fn try_to_string(&self, alloc: Global) -> Result<String>
        ensures text { IfOk result (λ text. chars (string_bytes text) ≡ text_of self.now) }
        ensures err { IfErr result (λ e. e ≡ OutOfMemory) }
    {
        let mut text = String::with_capacity(alloc, self.len_bytes())?;
        for chunk in self.chunks() {
            push_chunk(&mut text, chunk)?;
        }
        Ok(text)
    }

    /// Returns the text: borrowed exactly if the slice has at most one chunk, which never fails;
    /// else a copy.
    ///
    /// `RopeSlice::from("ab").try_to_cow(alloc)` is a borrowed text.
    ///
    /// # Errors
    ///
    /// `OutOfMemory`, only if the slice has more than one chunk.
    pub fn try_to_cow(&self, alloc: Global) -> Result<CowStr<'a>>
        ensures text { IfOk result (λ cow. chars (cow_str_bytes cow) ≡ text_of self.now) }
        ensures borrowed { IfOk result (λ cow.
            IsBorrowedStr cow ↔ (length (chunks_of self.now) ≤ 1)) }
        ensures ok { length (chunks_of self.now) ≤ 1 → IsOk result }
        ensures err { IfErr result (λ e. e ≡ OutOfMemory) }
    {
        if let Some(text) = self.as_str() {
            return Ok(CowStr::Borrowed(text));
        }
        Ok(CowStr::Owned(self.try_to_string(alloc)?))
    }
}

/// Writes the text. A width, a fill or a precision has no effect.
impl<'a> fmt::Display for RopeSlice<'a> {
    ghost use Rattle.std.specs.Prelude.{Some};
    ghost use Rattle.rope_slice.specs.Slice.{bytes_of};

    ghost output = { λ slice. Some (bytes_of slice) };

    ghost styled_output = { λ slice _. Some (bytes_of slice) };

    fn fmt<W: fmt::Write>(&self, f: &mut fmt::Formatter<W>) -> fmt::Result {
        for chunk in self.chunks() {
            show_chunk(chunk, f)?;
        }
        Ok(())
    }
}

/// Writes the list of the chunks, each in quotes.
impl<'a> fmt::Debug for RopeSlice<'a> {
    fn fmt<W: fmt::Write>(&self, f: &mut fmt::Formatter<W>) -> fmt::Result {
        f.debug_list().entries(self.chunks()).finish()
    }
}
