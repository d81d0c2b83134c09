//! The line break at the end of a slice, and the slice without it.
//!
//! The first line of `"one\r\ntwo"` is `"one\r\n"`: without its break it is `"one"`, and the break
//! is `"\r\n"`. No call takes memory. A call costs a few lookups, or a count of the text if it is
//! plain, as most lines are.
ghost use Rattle.std.specs.Prelude.{◌≡◌, ◌-◌, ◌≤◌, length};
ghost use Rattle.rope_text.specs.LastBreak.{last_break_len, ends_in_crlf};
ghost use Rattle.rope_text.specs.LineParts.{part_between};
ghost use Rattle.rope_slice.specs.Slice.{content_of, text_of, breaks_of};

use crate::slice::RopeSlice;
use rope_text::str_utils::trim_line_break;

impl<'a> RopeSlice<'a> {
    // Returns whether CR LF ends the text.
    fn ends_in_crlf(&self) -> bool
        ensures { result ≡ ends_in_crlf (text_of self.now) }
    {
        let len = self.len_chars();
        if len < 2 || self.char(len - 2) != '\r' {
            return false;
        }
        self.char(len - 1) == '\n'
    }

    // Returns the number of characters of the line break at the end: 2 for CR LF, 0 for none.
    fn last_break_len(&self) -> usize
        ensures value { result ≡ last_break_len (breaks_of self.now) (text_of self.now) }
        ensures within { result ≤ length (text_of self.now) }
    {
        let breaks = self.line_breaks();
        let len = self.len_chars();
        if len == 0 || !breaks.is_break(self.char(len - 1)) {
            return 0;
        }
        if breaks.is_break('\r') && self.ends_in_crlf() {
            return 2;
        }
        1
    }

    /// Returns the slice without the line break at its end, if there is one. CR LF is one break in
    /// the sets of line breaks that have CR.
    ///
    /// `RopeSlice::from("a\r\n").without_break()` is `"a"`.
    pub fn without_break(&self) -> RopeSlice<'a>
        ensures { content_of result ≡ part_between (content_of self.now) 0
            (length (text_of self.now) - last_break_len (breaks_of self.now) (text_of self.now)) }
    {
        if let RopeSlice::Alone(plain) = self {
            let text = trim_line_break(plain.as_str(), plain.breaks);
            return RopeSlice::from_str_with(text, plain.breaks);
        }
        self.char_range(0, self.len_chars() - self.last_break_len())
    }

    /// Returns the line break at the end of the slice, or an empty slice if there is none. The
    /// slice is `without_break` followed by `line_break`.
    ///
    /// `RopeSlice::from("a\r\n").line_break()` is `"\r\n"`.
    pub fn line_break(&self) -> RopeSlice<'a>
        ensures { content_of result ≡ part_between (content_of self.now)
            (length (text_of self.now) - last_break_len (breaks_of self.now) (text_of self.now))
            (length (text_of self.now)) }
    {
        let len = self.len_chars();
        self.char_range(len - self.last_break_len(), len)
    }
}
