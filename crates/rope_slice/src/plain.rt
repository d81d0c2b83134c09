//! A plain text, with its counts.
ghost use Rattle.std.specs.Prelude.{◌≡◌, ◌+◌, ◌<◌, ◌^◌, drop};
ghost use Rattle.std.specs.Str.{chars};
ghost use Rattle.rope_text.specs.Text.{byte_len};
ghost use Rattle.rope_text.specs.TextInfo.{info_of};
ghost use Rattle.rope_text.specs.Lines.{line_count};
ghost use Rattle.rope_slice.specs.Edge.{line_info, IsInfo-prop};

use rope_text::{LineBreaks, TextInfo};

/// The position of a line: the counts of the text before it, and before the next line or, for the
/// last one, those of all of the text; and the rest of the chunk from the line's start on.
#[derive(Clone, Copy)]
pub(crate) struct LinePlace<'a> {
    pub start: TextInfo,
    pub end: TextInfo,
    pub held: &'a str,
}

/// A plain text, with its counts by a set of line breaks.
#[derive(Clone, Copy)]
pub struct Plain<'a> {
    pub text: &'a str,
    pub info: TextInfo,
    pub breaks: LineBreaks,
    ghost counted: { info ≡ info_of breaks (chars text.now) } by { IsInfo-prop _ _ _ },
}

impl<'a> Plain<'a> {
    ghost use Rattle.rope_slice.specs.Plain.{text_of};

    /// Returns the text.
    pub(crate) fn as_str(&self) -> &'a str
        ensures { chars result.now ≡ text_of self.now }
    {
        self.text
    }

    /// Returns the counts of the text before a line; past the last line those of all of it.
    pub(crate) fn before_line(&self, line_idx: usize) -> TextInfo
        ensures { result ≡ line_info self.now.breaks (text_of self.now) line_idx }
    {
        if line_idx == 0 {
            return TextInfo::new();
        }
        if line_idx > self.info.break_count {
            return self.info;
        }
        TextInfo::before_line(self.as_str(), self.info, line_idx, self.breaks)
    }

    /// Returns the counts of the text before a line and before the next one, and the text from the
    /// line on. Past the last line the counts are those of all of the text.
    pub(crate) fn around_line(&self, line_idx: usize) -> LinePlace<'a>
        requires within { line_idx < line_count self.now.breaks (text_of self.now) }
        requires fits { byte_len (text_of self.now) < 2 ^ 63 }
        ensures start { result.start ≡ line_info self.now.breaks (text_of self.now) line_idx }
        ensures end { result.end ≡ line_info self.now.breaks (text_of self.now) (line_idx + 1) }
        ensures held { chars result.held.now ≡ drop result.start.chars (text_of self.now) }
    {
        let start = self.before_line(line_idx);
        let held = &self.as_str()[start.bytes..];
        let line = TextInfo::of_first_line(held, self.breaks);
        let end = start.plus(line);
        LinePlace { start, end, held }
    }
}
