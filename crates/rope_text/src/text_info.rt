//! The counts of a text: bytes, characters, surrogate pairs and line breaks. No call takes memory.
//!
//! With a set that has CR, `"é\r\n"` has 4 bytes, 3 characters, no surrogate pair and 1 line break.
ghost use Rattle.std.specs.Prelude.{◌≡◌, ◌+◌, ◌<◌, ◌≤◌, ◌^◌, [], ◌++◌, false, length, take, List, ℕ};
ghost use Rattle.std.specs.Str.{chars};
ghost use Rattle.rope_text.specs.Breaks.{break_count};
ghost use Rattle.rope_text.specs.Conversions.{char_to_byte};
ghost use Rattle.rope_text.specs.LineParts.{before_byte, after_byte, first_line, last_line_byte, last_line_info, IsBetween};
ghost use Rattle.rope_text.specs.Cutting.{parts_crlf};
ghost use Rattle.rope_text.specs.Lines.{line_start};
ghost use Rattle.rope_text.specs.TextInfo.{info_of, info_sum, HasSum, HasPart};

use crate::back::back_to_break;
use crate::crlf::is_break;
use crate::lanes::count_all;
use crate::seek::{to_first_break, width_of};
use crate::str_utils::{
    byte_to_char_idx_of, byte_to_line_of, byte_to_surrogates_of, line_to_byte_of,
};
use crate::{LineBreaks, known_set};

/// The numbers of bytes, characters, UTF-16 surrogate pairs and line breaks of a text.
#[derive(Clone, Copy, Debug, Default, PartialEq, Eq)]
pub struct TextInfo {
    /// The number of characters.
    pub chars: usize,
    /// The number of characters that take two UTF-16 code units.
    pub utf16_surrogates: usize,
    /// The number of line breaks of the given set.
    pub break_count: usize,
    /// The number of bytes.
    pub bytes: usize,
}

impl TextInfo {
    /// Returns the counts of the empty text: all 0.
    pub fn new() -> TextInfo
        ensures { (breaks : LineBreaks) → result ≡ info_of breaks [] }
    {
        TextInfo::default()
    }

    /// Returns the counts of a text, in one pass.
    // Never inlined: counting a leaf takes many times as long as the call.
    #[inline(never)]
    pub fn from_str(text: &str, breaks: LineBreaks) -> TextInfo
        ensures { result ≡ info_of breaks (chars text.now) }
    {
        TextInfo::of_short(text, breaks)
    }

    /// Returns the counts of a text that is usually short, such as one inserted or removed.
    // Inlined to avoid a store-forwarding stall on the counts.
    #[inline(always)]
    pub fn of_short(text: &str, breaks: LineBreaks) -> TextInfo
        ensures { result ≡ info_of breaks (chars text.now) }
    {
        count_all(text.as_bytes(), breaks)
    }

    /// Returns the counts of a text up to the end of its first line break, or of all of it, in one
    /// pass up to there.
    // Inlined to avoid a store-forwarding stall on the counts.
    #[inline(always)]
    pub fn of_first_line(text: &str, breaks: LineBreaks) -> TextInfo
        ensures { result ≡ info_of breaks (first_line breaks (chars text.now)) }
    {
        let bytes = text.as_bytes();
        // Each set has a loop of its own: selecting between the masks of three sets is slow.
        let front = known_set!(breaks => to_first_break(bytes, breaks));
        let mut line = TextInfo {
            bytes: front.at,
            chars: front.chars,
            utf16_surrogates: front.pairs,
            break_count: 0,
        };
        if line.bytes < bytes.len() {
            line.bytes += width_of(bytes[line.bytes]);
            line.chars += 1;
            line.break_count = 1;
        }
        line
    }

    /// Finds the start of the last line of the text before the byte `end`, or of the line `skip`
    /// line breaks earlier. Returns the start's byte offset and the counts from there up to `end`.
    /// `end` is inside no character and no CR LF. Reads the text once, backward from `end`.
    // Inlined to avoid a store-forwarding stall on the counts.
    #[inline(always)]
    pub fn of_last_line(
        text: &str,
        end: usize,
        skip: usize,
        breaks: LineBreaks,
    ) -> (usize, TextInfo)
        requires between { IsBetween (chars text.now) end }
        requires apart { parts_crlf (before_byte (chars text.now) end)
            (after_byte (chars text.now) end) ≡ false }
        ensures start { result.0 ≡ last_line_byte breaks (chars text.now) end skip }
        ensures counts { result.1 ≡ last_line_info breaks (chars text.now) end skip }
    {
        let bytes = text.as_bytes();
        let (back, is_found) = known_set!(breaks => back_to_break(bytes, end, skip, breaks));
        let mut start = 0;
        let mut chars = back.chars;
        if is_found {
            start = back.at + width_of(bytes[back.at]);
            chars -= 1;
        }
        let line = TextInfo {
            bytes: end - start,
            chars,
            utf16_surrogates: back.pairs,
            break_count: skip - back.left,
        };
        (start, line)
    }

    /// Returns the counts of the text before the line `line_idx`, which is not the first. The
    /// counts of the whole text are known. Reads the side of that line with fewer line breaks, and
    /// counts no characters in ASCII.
    pub fn before_line(text: &str, info: TextInfo, line_idx: usize, breaks: LineBreaks) -> TextInfo
        requires later { 0 < line_idx }
        requires within { line_idx ≤ break_count breaks (chars text.now) }
        requires info { info ≡ info_of breaks (chars text.now) }
        ensures { result
            ≡ info_of breaks (take (line_start breaks (chars text.now) line_idx) (chars text.now)) }
    {
        let bytes = line_to_byte_of(text, info.break_count, line_idx, breaks);
        let mut front = TextInfo {
            bytes,
            chars: bytes,
            utf16_surrogates: 0,
            break_count: line_idx,
        };
        if info.chars < info.bytes {
            front.chars = byte_to_char_idx_of(text, info.chars, bytes);
            front.utf16_surrogates = byte_to_surrogates_of(text, info.utf16_surrogates, bytes);
        }
        front
    }

    /// Returns the counts of the text before the character `char_idx`, which begins at the byte
    /// `byte_idx`. The counts of the whole text are known. Reads the shorter side, or the front if
    /// the position is inside a CR LF.
    // Inlined to avoid a store-forwarding stall on the counts.
    #[inline(always)]
    pub fn of_front(
        text: &str,
        info: TextInfo,
        char_idx: usize,
        byte_idx: usize,
        breaks: LineBreaks,
    ) -> TextInfo
        requires info { info ≡ info_of breaks (chars text.now) }
        requires within { char_idx ≤ length (chars text.now) }
        requires place { byte_idx ≡ char_to_byte (chars text.now) char_idx }
        ensures { result ≡ info_of breaks (take char_idx (chars text.now)) }
    {
        if !is_break(byte_idx, text.as_bytes()) {
            // Between CR and LF: the CR is a break of the front, but not of the text.
            return TextInfo::from_str(&text[..byte_idx], breaks);
        }
        TextInfo {
            bytes: byte_idx,
            chars: char_idx,
            utf16_surrogates: byte_to_surrogates_of(text, info.utf16_surrogates, byte_idx),
            break_count: byte_to_line_of(text, info.break_count, byte_idx, breaks),
        }
    }

    /// Adds counts. The sums are the counts of the joined text, unless CR meets LF at the seam,
    /// which removes one line break. Each sum is below 2^64.
    pub fn plus(self, other: TextInfo) -> TextInfo
        requires { HasSum self other }
        ensures sum { result ≡ info_sum self other }
        ensures joined { (breaks : LineBreaks) (s t : List ℕ)
            → self ≡ info_of breaks s → other ≡ info_of breaks t → parts_crlf s t ≡ false
            → result ≡ info_of breaks (s ++ t) }
    {
        TextInfo {
            bytes: self.bytes + other.bytes,
            chars: self.chars + other.chars,
            utf16_surrogates: self.utf16_surrogates + other.utf16_surrogates,
            break_count: self.break_count + other.break_count,
        }
    }

    /// Subtracts the counts of a prefix. The differences are the counts of the rest, unless CR
    /// meets LF at the seam. No count of `front` exceeds that of `self`.
    pub fn minus(self, front: TextInfo) -> TextInfo
        requires { HasPart self front }
        ensures sum { info_sum front result ≡ self }
        ensures rest { (breaks : LineBreaks) (s t : List ℕ)
            → self ≡ info_of breaks (s ++ t) → front ≡ info_of breaks s → parts_crlf s t ≡ false
            → result ≡ info_of breaks t }
    {
        TextInfo {
            bytes: self.bytes - front.bytes,
            chars: self.chars - front.chars,
            utf16_surrogates: self.utf16_surrogates - front.utf16_surrogates,
            break_count: self.break_count - front.break_count,
        }
    }
}
