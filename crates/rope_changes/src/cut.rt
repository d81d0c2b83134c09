//! Texts cut at a character.
ghost use Rattle.std.specs.Prelude.{◌≡◌, ◌≤◌, ◌++◌, length};
ghost use Rattle.std.specs.Str.{chars};

use rope_text::str_utils::char_to_byte_idx;

/// Splits a text after `count` characters. Reads the text up to there.
pub(crate) fn split_chars(text: &str, count: usize) -> (&str, &str)
    requires { count ≤ length (chars text.now) }
    ensures parts { chars text.now ≡ chars result.0.now ++ chars result.1.now }
    ensures front { length (chars result.0.now) ≡ count }
{
    let end = char_to_byte_idx(text, count);
    (&text[..end], &text[end..])
}
