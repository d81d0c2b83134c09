//! Conversions between the indices of a plain text. An index past the end counts as the end, and
//! lines are those of Unicode's line breaks.
pub use rope_text::str_utils::{
    byte_to_char_idx, byte_to_line_idx, char_to_byte_idx, char_to_line_idx, line_to_byte_idx,
    line_to_char_idx,
};
