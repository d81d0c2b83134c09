//! Ropes written as the bytes of a file in an encoding. No call takes memory.
ghost use Rattle.std.specs.Prelude.{◌≡◌, ◌≢◌, ◌+◌, ◌-◌, ◌^◌, ◌<◌, ◌≤◌, ◌∷◌, ◌++◌, [], min, length, take, drop, None, Some, if◌then◌else◌};
ghost use Rattle.std.specs.Char.Escape.{encode_utf16};
ghost use Rattle.std.specs.List.{flat_map};
ghost use Rattle.rope_files.specs.Encodings.{encode, encode_unmarked, layout_of, low_first, high_first};
ghost use Rattle.rope_files.specs.Writing.{unencodable};
ghost use Rattle.ropey_c.specs.Handles.{HoldsRope};
ghost use Rattle.ropey_c.specs.Files.{given_file_encoding, body_len, spelled, WritesText, WritesAs};

use crate::copies::{copy_chunks, write_at};
use crate::encodings::given_file_encoding;
use crate::lent::Lent;
use crate::macros::{held, some_or};
use crate::status::{BUFFER_TOO_SMALL, OK, UNENCODABLE, UNKNOWN_ENCODING};
use rope_files::Encoding;
use ropey::Rope;

// The number of bytes of the rope's file after its mark, which stops at `usize::MAX`.
fn body_len(rope: &Rope, encoding: Encoding) -> usize
    ensures { result ≡ min (body_len encoding rope.now.text) (2 ^ 64 - 1) }
{
    match encoding {
        Encoding::Utf8 | Encoding::Utf8Bom => rope.len_bytes(),
        Encoding::Latin1 => rope.len_chars(),
        Encoding::Utf16Le | Encoding::Utf16LeBom | Encoding::Utf16Be | Encoding::Utf16BeBom => {
            rope.len_utf16_cu().saturating_mul(2)
        }
    }
}

// The number of bytes of the rope's file, which stops at `usize::MAX`.
fn file_len(rope: &Rope, encoding: Encoding) -> usize
    ensures { result ≡ min (length (encode encoding rope.now.text)) (2 ^ 64 - 1) }
{
    body_len(rope, encoding).saturating_add(encoding.mark().len())
}

// The index of the first character that the encoding has no bytes for.
fn first_unencodable(rope: &Rope, encoding: Encoding) -> Option<usize>
    ensures { result ≡ unencodable encoding rope.now.text }
{
    let Encoding::Latin1 = encoding else {
        return None;
    };
    let len = rope.len_chars();
    let mut left = len;
    for c in rope.chars() {
        if u32::from(c) > 0xFF {
            return Some(len - left);
        }
        left -= 1;
    }
    None
}

// The bytes of a code unit, the high one first or the low one.
fn unit_bytes(unit: u16, is_high_first: bool) -> (u8, u8)
    ensures { result.0 ∷ result.1 ∷ []
        ≡ (if is_high_first then high_first unit else low_first unit) }
{
    let high = (unit / 0x100) as u8;
    let low = (unit % 0x100) as u8;
    if is_high_first {
        (high, low)
    } else {
        (low, high)
    }
}

// The bytes of a character in UTF-16, and their number.
fn spell_units(c: char, is_high_first: bool) -> ([u8; 4], usize)
    ensures within { result.1 ≤ 4 }
    ensures bytes { take result.1 result.0
        ≡ flat_map (λ unit. if is_high_first then high_first unit else low_first unit)
        (encode_utf16 c) }
    ensures count { result.1 ≡ length (take result.1 result.0) }
{
    let code = u32::from(c);
    if code < 0x1_0000 {
        let (first, second) = unit_bytes(code as u16, is_high_first);
        return ([first, second, 0, 0], 2);
    }
    let over = code - 0x1_0000;
    let (first, second) = unit_bytes((0xD800 + over / 0x400) as u16, is_high_first);
    let (third, fourth) = unit_bytes((0xDC00 + over % 0x400) as u16, is_high_first);
    ([first, second, third, fourth], 4)
}

// The bytes of a character in UTF-16 or Latin-1, and their number.
fn spell(c: char, encoding: Encoding) -> ([u8; 4], usize)
    requires laid { layout_of encoding ≢ None }
    requires encodable { encoding ≡ Encoding.Latin1 → c < 0x100 }
    ensures within { result.1 ≤ 4 }
    ensures bytes { take result.1 result.0 ≡ spelled encoding c }
    ensures count { result.1 ≡ length (take result.1 result.0) }
{
    match encoding {
        Encoding::Utf16Le | Encoding::Utf16LeBom => spell_units(c, false),
        Encoding::Utf16Be | Encoding::Utf16BeBom => spell_units(c, true),
        Encoding::Latin1 => ([u32::from(c) as u8, 0, 0, 0], 1),
        Encoding::Utf8 | Encoding::Utf8Bom => unreachable!(),
    }
}

// Writes the text in UTF-16 or Latin-1 over the front of a buffer that has room for it.
fn fill_laid(rope: &Rope, encoding: Encoding, buffer: &mut [u8])
    requires laid { layout_of encoding ≢ None }
    requires room { length (encode_unmarked encoding rope.now.text) ≤ length buffer.old }
    requires encodable { unencodable encoding rope.now.text ≡ None }
    ensures { buffer.new ≡ encode_unmarked encoding rope.now.text
        ++ drop (length (encode_unmarked encoding rope.now.text)) buffer.old }
{
    let mut at = 0;
    for c in rope.chars() {
        let (bytes, len) = spell(c, encoding);
        write_at(buffer, at, &bytes[..len]);
        at += len;
    }
}

// Writes the text after its mark over the front of a buffer that has room for it.
fn fill_body(rope: &Rope, encoding: Encoding, buffer: &mut [u8])
    requires room { length (encode_unmarked encoding rope.now.text) ≤ length buffer.old }
    requires encodable { unencodable encoding rope.now.text ≡ None }
    ensures { buffer.new ≡ encode_unmarked encoding rope.now.text
        ++ drop (length (encode_unmarked encoding rope.now.text)) buffer.old }
{
    match encoding {
        Encoding::Utf8 | Encoding::Utf8Bom => copy_chunks(&rope.slice(..), buffer),
        _ => fill_laid(rope, encoding, buffer),
    }
}

// Writes the file over the front of a buffer that has room for it.
fn fill(rope: &Rope, encoding: Encoding, buffer: &mut [u8])
    requires room { length (encode encoding rope.now.text) ≤ length buffer.old }
    requires encodable { unencodable encoding rope.now.text ≡ None }
    ensures { buffer.new ≡ encode encoding rope.now.text
        ++ drop (length (encode encoding rope.now.text)) buffer.old }
{
    let mark = encoding.mark();
    write_at(buffer, 0, mark);
    fill_body(rope, encoding, &mut buffer[mark.len()..]);
}

fn write(
    rope: &Rope,
    encoding: Encoding,
    buffer: &mut [u8],
    len: &mut usize,
    char_idx: &mut usize,
) -> u32
    ensures { WritesText encoding rope.now.text result buffer.old buffer.new
        len.new char_idx.old char_idx.new }
{
    *len = file_len(rope, encoding);
    if *len > buffer.len() {
        return BUFFER_TOO_SMALL;
    }
    if let Some(index) = first_unencodable(rope, encoding) {
        *char_idx = index;
        return UNENCODABLE;
    }
    fill(rope, encoding, buffer);
    OK
}

/// Writes the text as a file in an encoding, after the encoding's mark, to the front of the buffer,
/// and its number of bytes to `len`. The bytes of the buffer after it stay. Takes time in
/// proportion to the text.
///
/// # Errors
///
/// `NO_ROPE_HELD`, then `UNKNOWN_ENCODING`, which write nothing. Then `BUFFER_TOO_SMALL`, in
/// constant time: the number of bytes is written to `len`, and stops at `usize::MAX`. Then
/// `UNENCODABLE`, where the encoding is Latin-1 and the text has a character above U+00FF: the
/// index of the first one is written to `char_idx`, and nothing to the buffer.
#[unsafe(no_mangle)]
pub extern "C" fn ropey_write_as(
    rope: &Lent,
    encoding: u32,
    buffer: &mut [u8],
    len: &mut usize,
    char_idx: &mut usize,
) -> u32
    ensures answer { WritesAs rope.now.rope (given_file_encoding encoding) result
        buffer.old buffer.new len.old len.new char_idx.old char_idx.new }
    ensures kept { HoldsRope rope.now.rope }
{
    let held = held!(rope);
    let encoding = some_or!(given_file_encoding(encoding), UNKNOWN_ENCODING);
    write(held, encoding, buffer, len, char_idx)
}
