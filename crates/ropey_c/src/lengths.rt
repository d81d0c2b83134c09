//! The lengths of a rope. Each takes constant time and no memory, and is 0 if the handle holds no
//! rope.
ghost use Rattle.std.specs.Prelude.{◌≡◌, length, Result, Ok};
ghost use Rattle.rope_text.specs.Text.{byte_len, utf16_len};
ghost use Rattle.rope_text.specs.Lines.{line_count};
ghost use Rattle.ropey_c.specs.Handles.{len_at, HoldsRope};

use crate::lent::Lent;
use crate::macros::some_or;

/// Returns the length in bytes.
#[unsafe(no_mangle)]
pub extern "C" fn ropey_len_bytes(rope: &Lent) -> usize
    ensures len { result ≡ len_at rope.now.rope (λ r. byte_len r.text) }
    ensures kept { HoldsRope rope.now.rope }
{
    some_or!(rope.held(), 0).len_bytes()
}

/// Returns the length in characters.
#[unsafe(no_mangle)]
pub extern "C" fn ropey_len_chars(rope: &Lent) -> usize
    ensures len { result ≡ len_at rope.now.rope (λ r. length r.text) }
    ensures kept { HoldsRope rope.now.rope }
{
    some_or!(rope.held(), 0).len_chars()
}

/// Returns the number of lines: one more than there are line breaks.
#[unsafe(no_mangle)]
pub extern "C" fn ropey_len_lines(rope: &Lent) -> usize
    ensures len { result ≡ len_at rope.now.rope (λ r. line_count r.breaks r.text) }
    ensures kept { HoldsRope rope.now.rope }
{
    some_or!(rope.held(), 0).len_lines()
}

/// Returns the length in UTF-16 code units.
#[unsafe(no_mangle)]
pub extern "C" fn ropey_len_utf16(rope: &Lent) -> usize
    ensures len { result ≡ len_at rope.now.rope (λ r. utf16_len r.text) }
    ensures kept { HoldsRope rope.now.rope }
{
    some_or!(rope.held(), 0).len_utf16_cu()
}
