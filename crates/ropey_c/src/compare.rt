//! Comparisons of the texts of ropes, whatever their chunks and their sets of line breaks. No call
//! takes memory.
ghost use Rattle.std.specs.Prelude.{◌≡◌, IsTrue, ◌↔◌, None};
ghost use Rattle.std.specs.Str.{chars, IsUtf8};
ghost use Rattle.rope_text.specs.Compare.{text_cmp};
ghost use Rattle.ropey_c.specs.Handles.{HoldsRope};
ghost use Rattle.ropey_c.specs.Answers.{sign_of, Compares, ComparesText};

use crate::lent::Lent;
use crate::macros::{held, utf8_text};
use crate::status::OK;
use std::cmp::Ordering;

// -1, 0 or 1.
fn sign_of(order: Ordering) -> i32
    ensures { result ≡ sign_of order }
{
    match order {
        Ordering::Less => -1,
        Ordering::Equal => 0,
        Ordering::Greater => 1,
    }
}

/// Writes the lexicographic order of the bytes of two texts: -1 if the rope's comes first, 0 if
/// they are equal, and 1 if the other's comes first. Reads both texts up to the first difference.
///
/// # Errors
///
/// `NO_ROPE_HELD`, where one of the handles holds none. Then nothing is written.
#[unsafe(no_mangle)]
pub extern "C" fn ropey_compare(rope: &Lent, other: &Lent, order: &mut i32) -> u32
    ensures answer { Compares rope.now.rope other.now.rope result order.old order.new }
    ensures kept { HoldsRope rope.now.rope }
{
    let left = held!(rope);
    let right = held!(other);
    *order = sign_of(left.cmp(right));
    OK
}

/// Writes whether the rope's text is this one. Reads both texts up to the first difference.
///
/// # Errors
///
/// `NO_ROPE_HELD`, then `INVALID_UTF8`. Then nothing is written.
#[unsafe(no_mangle)]
pub extern "C" fn ropey_equals_text(rope: &Lent, text: &[u8], equal: &mut bool) -> u32
    ensures answer { ComparesText rope.now.rope text.now result equal.old equal.new }
    ensures kept { HoldsRope rope.now.rope }
{
    let held = held!(rope);
    let text = utf8_text!(text);
    *equal = held.eq_str(text);
    OK
}
