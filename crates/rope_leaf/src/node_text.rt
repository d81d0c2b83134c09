//! The text of a leaf, edited in place, and the positions at which longer texts are split.
ghost use Rattle.std.specs.Prelude.{◌≡◌, ℕ, ◌+◌, ◌<◌, ◌≤◌, ◌++◌, [], true, length, take, IsTrue, IfSome};
ghost use Rattle.std.specs.List.{insert_slice, remove_range};
ghost use Rattle.std.specs.Str.{chars, all_scalars, IsCharBoundary, encode_utf8_all};
ghost use Rattle.rope_text.specs.declared.TheConstants.{MAX_BYTES, MAX_JOINED_BYTES, MIN_CUT_BYTES};
ghost use Rattle.rope_text.specs.Text.{byte_len};
ghost use Rattle.rope_text.specs.Cuts.{is_cut};
ghost use Rattle.rope_leaf.specs.Halves.{AreHalves};

use arrayvec::{ArrayString, ArrayVec};
use rope_text::crlf::{next_break, prev_break};
use rope_text::str_utils::char_to_byte_idx_of;
use rope_text::{MAX_BYTES, MAX_JOINED_BYTES, MIN_HALF_BYTES};
use std::marker::Model;
use std::str;

/// Concatenates three texts.
pub fn text_of_parts<const N: usize>(first: &str, second: &str, third: &str) -> ArrayString<N>
    requires { (length first.now + length second.now) + length third.now ≤ N }
    ensures { result.bytes ≡ first.now ++ (second.now ++ third.now) }
{
    let mut text = ArrayString::new();
    text.push_str(first);
    text.push_str(second);
    text.push_str(third);
    text
}

// A buffer for the bytes of a leaf.
type LeafBytes = ArrayVec<u8, MAX_BYTES>;

// Appends bytes.
fn append_bytes(bytes: &mut LeafBytes, added: &[u8])
    requires { length bytes.old.items + length added.now ≤ MAX_BYTES }
    ensures { bytes.new.items ≡ bytes.old.items ++ added.now }
{
    match bytes.try_extend_from_slice(added) {
        Ok(()) => {}
        Err(_) => unreachable!(),
    }
}

// Inserts bytes before the one at `place` of the first `old_len`. The bytes after it move up by the
// number of bytes inserted.
fn put_in_gap(bytes: &mut [u8], place: usize, old_len: usize, added: &[u8])
    requires place { place ≤ old_len }
    requires len { length bytes.old ≡ old_len + length added.now }
    ensures { bytes.new ≡ insert_slice (take old_len bytes.old) place added.now }
{
    let end = place + added.len();
    bytes.copy_within(place..old_len, end);
    bytes[place..end].copy_from_slice(added);
}

// Inserts bytes before the one at `place`. The bytes after it move once.
fn put_bytes(bytes: &mut LeafBytes, place: usize, added: &[u8])
    requires place { place ≤ length bytes.old.items }
    requires fits { length bytes.old.items + length added.now ≤ MAX_BYTES }
    ensures { bytes.new.items ≡ insert_slice bytes.old.items place added.now }
{
    if added.len() == 1 {
        // Mostly a typed character: the rest moves by one byte, a constant, and so by one call.
        bytes.insert(place, added[0]);
        return;
    }
    let old_len = bytes.len();
    append_bytes(bytes, added);
    put_in_gap(bytes.as_mut_slice(), place, old_len, added);
}

/// Splits a text that is too long for a leaf near its middle, so that each half fits in a leaf and
/// has at least `MIN_HALF_BYTES` bytes. No CR LF is split.
pub fn halves_of(text: &str) -> (&str, &str)
    requires long { MAX_BYTES < length text.now }
    requires short { length text.now ≤ MAX_JOINED_BYTES }
    ensures { AreHalves 0 text.now result.0.now result.1.now }
{
    let cut = next_break(text.len() / 2 - 2, text.as_bytes());
    (&text[..cut], &text[cut..])
}

/// Splits the text of a leaf near its middle, so that each half has at least `MIN_HALF_BYTES`
/// bytes, and room for `room` more. No CR LF is split. Returns `None` if the legal position next to
/// the middle gives no such halves.
pub fn even_halves(text: &str, room: usize) -> Option<(&str, &str)>
    ensures { IfSome result (λ halves. AreHalves room text.now halves.0.now halves.1.now) }
{
    let cut = next_break(text.len() / 2, text.as_bytes());
    let back = &text[cut..];
    let most = MAX_BYTES.saturating_sub(room);
    if cut < MIN_HALF_BYTES || back.len() < MIN_HALF_BYTES || cut.max(back.len()) > most {
        return None;
    }
    Some((&text[..cut], back))
}

/// A text of at most `MAX_BYTES` bytes, kept in the struct itself. Modelled as the list of its
/// characters. No call allocates.
#[derive(Drop)]
pub struct NodeText {
    bytes: LeafBytes,
}

impl Model for NodeText {
    ghost use Rattle.std.specs.Prelude.{◌≡◌, ℕ, List, true, ◌≤◌, length};
    ghost use Rattle.std.specs.List.{insert_slice};
    ghost use Rattle.std.specs.Str.{chars, is_utf8};
    ghost use Rattle.rope_text.specs.declared.TheConstants.{MAX_BYTES};

    ghost Value = { List ℕ };

    ghost view = { λ s. chars s.bytes.items };

    ghost invariant = { λ s. (is_utf8 s.bytes.items ≡ true) × (length s.bytes.items ≤ MAX_BYTES) };
}

impl NodeText {
    /// Creates an empty text.
    pub fn new() -> Self
        ensures { result ≡ [] }
    {
        NodeText {
            bytes: ArrayVec::new(),
        }
    }

    /// Copies a text of at most `MAX_BYTES` bytes.
    pub fn from_str(text: &str) -> Self
        requires { length text.now ≤ MAX_BYTES }
        ensures value { result ≡ chars text.now }
        ensures len { byte_len result ≡ length text.now }
    {
        let mut copy = NodeText::new();
        copy.push_str(text);
        copy
    }

    /// Returns the text.
    pub fn as_str(&self) -> &str
        ensures bytes { result.now ≡ encode_utf8_all self.now }
        ensures chars { chars result.now ≡ self.now }
        ensures fits { byte_len self.now ≤ MAX_BYTES }
        ensures scalars { all_scalars self.now ≡ true }
    {
        // The type's invariant says that they are UTF-8, so they aren't checked again.
        unsafe { str::from_utf8_unchecked(self.bytes.as_slice()) }
    }

    /// Returns the length in bytes.
    pub fn len(&self) -> usize
        ensures value { result ≡ byte_len self.now }
        ensures fits { result ≤ MAX_BYTES }
    {
        self.as_str().len()
    }

    /// Inserts `added` where a character starts, or at the end. The bytes after it move once.
    #[inline(always)]
    pub fn insert_bytes(&mut self, place: usize, added: &str)
        requires boundary { IsCharBoundary (encode_utf8_all self.old) place }
        requires fits { byte_len self.old + length added.now ≤ MAX_BYTES }
        ensures value { self.new ≡ chars (insert_slice (encode_utf8_all self.old) place added.now) }
        ensures len { byte_len self.new ≡ byte_len self.old + length added.now }
        ensures scalars { all_scalars self.new ≡ true }
    {
        put_bytes(&mut self.bytes, place, added.as_bytes());
    }

    /// Replaces the text by another of at most `MAX_BYTES` bytes.
    pub fn set(&mut self, text: &str)
        requires { length text.now ≤ MAX_BYTES }
        ensures { self.new ≡ chars text.now }
    {
        self.bytes.clear();
        append_bytes(&mut self.bytes, text.as_bytes());
    }

    /// Appends `text`.
    pub fn push_str(&mut self, text: &str)
        requires { byte_len self.old + length text.now ≤ MAX_BYTES }
        ensures value { self.new ≡ self.old ++ chars text.now }
        ensures len { byte_len self.new ≡ byte_len self.old + length text.now }
    {
        append_bytes(&mut self.bytes, text.as_bytes());
    }

    /// Returns the byte range of the characters from `start` up to `end`. `chars` is the number of
    /// characters of the text: if the text is ASCII, nothing is scanned.
    pub fn byte_range(&self, start: usize, end: usize, chars: usize) -> (usize, usize)
        requires ordered { start ≤ end }
        requires chars { chars ≡ length self.now }
        ensures from { result.0 ≡ byte_len (take start self.now) }
        ensures to { result.1 ≡ byte_len (take end self.now) }
        ensures ordered { result.0 ≤ result.1 }
        ensures from_boundary { IsCharBoundary (encode_utf8_all self.now) result.0 }
        ensures to_boundary { IsCharBoundary (encode_utf8_all self.now) result.1 }
    {
        let text = self.as_str();
        if chars == text.len() {
            return (start.min(chars), end.min(chars));
        }
        let from = char_to_byte_idx_of(text, chars, start);
        let rest = chars.saturating_sub(start);
        let to = from + char_to_byte_idx_of(&text[from..], rest, end - start);
        (from, to)
    }

    /// Removes a range of whole characters, given in bytes. The bytes after it move once.
    pub fn remove_bytes(&mut self, from: usize, to: usize)
        requires ordered { from ≤ to }
        requires from { IsCharBoundary (encode_utf8_all self.old) from }
        requires to { IsCharBoundary (encode_utf8_all self.old) to }
        ensures value { self.new ≡ chars (remove_range (encode_utf8_all self.old) from to) }
        ensures scalars { all_scalars self.new ≡ true }
    {
        let len = self.bytes.len();
        self.bytes.as_mut_slice().copy_within(to..len, from);
        self.bytes.truncate(len - (to - from));
    }

    /// Truncates to the first `chars` characters, which take `len` bytes. Nothing moves.
    pub fn keep_first(&mut self, chars: usize, len: usize)
        requires { len ≡ byte_len (take chars self.old) }
        ensures value { self.new ≡ take chars self.old }
        ensures scalars { all_scalars self.new ≡ true }
    {
        self.bytes.truncate(len);
    }
}

/// Returns the length of the first leaf of a longer text: the last position of at most `MAX_BYTES`
/// at which it may be split.
pub fn first_leaf_len(text: &str) -> usize
    requires { MAX_BYTES < length text.now }
    ensures boundary { IsCharBoundary text.now result }
    ensures cut { is_cut text.now result ≡ true }
    ensures long { MIN_CUT_BYTES ≤ result }
    ensures short { result ≤ MAX_BYTES }
    ensures last { (k : ℕ) → k ≤ MAX_BYTES → IsTrue (is_cut text.now k) → k ≤ result }
{
    prev_break(MAX_BYTES + 1, text.as_bytes())
}
