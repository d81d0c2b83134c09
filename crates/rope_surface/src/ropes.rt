//! Ropes: made, built, measured, compared and given out as texts.
ghost use Rattle.std.specs.Prelude.{◌≡◌, ◌*◌, ◌-◌, ◌^◌, ◌↔◌, ◌++◌, [], length, min, IfOk, IsOk, IsTrue, OnOk};
ghost use Rattle.std.specs.Cmp.{IsTotalOrder};
ghost use Rattle.std.specs.Cow.{cow_str_bytes};
ghost use Rattle.std.specs.Str.{chars};
ghost use Rattle.std.specs.String.{string_bytes};
ghost use Rattle.rope_text.specs.Compare.{text_cmp};
ghost use Rattle.rope_text.specs.Lines.{line_count};
ghost use Rattle.rope_text.specs.Text.{byte_len, utf16_len};
ghost use Rattle.rope_slice.specs.Slice.{text_of};

use ropey::{CowStr, LineBreaks, Result, Rope, RopeBuilder, RopeSlice, laws};
use std::alloc::{AllocError, Global};
use std::cmp::Ordering;
use std::fmt::{Debug, Display};
use std::hash::{Hash, Hasher};

/// Makes an empty rope.
pub fn new(alloc: Global) -> Result<Rope>
    ensures { IfOk result (λ rope. rope.text ≡ []) }
{
    Rope::new(alloc)
}

/// Makes an empty rope with a set of line breaks.
pub fn new_with(alloc: Global, breaks: LineBreaks) -> Result<Rope>
    ensures { IfOk result (λ rope. rope.breaks ≡ breaks) }
{
    Rope::new_with(alloc, breaks)
}

/// Makes a rope of a text.
pub fn from_str(alloc: Global, text: &str) -> Result<Rope>
    ensures { IfOk result (λ rope. rope.text ≡ chars text.now) }
{
    Rope::from_str(alloc, text)
}

/// Makes a rope of a text with a set of line breaks.
pub fn from_str_with(alloc: Global, text: &str, breaks: LineBreaks) -> Result<Rope>
    ensures { IfOk result (λ rope. rope.text ≡ chars text.now) }
{
    Rope::from_str_with(alloc, text, breaks)
}

/// Makes a rope of an owned text.
pub fn from_string(alloc: Global, text: String) -> Result<Rope>
    ensures { IfOk result (λ rope. rope.text ≡ chars (string_bytes text)) }
{
    Rope::from_string(alloc, text)
}

/// Makes a rope of a borrowed text.
pub fn from_borrowed(alloc: Global, text: &str) -> Result<Rope>
    ensures { IfOk result (λ rope. rope.text ≡ chars text.now) }
{
    Rope::from_cow(alloc, CowStr::Borrowed(text))
}

/// Makes a rope of an owned text, as a `CowStr`.
pub fn from_owned(alloc: Global, text: String) -> Result<Rope>
    ensures { IfOk result (λ rope. rope.text ≡ chars (string_bytes text)) }
{
    Rope::from_cow(alloc, CowStr::Owned(text))
}

/// Makes a rope of a slice.
pub fn from_slice(alloc: Global, slice: RopeSlice<'_>) -> Result<Rope>
    ensures { IfOk result (λ rope. rope.text ≡ text_of slice.entry) }
{
    Rope::from_slice(alloc, slice)
}

/// Makes a rope of the texts of an iterator.
pub fn from_str_iter(alloc: Global, texts: [&str; 2]) -> Result<Rope> {
    Rope::from_str_iter(alloc, texts)
}

/// Makes a rope of the owned texts of an iterator.
pub fn from_string_iter(alloc: Global, texts: [String; 2]) -> Result<Rope> {
    Rope::from_string_iter(alloc, texts)
}

/// Makes a rope of the texts of an iterator, each borrowed or owned.
pub fn from_cow_iter(alloc: Global, texts: [CowStr<'_>; 2]) -> Result<Rope> {
    Rope::from_cow_iter(alloc, texts)
}

/// Clones a rope.
pub fn clone(rope: &Rope) -> std::result::Result<Rope, AllocError>
    ensures { IfOk result (λ copy. copy ≡ rope.now) }
{
    rope.clone()
}

/// Makes a builder, and one with a set of line breaks.
pub fn builders(alloc: Global, breaks: LineBreaks) -> (Result<RopeBuilder>, Result<RopeBuilder>)
    ensures new { IsOk result.0 }
    ensures with { IfOk result.1 (λ builder. builder.breaks ≡ breaks) }
{
    (
        RopeBuilder::new(alloc),
        RopeBuilder::new_with(alloc, breaks),
    )
}

/// Adds a text to a builder.
pub fn append_text(builder: &mut RopeBuilder, text: &str) -> Result<()>
    ensures { OnOk result (builder.new.text ≡ builder.old.text ++ chars text.now) }
{
    builder.append(text)
}

/// Finishes a builder.
pub fn finish(builder: RopeBuilder) -> Result<Rope>
    ensures { IfOk result (λ rope. rope.text ≡ builder.text) }
{
    builder.finish()
}

/// Prints how far a builder is.
pub fn print_builder(
    alloc: Global,
    builder: &RopeBuilder,
) -> std::result::Result<String, AllocError> {
    format!(in alloc; "{builder:?}")
}

/// Returns the lengths of a rope.
pub fn lengths(rope: &Rope) -> (usize, usize, usize, usize)
    ensures bytes { result.0 ≡ byte_len rope.now.text }
    ensures characters { result.1 ≡ length rope.now.text }
    ensures lines { result.2 ≡ line_count rope.now.breaks rope.now.text }
    ensures units { result.3 ≡ utf16_len rope.now.text }
{
    (
        rope.len_bytes(),
        rope.len_chars(),
        rope.len_lines(),
        rope.len_utf16_cu(),
    )
}

/// Returns the depth, the capacity and the set of line breaks of a rope.
pub fn shape(rope: &Rope) -> (usize, usize, LineBreaks)
    ensures depth { result.0 ≡ rope.now.depth }
    ensures capacity { result.1 ≡ min (984 * length rope.now.chunks) (2 ^ 64 - 1) }
    ensures breaks { result.2 ≡ rope.now.breaks }
{
    (rope.depth(), rope.capacity(), rope.line_breaks())
}

/// Copies a rope's text into a string.
pub fn to_string(rope: &Rope, alloc: Global) -> Result<String>
    ensures { IfOk result (λ text. chars (string_bytes text) ≡ rope.now.text) }
{
    rope.try_to_string(alloc)
}

/// Turns a rope into a string.
pub fn into_string(rope: Rope) -> Result<String>
    ensures { IfOk result (λ text. chars (string_bytes text) ≡ rope.text) }
{
    rope.try_into_string()
}

/// Returns a rope's text, borrowed or owned.
pub fn to_cow(rope: &Rope, alloc: Global) -> Result<CowStr<'_>>
    ensures { IfOk result (λ cow. chars (cow_str_bytes cow) ≡ rope.now.text) }
{
    rope.try_to_cow(alloc)
}

/// Turns a rope into an owned text.
pub fn into_cow(rope: Rope) -> Result<CowStr<'static>>
    ensures { IfOk result (λ cow. chars (cow_str_bytes cow) ≡ rope.text) }
{
    rope.try_into_cow()
}

/// Compares a rope with a text.
pub fn is_text(rope: &Rope, text: &str) -> bool
    ensures { IsTrue result ↔ (rope.now.text ≡ chars text.now) }
{
    rope.eq_str(text)
}

/// Orders two ropes.
pub fn order(rope: &Rope, other: &Rope) -> Ordering
    ensures { result ≡ text_cmp rope.now.text other.now.text }
{
    rope.cmp(other)
}

/// Compares two values by each operator.
fn is_equal<T: Eq>(value: &T, other: &T) -> bool {
    value == other
}

/// Orders two values, of which the order may be partial.
fn is_less<T: PartialOrd>(value: &T, other: &T) -> bool {
    value < other
}

/// Hashes a value.
fn hash<T: Hash, H: Hasher>(value: &T, hasher: &mut H) {
    value.hash(hasher);
}

/// Prints a value.
fn print<T: Display + Debug>(alloc: Global, value: &T) -> std::result::Result<String, AllocError> {
    format!(in alloc; "{value} {value:?}")
}

/// Compares two ropes, and two slices.
pub fn compare(rope: &Rope, other: &Rope, slice: &RopeSlice<'_>) -> (bool, bool, bool, bool) {
    (
        is_equal(rope, other),
        is_less(rope, other),
        is_equal(slice, slice),
        is_less(slice, slice),
    )
}

/// Holds by the law of comparisons.
pub fn texts_are_compared()
    ensures { IsTotalOrder ⟦<Rope as Ord>⟧.cmp }
{
    laws::texts_are_compared();
}

/// Hashes a rope and a slice.
pub fn hash_both<H: Hasher>(rope: &Rope, slice: &RopeSlice<'_>, hasher: &mut H) {
    hash(rope, hasher);
    hash(slice, hasher);
}

/// Prints a rope.
pub fn print_rope(alloc: Global, rope: &Rope) -> std::result::Result<String, AllocError> {
    print(alloc, rope)
}

/// Prints a slice.
pub fn print_slice(
    alloc: Global,
    slice: &RopeSlice<'_>,
) -> std::result::Result<String, AllocError> {
    print(alloc, slice)
}
