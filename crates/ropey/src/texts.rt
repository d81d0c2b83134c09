//! Ropes of owned texts, and of texts that an iterator yields; and a rope's text, copied, shown or
//! borrowed. Copies take time in proportion to the text.
//!
//! `from_str_iter(alloc, ["one\n", "two"])` returns a rope of `"one\ntwo"`; its
//! `try_to_string(alloc)` is that string, and `{rope}` prints it.
ghost use Rattle.std.specs.Prelude.{◌≡◌, IfOk, IfErr, ◌≤◌, ◌↔◌, length, IsOk};
ghost use Rattle.std.specs.Str.{chars};
ghost use Rattle.std.specs.String.{string_bytes};
ghost use Rattle.std.specs.Cow.{cow_str_bytes, IsBorrowedStr, IsOwnedStr};
ghost use Rattle.std.specs.Iterator.{IsFinite, IsFiniteIterable};
ghost use Rattle.rope_text.specs.declared.error.Error.TheVariants.{OutOfMemory};
ghost use Rattle.rope_text.specs.declared.line_breaks.LineBreaks.TheVariants.{Unicode};
ghost use Rattle.ropey.specs.View.{IsBuilt};
ghost use Rattle.ropey.specs.Texts.{YieldsAll, StopsRefused, IsAllOf, IsRefusedOf};

use crate::rope::Rope;
use crate::rope_builder::RopeBuilder;
use rope_text::Result;
use std::alloc::Global;
use std::borrow::CowStr;
use std::convert::AsStr;
use std::fmt;

impl Rope {
    /// Returns a rope of a copy of the owned text, with Unicode's line breaks, as `from_str` does.
    ///
    /// Takes time and memory in proportion to the text.
    ///
    /// With a `String` of `"ab"` it returns a rope of `"ab"`.
    ///
    /// # Errors
    ///
    /// `OutOfMemory`.
    pub fn from_string(alloc: Global, text: String) -> Result<Rope>
        ensures text { IfOk result (λ rope. rope.text ≡ chars (string_bytes text)) }
        ensures kept { IfOk result (IsBuilt Unicode) }
        ensures err { IfErr result (λ e. e ≡ OutOfMemory) }
    {
        Rope::from_str(alloc, text.as_str())
    }

    /// Returns a rope of a copy of the text, borrowed or owned, with Unicode's line breaks, as
    /// `from_str` does.
    ///
    /// Takes time and memory in proportion to the text.
    ///
    /// `Rope::from_cow(alloc, CowStr::Borrowed("ab"))?` is a rope of `"ab"`.
    ///
    /// # Errors
    ///
    /// `OutOfMemory`.
    pub fn from_cow(alloc: Global, cow: CowStr<'_>) -> Result<Rope>
        ensures text { IfOk result (λ rope. rope.text ≡ chars (cow_str_bytes cow.entry)) }
        ensures kept { IfOk result (IsBuilt Unicode) }
        ensures err { IfErr result (λ e. e ≡ OutOfMemory) }
    {
        Rope::from_str(alloc, cow.as_str())
    }

    /// Returns a rope of all texts that the iterator yields, joined, with Unicode's line breaks. It
    /// has at most (n + 980) / 981 chunks for n bytes.
    ///
    /// The iterator must end. Takes time and memory in proportion to the text.
    ///
    /// `Rope::from_str_iter(alloc, ["a", "b"])?` is a rope of `"ab"`.
    ///
    /// # Errors
    ///
    /// `TooLong` at the first text with which there would be more than `isize::MAX` bytes; else
    /// `OutOfMemory`. No text is taken from the iterator after the one that is refused.
    pub fn from_str_iter<'a, I: IntoIterator<Item = &'a str>>(
        alloc: Global,
        iter: I,
    ) -> Result<Rope>
        requires ends { IsFiniteIterable I.into_iter_gives I.IntoIter.can_next
            I.IntoIter.remaining iter }
        ensures text { IfOk result (λ rope.
            IsAllOf I.into_iter_gives I.IntoIter.next_gives (λ x. x.now) iter rope.text) }
        ensures kept { IfOk result (IsBuilt Unicode) }
        ensures refused { IfErr result
            (IsRefusedOf I.into_iter_gives I.IntoIter.next_gives (λ x. x.now) iter) }
    {
        from_texts(alloc, iter)
    }

    /// Returns a rope of all owned texts that the iterator yields, joined, with Unicode's line
    /// breaks. It has at most (n + 980) / 981 chunks for n bytes.
    ///
    /// The iterator must end. Takes time and memory in proportion to the text.
    ///
    /// With strings of `"a"` and `"b"` it returns a rope of `"ab"`.
    ///
    /// # Errors
    ///
    /// `TooLong` at the first text with which there would be more than `isize::MAX` bytes; else
    /// `OutOfMemory`. No text is taken from the iterator after the one that is refused.
    pub fn from_string_iter<I: IntoIterator<Item = String>>(alloc: Global, iter: I) -> Result<Rope>
        requires ends { IsFiniteIterable I.into_iter_gives I.IntoIter.can_next
            I.IntoIter.remaining iter }
        ensures text { IfOk result (λ rope.
            IsAllOf I.into_iter_gives I.IntoIter.next_gives string_bytes iter rope.text) }
        ensures kept { IfOk result (IsBuilt Unicode) }
        ensures refused { IfErr result
            (IsRefusedOf I.into_iter_gives I.IntoIter.next_gives string_bytes iter) }
    {
        from_texts(alloc, iter)
    }

    /// Returns a rope of all texts, borrowed or owned, that the iterator yields, joined, with
    /// Unicode's line breaks. It has at most (n + 980) / 981 chunks for n bytes.
    ///
    /// The iterator must end. Takes time and memory in proportion to the text.
    ///
    /// `Rope::from_cow_iter(alloc, [CowStr::Borrowed("a")])?` is a rope of `"a"`.
    ///
    /// # Errors
    ///
    /// `TooLong` at the first text with which there would be more than `isize::MAX` bytes; else
    /// `OutOfMemory`. No text is taken from the iterator after the one that is refused.
    pub fn from_cow_iter<'a, I: IntoIterator<Item = CowStr<'a>>>(
        alloc: Global,
        iter: I,
    ) -> Result<Rope>
        requires ends { IsFiniteIterable I.into_iter_gives I.IntoIter.can_next
            I.IntoIter.remaining iter }
        ensures text { IfOk result (λ rope.
            IsAllOf I.into_iter_gives I.IntoIter.next_gives cow_str_bytes iter rope.text) }
        ensures kept { IfOk result (IsBuilt Unicode) }
        ensures refused { IfErr result
            (IsRefusedOf I.into_iter_gives I.IntoIter.next_gives cow_str_bytes iter) }
    {
        from_texts(alloc, iter)
    }

    /// Returns a copy of the text as a string. Allocates once.
    ///
    /// With the text `"ab"` it returns a `String` of `"ab"`.
    ///
    /// # Errors
    ///
    /// `OutOfMemory`.
    pub fn try_to_string(&self, alloc: Global) -> Result<String>
        ensures text { IfOk result (λ text. chars (string_bytes text) ≡ self.now.text) }
        ensures err { IfErr result (λ e. e ≡ OutOfMemory) }
    {
        self.whole().try_to_string(alloc)
    }

    /// Returns the text as a string, by the rope's own allocator, and drops the rope, also when it
    /// fails. Allocates once.
    ///
    /// With the text `"ab"` it returns a `String` of `"ab"`.
    ///
    /// # Errors
    ///
    /// `OutOfMemory`.
    pub fn try_into_string(self) -> Result<String>
        ensures text { IfOk result (λ text. chars (string_bytes text) ≡ self.text) }
        ensures err { IfErr result (λ e. e ≡ OutOfMemory) }
    {
        self.try_to_string(self.alloc)
    }

    /// Returns the text: borrowed exactly if the rope has at most one chunk, which never fails;
    /// else a copy.
    ///
    /// With the text `"ab"` it borrows `"ab"`.
    ///
    /// # Errors
    ///
    /// `OutOfMemory`, only if the rope has more than one chunk.
    pub fn try_to_cow(&self, alloc: Global) -> Result<CowStr<'_>>
        ensures text { IfOk result (λ cow. chars (cow_str_bytes cow) ≡ self.now.text) }
        ensures borrowed { IfOk result (λ cow. IsBorrowedStr cow ↔ (length self.now.chunks ≤ 1)) }
        ensures ok { length self.now.chunks ≤ 1 → IsOk result }
        ensures err { IfErr result (λ e. e ≡ OutOfMemory) }
    {
        self.whole().try_to_cow(alloc)
    }

    /// Returns the text as an owned string, as `try_into_string` does.
    ///
    /// With the text `"ab"` it returns an owned `"ab"`.
    ///
    /// # Errors
    ///
    /// `OutOfMemory`.
    pub fn try_into_cow(self) -> Result<CowStr<'static>>
        ensures text { IfOk result (λ cow. chars (cow_str_bytes cow) ≡ self.text) }
        ensures owned { IfOk result IsOwnedStr }
        ensures err { IfErr result (λ e. e ≡ OutOfMemory) }
    {
        Ok(CowStr::Owned(self.try_into_string()?))
    }
}

// Returns a rope of the texts that the iterator yields.
fn from_texts<T: AsStr + Drop, I: IntoIterator<Item = T>>(alloc: Global, iter: I) -> Result<Rope>
    requires ends { IsFiniteIterable I.into_iter_gives I.IntoIter.can_next
        I.IntoIter.remaining iter }
    ensures text { IfOk result (λ rope.
        IsAllOf I.into_iter_gives I.IntoIter.next_gives T.text iter rope.text) }
    ensures kept { IfOk result (IsBuilt Unicode) }
    ensures refused { IfErr result
        (IsRefusedOf I.into_iter_gives I.IntoIter.next_gives T.text iter) }
{
    take_texts(alloc, &mut iter.into_iter())
}

// Returns a rope of the texts that the iterator still yields. After an error no other text is
// taken, so the iterator is left right after the refused one.
fn take_texts<T: AsStr + Drop, I: Iterator<Item = T>>(alloc: Global, texts: &mut I) -> Result<Rope>
    requires can { I.can_next texts.old }
    requires ends { IsFinite (I.remaining texts.old) }
    ensures text { IfOk result (λ rope.
        YieldsAll I.next_gives T.text texts.old texts.new rope.text) }
    ensures kept { IfOk result (IsBuilt Unicode) }
    ensures refused { IfErr result (StopsRefused I.next_gives T.text texts.old texts.new) }
{
    let mut builder = RopeBuilder::new(alloc).unwrap();
    while let Some(text) = texts.next() {
        builder.append(text.as_str())?;
    }
    builder.finish()
}

/// Writes the text. A width, a fill or a precision has no effect.
impl fmt::Display for Rope {
    ghost use Rattle.std.specs.Prelude.{Some};
    ghost use Rattle.ropey.specs.Compared.{bytes_of};

    ghost output = { λ rope. Some (bytes_of rope) };

    ghost styled_output = { λ rope _. Some (bytes_of rope) };

    fn fmt<W: fmt::Write>(&self, f: &mut fmt::Formatter<W>) -> fmt::Result {
        fmt::Display::fmt(&self.whole(), f)
    }
}

/// Writes the list of the chunks, each in quotes.
impl fmt::Debug for Rope {
    fn fmt<W: fmt::Write>(&self, f: &mut fmt::Formatter<W>) -> fmt::Result {
        fmt::Debug::fmt(&self.whole(), f)
    }
}
