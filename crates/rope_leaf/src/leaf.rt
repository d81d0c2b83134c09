//! Leaves: a text with its counts and its set of line breaks, in a block of 1,024 bytes.
//!
//! The counts come first, in eight bytes: a traversal of leaves reads them and the text, and not
//! the length after the text. An edit changes the counts by sums and differences, so that only the
//! text added or removed is scanned (`leaf_edits`).
//!
//! An insert into a leaf with room moves the text after it once. A leaf without room is split near
//! its middle, where no CR LF is: `cut_in_place` copies the second half into a new leaf, and
//! inserts into one of the two; `cut_anew` first joins the leaf and the new text in a buffer. A
//! removal keeps at least one byte, and as many as the neighbours need.
//!
//! A leaf is changed in place, by its only owner. No call allocates anything but a new leaf, and if
//! that fails, the old one is unchanged.
ghost use Rattle.std.specs.Prelude.{◌≡◌, ◌+◌, ◌<◌, ◌≤◌, [], ◌∷◌, ◌++◌, true, false, max, length, take, drop, IfOk, OnErr, IfSome, IfNone};
ghost use Rattle.std.specs.Str.{chars};
ghost use Rattle.rope_text.specs.Text.{byte_len};
ghost use Rattle.rope_text.specs.TextInfo.{info_of};
ghost use Rattle.rope_text.specs.declared.TheConstants.{MAX_BYTES, MAX_SHORT_BYTES, MIN_TWO_LEAVES_BYTES};
ghost use Rattle.rope_text.specs.Edit.{inserted, removed};
ghost use Rattle.rope_leaf.specs.Tree.{text, leaf_tree, IsTree};
ghost use Rattle.rope_leaf.specs.LeafTree.{IsLeafOf};
ghost use Rattle.rope_leaf.specs.Counted.{AreWithin};
ghost use Rattle.rope_leaf.specs.LeafTree.{IsLeafNode};
ghost use Rattle.rope_leaf.specs.Change.{GrowsBy, FallsBy};
ghost use Rattle.rope_leaf.specs.Insert.{IsInserted};
ghost use Rattle.rope_leaf.specs.Removal.{IsRemoved, Spares};

use crate::beside::Least;
use crate::leaf_edits::{infos_of_parts, keeps_ends, leaf_with, put_in, take_out};
use crate::node_text::{even_halves, halves_of};
use crate::{Made, Maker, NodeText, ShortText};
use rope_text::{LineBreaks, MAX_BYTES, MIN_TWO_LEAVES_BYTES, TextInfo};
use std::alloc::{AllocError, Global};
use std::marker::Model;
use std::rc::Rc;

/// The counts of a leaf's text and its set of line breaks, in eight bytes. No count exceeds the
/// bytes of the text, and a surrogate pair takes four of them.
#[derive(Clone, Copy)]
struct Summary {
    chars: u16,
    break_count: u16,
    bytes: u16,
    utf16_surrogates: u8,
    breaks: LineBreaks,
}

impl Model for Summary {
    ghost use Rattle.rope_leaf.specs.Counted.{Counted};

    ghost Value = { Counted };

    ghost view = { λ a. record {
      breaks = a.breaks;
      info = record {
        chars = a.chars;
        utf16_surrogates = a.utf16_surrogates;
        break_count = a.break_count;
        bytes = a.bytes;
      };
    } };

    ghost inverse = { λ v. record {
      chars = v.info.chars;
      break_count = v.info.break_count;
      bytes = v.info.bytes;
      utf16_surrogates = v.info.utf16_surrogates;
      breaks = v.breaks;
    } };
}

impl Summary {
    /// Packs these counts, made by this set of line breaks.
    fn new(breaks: LineBreaks, info: TextInfo) -> Summary
        requires { AreWithin MAX_BYTES info }
        ensures breaks { result.breaks ≡ breaks }
        ensures info { result.info ≡ info }
    {
        Summary {
            chars: info.chars as u16,
            break_count: info.break_count as u16,
            bytes: info.bytes as u16,
            utf16_surrogates: info.utf16_surrogates as u8,
            breaks,
        }
    }

    /// Returns the counts in words.
    fn info(self) -> TextInfo
        ensures { result ≡ self.info }
    {
        TextInfo {
            chars: usize::from(self.chars),
            utf16_surrogates: usize::from(self.utf16_surrogates),
            break_count: usize::from(self.break_count),
            bytes: usize::from(self.bytes),
        }
    }
}

/// A text of at most `MAX_BYTES` bytes, its counts and its set of line breaks. Modelled as a tree
/// that is a leaf.
#[derive(Drop)]
pub struct Leaf {
    summary: Summary,
    text: NodeText,
}

impl Model for Leaf {
    ghost use Rattle.rope_leaf.specs.Tree.{Tree};

    ghost Value = { Tree };

    ghost use Rattle.rope_leaf.specs.LeafShape.{leaf_of, IsLeaf};

    ghost view = { leaf_of };

    ghost invariant = { IsLeaf };
}

impl Leaf {
    /// Replaces the text by a copy of another, whose counts by this set of line breaks are known.
    fn fill(&mut self, breaks: LineBreaks, text: &str, info: TextInfo)
        requires fits { length text.now ≤ MAX_BYTES }
        requires info { info ≡ info_of breaks (chars text.now) }
        ensures { self.new ≡ leaf_tree breaks (chars text.now) }
    {
        self.summary = Summary::new(breaks, info);
        self.text.set(text);
    }

    /// Allocates a leaf without text, to be filled in place, so that the text is moved once. All
    /// its bytes are 0, so that clearing it is one memset.
    #[inline(always)]
    fn empty(alloc: Global) -> Made<Rc<Leaf>>
        ensures { IfOk result (λ leaf. leaf.value ≡ leaf_tree LineBreaks.Lf []) }
    {
        let empty = Leaf {
            summary: Summary::new(LineBreaks::Lf, TextInfo::new()),
            text: NodeText::new(),
        };
        // Matched by hand: `?` would also move the leaf of a failed allocation on the path that
        // succeeds.
        let Ok(leaf) = Rc::new(alloc, empty) else {
            return Err(AllocError);
        };
        Ok(leaf)
    }

    /// Fills a new leaf with a copy of this text.
    #[inline(always)]
    fn filled(mut leaf: Rc<Leaf>, breaks: LineBreaks, text: &str, info: TextInfo) -> Made<Rc<Leaf>>
        requires fits { length text.now ≤ MAX_BYTES }
        requires info { info ≡ info_of breaks (chars text.now) }
        ensures { IfOk result (λ leaf. leaf.value ≡ leaf_tree breaks (chars text.now)) }
    {
        // It was just made and has no other owner, so this never fails.
        let Some(room) = Rc::get_mut(&mut leaf) else {
            return Err(AllocError);
        };
        room.fill(breaks, text, info);
        Ok(leaf)
    }

    /// Makes a leaf of a copy of this text, whose counts by this set are known.
    pub fn of_text(alloc: Global, breaks: LineBreaks, text: &str, info: TextInfo) -> Made<Rc<Leaf>>
        requires fits { length text.now ≤ MAX_BYTES }
        requires info { info ≡ info_of breaks (chars text.now) }
        ensures { IfOk result (λ leaf. leaf.value ≡ leaf_tree breaks (chars text.now)) }
    {
        Leaf::filled(Leaf::empty(alloc)?, breaks, text, info)
    }

    /// Makes a leaf of a copy of this text, and counts it.
    pub fn counted(alloc: Global, breaks: LineBreaks, text: &str) -> Made<Rc<Leaf>>
        requires { length text.now ≤ MAX_BYTES }
        ensures { IfOk result (λ leaf. leaf.value ≡ leaf_tree breaks (chars text.now)) }
    {
        let leaf = Leaf::empty(alloc)?;
        // Counted only now: the processor counts while the stores that cleared the leaf complete,
        // for which the copy would wait.
        let info = TextInfo::from_str(text, breaks);
        Leaf::filled(leaf, breaks, text, info)
    }

    /// Returns the set of line breaks.
    pub fn line_breaks(&self) -> LineBreaks
        ensures { result ≡ self.now.breaks }
    {
        self.summary.breaks
    }

    /// Returns the counts of the text.
    pub fn info(&self) -> TextInfo
        ensures { result ≡ info_of self.now.breaks (text self.now) }
    {
        self.summary.info()
    }

    /// Returns the text, by counts that the caller knows or reads here: the text's own length is
    /// after its bytes, in a cache line on which a traversal of leaves would miss each time.
    pub fn known_text(&self, info: TextInfo) -> ShortText<'_>
        requires { info ≡ info_of self.now.breaks (text self.now) }
        ensures { IsLeafOf self.now result }
    {
        ShortText {
            text: &self.text.as_str()[..info.bytes],
            char_count: info.chars,
        }
    }

    /// Prefetches the last of `len` bytes, and from `from` on one byte in each cache line, for an
    /// edit that will scan them. The length is the caller's, since a load of the text's own would
    /// miss. Always returns false: callers test the result so that the reads aren't optimized away.
    pub fn touch(&self, from: usize, len: usize) -> bool {
        let bytes = self.text.as_str().as_bytes();
        let len = len.min(MAX_BYTES);
        let mut sum = 0;
        // Each test is a branch, which is predicted: a choice between two addresses would wait for
        // the text's own length.
        if let Some(last) = bytes.get(len.saturating_sub(1)) {
            sum = usize::from(*last);
        }
        let mut at = from;
        while at < len {
            if let Some(byte) = bytes.get(at) {
                sum = sum.wrapping_add(usize::from(*byte));
            }
            at += 64;
        }
        sum == usize::MAX
    }

    /// Inserts a text before the character `at`, if there is room for it. Returns whether it did,
    /// and in `more` by how much the counts grew.
    // Never inlined, so that the frame of its caller, which is recursive, stays small.
    #[inline(never)]
    pub fn insert_in_place(&mut self, at: usize, added: &ShortText<'_>, more: &mut TextInfo) -> bool
        requires within { at ≤ length (text self.old) }
        requires some { 1 ≤ length added.now }
        ensures done { result ≡ true
            → IsInserted self.old (self.new ∷ []) (inserted (text self.old) at added.now) }
        ensures leaf { result ≡ true
            → self.new ≡ leaf_tree self.old.breaks (inserted (text self.old) at added.now) }
        ensures tree { result ≡ true → IsTree self.new }
        ensures change { result ≡ true → GrowsBy more.new self.old self.new }
        ensures kept { result ≡ false → self.new ≡ self.old }
        ensures full { result ≡ false
            → MAX_BYTES < byte_len (text self.old) + byte_len added.now }
    {
        if self.text.len() + added.len() > MAX_BYTES {
            return false;
        }
        let old = self.summary;
        let breaks = old.breaks;
        let before = old.info();
        let after = put_in(&mut self.text, at, added, before, breaks);
        self.summary = Summary::new(breaks, after);
        *more = after.minus(before);
        true
    }

    /// Truncates to the first characters, which take `len` bytes, and whose counts are known.
    fn keep(&mut self, len: usize, info: TextInfo)
        requires len { len ≡ byte_len (take info.chars (text self.old)) }
        requires info { info ≡ info_of self.old.breaks (take info.chars (text self.old)) }
        ensures { self.new ≡ leaf_tree self.old.breaks (take info.chars (text self.old)) }
    {
        let breaks = self.line_breaks();
        self.text.keep_first(info.chars, len);
        self.summary = Summary::new(breaks, info);
    }

    /// Splits the text before the character `at`, if both parts are long enough beside leaves of
    /// `before` and `after` bytes. Keeps the first part, and returns a leaf of the second. Counts
    /// only the shorter part.
    pub fn split(
        &mut self,
        maker: &mut Maker,
        at: usize,
        before: usize,
        after: usize,
    ) -> Made<Option<Rc<Leaf>>>
        requires some { 1 ≤ at }
        requires within { at < length (text self.old) }
        ensures front { IfOk result (λ found. IfSome found
            (λ back. self.new ≡ leaf_tree self.old.breaks (take at (text self.old)))) }
        ensures back { IfOk result (λ found. IfSome found
            (λ back. back.value ≡ leaf_tree self.old.breaks (drop at (text self.old)))) }
        ensures leaf { IfOk result (λ found. IfSome found (λ back. IsLeafNode back.value)) }
        ensures own_leaf { IfOk result (λ found. IfSome found (λ back. IsLeafNode self.new)) }
        ensures long_front { IfOk result (λ found. IfSome found
            (λ back. MIN_TWO_LEAVES_BYTES ≤ before + byte_len (take at (text self.old)))) }
        ensures long_back { IfOk result (λ found. IfSome found
            (λ back. MIN_TWO_LEAVES_BYTES ≤ byte_len (drop at (text self.old)) + after)) }
        ensures kept { IfOk result (λ found. IfNone found (self.new ≡ self.old)) }
        ensures err { OnErr result (self.new ≡ self.old) }
        ensures idle { IfOk result (λ found. IfNone found (maker.new.made ≡ maker.old.made)) }
        ensures made { maker.new.made ≤ maker.old.made + 1 }
    {
        let (breaks, info) = (self.line_breaks(), self.info());
        let leaf = self.known_text(info);
        let place = leaf.char_to_byte_idx(at);
        let text = leaf.as_str();
        let (front, back) = (&text[..place], &text[place..]);
        if before.saturating_add(front.len()) < MIN_TWO_LEAVES_BYTES
            || after.saturating_add(back.len()) < MIN_TWO_LEAVES_BYTES
        {
            return Ok(None);
        }
        let (front_info, back_info) = infos_of_parts(front, back, info, breaks);
        maker.add_made();
        let following = Leaf::of_text(maker.alloc, breaks, back, back_info)?;
        self.keep(place, front_info);
        Ok(Some(following))
    }

    /// Splits a leaf without room and inserts a text before the character `at`, if the leaf splits
    /// evenly with room for the text in each half, and the text isn't inserted at the split. Keeps
    /// the first half here, and returns a leaf with the second. Only the bytes of the second half
    /// and those after the text in its half are moved. Otherwise returns `None`, leaving the leaf
    /// unchanged.
    fn cut_in_place(
        &mut self,
        maker: &mut Maker,
        at: usize,
        added: &ShortText<'_>,
    ) -> Made<Option<Rc<Leaf>>>
        requires some { 1 ≤ length added.now }
        requires within { at ≤ length (text self.old) }
        ensures cut { IfOk result (λ found. IfSome found (λ back. IsInserted self.old
            (self.new ∷ back.value ∷ []) (inserted (text self.old) at added.now))) }
        ensures leaf { IfOk result (λ found. IfSome found (λ back. IsLeafNode back.value)) }
        ensures kept { IfOk result (λ found. IfNone found (self.new ≡ self.old)) }
        ensures err { OnErr result (self.new ≡ self.old) }
        ensures unmade { IfOk result (λ found. IfNone found (maker.new.made ≡ maker.old.made)) }
        ensures made { maker.new.made ≤ maker.old.made + 1 }
    {
        let (breaks, info) = (self.line_breaks(), self.info());
        let text = self.known_text(info).as_str();
        let Some((front, back)) = even_halves(text, added.len()) else {
            return Ok(None);
        };
        let front_info = TextInfo::from_str(front, breaks);
        let (len, chars) = (front.len(), front_info.chars);
        if at == chars {
            return Ok(None);
        }
        maker.add_made();
        let mut leaf = Leaf::of_text(maker.alloc, breaks, back, info.minus(front_info))?;
        // It was just made and has no other owner, so this never fails.
        let Some(following) = Rc::get_mut(&mut leaf) else {
            return Err(AllocError);
        };
        if at > chars {
            following.insert_in_place(at - chars, added, &mut TextInfo::new());
            self.keep(len, front_info);
        } else {
            self.keep(len, front_info);
            self.insert_in_place(at, added, &mut TextInfo::new());
        }
        Ok(Some(leaf))
    }

    /// Splits a leaf without room and inserts a text before the character `at`: joins the two texts
    /// in a buffer, keeps the first half here, and returns a leaf with the second.
    fn cut_anew(&mut self, maker: &mut Maker, at: usize, added: &ShortText<'_>) -> Made<Rc<Leaf>>
        requires full { MAX_BYTES < byte_len (text self.old) + byte_len added.now }
        requires some { 1 ≤ length added.now }
        requires short { byte_len added.now ≤ MAX_SHORT_BYTES }
        ensures cut { IfOk result (λ back. IsInserted self.old
            (self.new ∷ back.value ∷ []) (inserted (text self.old) at added.now)) }
        ensures leaf { IfOk result (λ back. IsLeafNode back.value) }
        ensures err { OnErr result (self.new ≡ self.old) }
        ensures made { maker.new.made ≤ maker.old.made + 1 }
    {
        let old = self.known_text(self.info());
        let breaks = self.line_breaks();
        let (grown, info) = leaf_with(self.info(), &old, at, added, breaks);
        let (front, back) = halves_of(grown.as_str());
        let front_info = TextInfo::from_str(front, breaks);
        let back_info = info.minus(front_info);
        maker.add_made();
        let following = Leaf::of_text(maker.alloc, breaks, back, back_info)?;
        self.fill(breaks, front, front_info);
        Ok(following)
    }

    /// Inserts a text before the character `at` of a leaf without room for it: keeps the first half
    /// here, and returns a leaf with the second. Returns `None`, leaving the leaf unchanged, if
    /// there is room.
    pub fn cut(
        &mut self,
        maker: &mut Maker,
        at: usize,
        added: &ShortText<'_>,
    ) -> Made<Option<Rc<Leaf>>>
        requires within { at ≤ length (text self.old) }
        requires some { 1 ≤ length added.now }
        requires short { byte_len added.now ≤ MAX_SHORT_BYTES }
        ensures cut { IfOk result (λ found. IfSome found (λ back. IsInserted self.old
            (self.new ∷ back.value ∷ []) (inserted (text self.old) at added.now))) }
        ensures leaf { IfOk result (λ found. IfSome found (λ back. IsLeafNode back.value)) }
        ensures kept { IfOk result (λ found. IfNone found (self.new ≡ self.old)) }
        ensures room { IfOk result (λ found. IfNone found
            (byte_len (text self.old) + byte_len added.now ≤ MAX_BYTES)) }
        ensures err { OnErr result (self.new ≡ self.old) }
        ensures unmade { IfOk result (λ found. IfNone found (maker.new.made ≡ maker.old.made)) }
        ensures made { maker.new.made ≤ maker.old.made + 1 }
    {
        if self.text.len() + added.len() <= MAX_BYTES {
            return Ok(None);
        }
        if let Some(half) = self.cut_in_place(maker, at, added)? {
            return Ok(Some(half));
        }
        let following = self.cut_anew(maker, at, added)?;
        Ok(Some(following))
    }

    /// Returns the number of bytes that remain if the characters from `start` up to `end` are
    /// removed. Returns `None` if none remain, or if an LF would be first or a CR last that wasn't.
    pub fn bytes_without(&self, start: usize, end: usize) -> Option<usize>
        requires ordered { start < end }
        requires within { end ≤ length (text self.now) }
        ensures bytes { IfSome result
            (λ kept. kept ≡ byte_len (removed (text self.now) start end)) }
        ensures spares { IfSome result (λ kept. Spares kept start end (text self.now)) }
    {
        let (from, to) = self.text.byte_range(start, end, self.info().chars);
        let text = self.text.as_str();
        let (front, back) = (&text[..from], &text[to..]);
        let kept = front.len() + back.len();
        if kept == 0 || !keeps_ends(front, back) {
            return None;
        }
        Some(kept)
    }

    /// Removes the characters from `start` up to `end`, if the leaf may lose them and keeps enough
    /// bytes. Returns whether it did, and in `less` by how much the counts fell.
    pub fn remove_in_place(
        &mut self,
        start: usize,
        end: usize,
        least: Least,
        less: &mut TextInfo,
    ) -> bool
        requires ordered { start < end }
        requires within { end ≤ length (text self.old) }
        ensures done { result ≡ true
            → IsRemoved least.first least.last self.old self.new start end }
        ensures leaf { result ≡ true
            → self.new ≡ leaf_tree self.old.breaks (removed (text self.old) start end) }
        ensures tree { result ≡ true → IsTree self.new }
        ensures change { result ≡ true → FallsBy less.new self.old self.new }
        ensures kept { result ≡ false → self.new ≡ self.old }
        ensures when { Spares (max least.first least.last) start end (text self.old)
            → result ≡ true }
    {
        let old = self.summary;
        let breaks = old.breaks;
        let least = least.first.max(least.last);
        let before = old.info();
        let Some(after) = take_out(&mut self.text, start, end, least, before, breaks) else {
            return false;
        };
        self.summary = Summary::new(breaks, after);
        *less = before.minus(after);
        true
    }

    /// Moves the first `at` characters to the end of the leaf before this one, if that has room for
    /// them, and the rest is long enough beside a leaf of `after` bytes and doesn't begin with the
    /// LF of a CR LF. Returns whether it did.
    pub fn give_start(&mut self, left: &mut Leaf, at: usize, after: usize) -> bool
        requires some { 1 ≤ at }
        requires within { at < length (text self.old) }
        ensures left { result ≡ true
            → left.new ≡ leaf_tree left.old.breaks (text left.old ++ take at (text self.old)) }
        ensures rest { result ≡ true
            → self.new ≡ leaf_tree self.old.breaks (drop at (text self.old)) }
        ensures left_tree { result ≡ true → IsTree left.new }
        ensures tree { result ≡ true → IsTree self.new }
        ensures long { result ≡ true
            → MIN_TWO_LEAVES_BYTES ≤ byte_len (drop at (text self.old)) + after }
        ensures kept_left { result ≡ false → left.new ≡ left.old }
        ensures kept { result ≡ false → self.new ≡ self.old }
    {
        let Some(bytes) = self.bytes_without(0, at) else {
            return false;
        };
        if bytes.saturating_add(after) < MIN_TWO_LEAVES_BYTES {
            return false;
        }
        let text = self.known_text(self.info());
        let front = ShortText::new(&text.as_str()[..text.char_to_byte_idx(at)]);
        let end = left.info().chars;
        if !left.insert_in_place(end, &front, &mut TextInfo::new()) {
            return false;
        }
        let least = Least { first: 0, last: 0 };
        self.remove_in_place(0, at, least, &mut TextInfo::new())
    }

    /// Moves the characters from `at` on to the start of the leaf after this one, if that has room
    /// for them, and the rest is long enough beside a leaf of `before` bytes and doesn't end in the
    /// CR of a CR LF. Returns whether it did.
    pub fn give_end(&mut self, right: &mut Leaf, at: usize, before: usize) -> bool
        requires within { at < length (text self.old) }
        ensures right { result ≡ true
            → right.new ≡ leaf_tree right.old.breaks (drop at (text self.old) ++ text right.old) }
        ensures rest { result ≡ true
            → self.new ≡ leaf_tree self.old.breaks (take at (text self.old)) }
        ensures right_tree { result ≡ true → IsTree right.new }
        ensures tree { result ≡ true → IsTree self.new }
        ensures long { result ≡ true
            → MIN_TWO_LEAVES_BYTES ≤ before + byte_len (take at (text self.old)) }
        ensures kept_right { result ≡ false → right.new ≡ right.old }
        ensures kept { result ≡ false → self.new ≡ self.old }
    {
        let end = self.info().chars;
        let Some(bytes) = self.bytes_without(at, end) else {
            return false;
        };
        if before.saturating_add(bytes) < MIN_TWO_LEAVES_BYTES {
            return false;
        }
        let text = self.known_text(self.info());
        let back = ShortText::new(&text.as_str()[text.char_to_byte_idx(at)..]);
        if !right.insert_in_place(0, &back, &mut TextInfo::new()) {
            return false;
        }
        let least = Least { first: 0, last: 0 };
        self.remove_in_place(at, end, least, &mut TextInfo::new())
    }
}
