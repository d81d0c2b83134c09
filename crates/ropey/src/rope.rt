//! Making, cloning and measuring ropes. Lengths take constant time and no memory.
//!
//! A rope of `"one\ntwo"` has 7 bytes, 7 characters, 7 UTF-16 code units and 2 lines, in one chunk
//! at depth 0.
ghost use Rattle.std.specs.Prelude.{◌≡◌, ◌+◌, ◌-◌, ◌*◌, ◌<◌, [], length, ◌^◌, min, IfOk, IfErr, OnOk, OnErr};
ghost use Rattle.std.specs.Str.{chars};
ghost use Rattle.rope_text.specs.declared.error.Error.TheVariants.{OutOfMemory};
ghost use Rattle.rope_text.specs.declared.line_breaks.LineBreaks.TheVariants.{Unicode};
ghost use Rattle.rope_text.specs.declared.TheConstants.{MAX_BYTES};
ghost use Rattle.rope_text.specs.Text.{byte_len, utf16_len};
ghost use Rattle.rope_text.specs.Lines.{line_count};
ghost use Rattle.rope_text.specs.Sides.{at_start};
ghost use Rattle.rope_leaf.specs.Tree.{text};
ghost use Rattle.ropey.specs.View.{IsRope, HasFewChunks, IsBuilt};

use crate::iter::Chunks;
use rope_text::{LineBreaks, MAX_BYTES, Result};
use rope_tree::build::build;
use rope_tree::{Builder, Maker, Node, leaf_count};
use std::alloc::{AllocError, Global};
use std::marker::Model;

/// A text of at most `isize::MAX` bytes, cut into chunks of 1 to `MAX_BYTES` bytes, which are the
/// leaves of a balanced tree. No cut is inside a character or between CR and LF.
pub struct Rope {
    pub(crate) root: Node,
    pub(crate) alloc: Global,
}

// Written by hand: a derived drop would be re-proved in each crate that drops a rope, together with
// the drop of the tree.
impl Drop for Rope {
    fn drop(self) {
        let Rope { root: _, alloc: _ } = self;
    }
}

impl Model for Rope {
    ghost use Rattle.rope_leaf.specs.Tree.{IsTree};
    ghost use Rattle.ropey.specs.View.{RopeView, view_of};

    ghost Value = { RopeView };

    ghost view = { λ r. view_of r.root };

    ghost invariant = { λ r. IsTree r.root };
}

/// A clone has its original's text, chunks, set of line breaks and depth. It shares every node with
/// it until one of the two is edited, which leaves the other unchanged. Cloning takes constant
/// time, and may fail with `AllocError`.
impl Clone for Rope {
    ghost use Rattle.std.specs.Prelude.{◌≡◌};

    ghost is_clone = { λ rope clone. clone ≡ rope };

    fn clone(&self) -> std::result::Result<Self, AllocError> {
        Ok(Rope {
            root: self.root.share()?,
            alloc: self.alloc,
        })
    }
}

impl Rope {
    /// Returns a rope of the empty text, with Unicode's line breaks, in no chunk. Takes memory for
    /// one node.
    ///
    /// `Rope::new(alloc)?.len_bytes()` is 0.
    ///
    /// # Errors
    ///
    /// `OutOfMemory`.
    pub fn new(alloc: Global) -> Result<Rope>
        ensures text { IfOk result (λ rope. rope.text ≡ []) }
        ensures chunks { IfOk result (λ rope. rope.chunks ≡ []) }
        ensures kept { IfOk result (IsBuilt Unicode) }
        ensures err { IfErr result (λ e. e ≡ OutOfMemory) }
    {
        Rope::new_with(alloc, LineBreaks::Unicode)
    }

    /// Returns a rope of a copy of the text, with Unicode's line breaks. It has at most (n + 980) /
    /// 981 chunks for n bytes, and takes time and memory in proportion to the text.
    ///
    /// `Rope::from_str(alloc, "a\nb")?.len_lines()` is 2.
    ///
    /// # Errors
    ///
    /// `OutOfMemory`.
    pub fn from_str(alloc: Global, text: &str) -> Result<Rope>
        ensures text { IfOk result (λ rope. rope.text ≡ chars text.now) }
        ensures kept { IfOk result (IsBuilt Unicode) }
        ensures err { IfErr result (λ e. e ≡ OutOfMemory) }
    {
        Rope::from_str_with(alloc, text, LineBreaks::Unicode)
    }

    /// Returns a rope of the empty text, with the given set of line breaks, in no chunk. Takes
    /// memory for one node.
    ///
    /// `Rope::new_with(alloc, LineBreaks::Lf)?.line_breaks()` is `LineBreaks::Lf`.
    ///
    /// # Errors
    ///
    /// `OutOfMemory`.
    pub fn new_with(alloc: Global, breaks: LineBreaks) -> Result<Rope>
        ensures text { IfOk result (λ rope. rope.text ≡ []) }
        ensures chunks { IfOk result (λ rope. rope.chunks ≡ []) }
        ensures kept { IfOk result (IsBuilt breaks) }
        ensures err { IfErr result (λ e. e ≡ OutOfMemory) }
    {
        Rope::from_str_with(alloc, "", breaks)
    }

    /// Returns a rope of a copy of the text, with the given set of line breaks. It has at most (n +
    /// 980) / 981 chunks for n bytes, and takes time and memory in proportion to the text.
    ///
    /// `Rope::from_str_with(alloc, "a\rb", LineBreaks::Lf)?.len_lines()` is 1.
    ///
    /// # Errors
    ///
    /// `OutOfMemory`.
    pub fn from_str_with(alloc: Global, text: &str, breaks: LineBreaks) -> Result<Rope>
        ensures text { IfOk result (λ rope. rope.text ≡ chars text.now) }
        ensures kept { IfOk result (IsBuilt breaks) }
        ensures err { IfErr result (λ e. e ≡ OutOfMemory) }
    {
        let root = build(&mut Maker::new(alloc), text, breaks)?;
        Ok(Rope { root, alloc })
    }

    /// Returns the set of line breaks by which lines are counted.
    /// `Rope::from_str(alloc, "a")?.line_breaks()` is `LineBreaks::Unicode`.
    pub fn line_breaks(&self) -> LineBreaks
        ensures { result ≡ self.now.breaks }
    {
        self.root.line_breaks()
    }

    /// Returns the length in bytes. With the text `"é\n"` it is 3.
    pub fn len_bytes(&self) -> usize
        ensures value { result ≡ byte_len self.now.text }
        ensures kept { IsRope self.now }
    {
        self.root.info().bytes
    }

    /// Returns the length in characters. With the text `"é\n"` it is 2.
    pub fn len_chars(&self) -> usize
        ensures value { result ≡ length self.now.text }
        ensures kept { IsRope self.now }
    {
        self.root.info().chars
    }

    /// Returns the number of lines: one more than the number of line breaks. With the text `"é\n"`
    /// it is 2.
    pub fn len_lines(&self) -> usize
        ensures { result ≡ line_count self.now.breaks self.now.text }
    {
        self.root.info().break_count + 1
    }

    /// Returns the length in UTF-16 code units. With the text `"😀"` it is 2.
    pub fn len_utf16_cu(&self) -> usize
        ensures { result ≡ utf16_len self.now.text }
    {
        let info = self.root.info();
        info.chars + info.utf16_surrogates
    }

    /// Returns the number of levels of the tree above the chunks: 0 for at most one chunk, never
    /// more than 18. With the text `"ab"` it is 0.
    pub fn depth(&self) -> usize
        ensures value { result ≡ self.now.depth }
        ensures kept { IsRope self.now }
    {
        self.root.height()
    }

    /// Returns the number of bytes for which the chunks have room: `MAX_BYTES` for each chunk, and
    /// `usize::MAX` at most. Enters each inner node of the tree once, reads no text and takes no
    /// memory.
    ///
    /// With the text `"ab"` it is 984.
    pub fn capacity(&self) -> usize
        ensures { result ≡ min (MAX_BYTES * length self.now.chunks) (2 ^ 64 - 1) }
    {
        leaf_count(&self.root).saturating_mul(MAX_BYTES)
    }

    /// Re-chunks the text into as few chunks as `from_str` makes: at most (n + 980) / 981 for n
    /// bytes.
    ///
    /// Takes time and memory in proportion to the text.
    ///
    /// With the text `"ab"` it leaves one chunk.
    ///
    /// # Errors
    ///
    /// `OutOfMemory`, which leaves the rope unchanged.
    pub fn shrink_to_fit(&mut self) -> Result<()>
        ensures text { self.new.text ≡ self.old.text }
        ensures breaks { self.new.breaks ≡ self.old.breaks }
        ensures kept { IsRope self.new }
        ensures few { OnOk result (HasFewChunks self.new) }
        ensures refused { IfErr result (λ e. e ≡ OutOfMemory) }
        ensures err { OnErr result (self.new ≡ self.old) }
    {
        let mut builder = Builder::new(self.alloc, self.line_breaks());
        for chunk in self.chunks() {
            // For the proof: `as_bytes` ensures that the chunk is UTF-8, so it has the bytes of its
            // characters.
            let _ = chunk.as_bytes();
            builder.append(chunk)?;
        }
        self.root = builder.finish(&mut Maker::new(self.alloc))?;
        Ok(())
    }

    /// Returns a cursor before the first chunk, facing forward. Costs one lookup; takes no memory.
    ///
    /// With the text `"ab"`, `chunks().next()` is `Some("ab")`.
    pub fn chunks(&self) -> Chunks<'_>
        ensures cut { result ≡ at_start self.now.chunks }
        ensures few { length self.now.chunks < 2 ^ 63 }
    {
        self.whole().chunks()
    }
}
