//! Ropes made of texts that are passed in one after the other.
//!
//! After `append("one\n")` and `append("two")`, `finish` returns a rope of `"one\ntwo"`.
ghost use Rattle.std.specs.Prelude.{◌≡◌, ◌++◌, [], Some, None, length, IsOk, IfOk, IfErr, OnOk};
ghost use Rattle.std.specs.Str.{chars};
ghost use Rattle.rope_text.specs.declared.line_breaks.LineBreaks.TheVariants.{Unicode};
ghost use Rattle.rope_text.specs.Edit.{IsRefusal};
ghost use Rattle.ropey.specs.Building.{text_error};
ghost use Rattle.ropey.specs.View.{IsBuilt};

use crate::rope::Rope;
use rope_text::{Error, LineBreaks, Result};
use rope_tree::{Builder, Maker};
use std::alloc::Global;
use std::fmt;
use std::marker::Model;

/// A builder of a rope from consecutive texts, without a second copy of the whole text. Contracts
/// see it as the text so far, the set of line breaks, and its first error, if there was one.
#[derive(Drop)]
pub struct RopeBuilder {
    builder: Builder,
    failed: Option<Error>,
    alloc: Global,
}

impl Model for RopeBuilder {
    ghost use Rattle.ropey.specs.Building.{Building};

    ghost Value = { Building };

    ghost view = { λ b.
        record { text = b.builder.text; breaks = b.builder.breaks; failed = b.failed } };
}

impl RopeBuilder {
    /// Returns a builder without text, whose rope will have Unicode's line breaks. Always succeeds,
    /// and takes no memory. `RopeBuilder::new(alloc)?.finish()?` is an empty rope.
    pub fn new(alloc: Global) -> Result<RopeBuilder>
        ensures ok { IsOk result }
        ensures text { IfOk result (λ builder. builder.text ≡ []) }
        ensures breaks { IfOk result (λ builder. builder.breaks ≡ Unicode) }
        ensures failed { IfOk result (λ builder. builder.failed ≡ None) }
    {
        RopeBuilder::new_with(alloc, LineBreaks::Unicode)
    }

    /// Returns a builder without text, whose rope will have the given set of line breaks. Always
    /// succeeds, and takes no memory. `RopeBuilder::new_with(alloc,
    /// LineBreaks::Lf)?.finish()?.line_breaks()` is `LineBreaks::Lf`.
    pub fn new_with(alloc: Global, breaks: LineBreaks) -> Result<RopeBuilder>
        ensures ok { IsOk result }
        ensures text { IfOk result (λ builder. builder.text ≡ []) }
        ensures breaks { IfOk result (λ builder. builder.breaks ≡ breaks) }
        ensures failed { IfOk result (λ builder. builder.failed ≡ None) }
    {
        Ok(RopeBuilder {
            builder: Builder::new(alloc, breaks),
            failed: None,
            alloc,
        })
    }

    /// Appends a text to those passed in before.
    ///
    /// Takes time in proportion to the appended text, and memory for its full chunks; an empty text
    /// takes none unless an earlier call failed.
    ///
    /// After `append("a")?` and `append("b")?`, `finish()?` returns a rope of `"ab"`.
    ///
    /// # Errors
    ///
    /// First the error of an earlier call; then `TooLong`, if all texts so far would have more than
    /// `isize::MAX` bytes; then `OutOfMemory`. After an error every later call returns that error.
    pub fn append(&mut self, text: &str) -> Result<()>
        ensures ok { OnOk result ((text_error self.old (length text.now) ≡ None)
            × (self.new.text ≡ self.old.text ++ chars text.now) × (self.new.failed ≡ None)) }
        ensures refused { IfErr result (IsRefusal (text_error self.old (length text.now))) }
        ensures failed { IfErr result (λ e. self.new.failed ≡ Some e) }
        ensures empty { self.old.failed ≡ None → length text.now ≡ 0 → IsOk result }
        ensures breaks { self.new.breaks ≡ self.old.breaks }
    {
        if let Some(error) = self.failed {
            return Err(error);
        }
        let appended = self.builder.try_append(text);
        self.failed = appended.err();
        appended
    }

    /// Returns the rope of the texts passed in, in at most (n + 980) / 981 chunks for n bytes.
    /// Takes memory for the last chunks and the nodes above them.
    ///
    /// After `append("ab")?`, `finish()?` returns a rope of `"ab"`.
    ///
    /// # Errors
    ///
    /// First the error of an earlier call, then `OutOfMemory`.
    pub fn finish(self) -> Result<Rope>
        ensures text { IfOk result (λ rope. rope.text ≡ self.text) }
        ensures kept { IfOk result (IsBuilt self.breaks) }
        ensures whole { IfOk result (λ _. self.failed ≡ None) }
        ensures refused { IfErr result (IsRefusal self.failed) }
    {
        if let Some(error) = self.failed {
            return Err(error);
        }
        let alloc = self.alloc;
        let root = self.builder.finish(&mut Maker::new(alloc))?;
        Ok(Rope { root, alloc })
    }
}

/// Prints the number of bytes passed in, and the builder's error, if there was one; no text.
impl fmt::Debug for RopeBuilder {
    fn fmt<W: fmt::Write>(&self, f: &mut fmt::Formatter<W>) -> fmt::Result {
        f.debug_struct("RopeBuilder")
            .field("len_bytes", &self.builder.len_bytes())
            .field("failed", &self.failed)
            .finish()
    }
}
