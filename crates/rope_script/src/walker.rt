//! Cursors of every kind, as one trait whose steps return items of replies.
ghost use Rattle.std.specs.Prelude.{◌≡◌, List, [], ◌∷◌, Option, IfErr, IfOk};
ghost use Rattle.rope_text.specs.declared.error.Error.TheVariants.{OutOfMemory};
ghost use Rattle.rope_script.specs.declared.script.Item as items;
ghost use Rattle.rope_script.specs.declared.script.Move as moves;

use crate::script::{Item, Move};
use crate::shown::copy_of;
use ropey::Result;
use ropey::iter::{Bytes, Chars, Chunks, Lines};
use std::alloc::Global;

/// A cursor that makes moves.
pub(crate) trait Walker {
    ghost gives: { Self → List moves.Move → List (Option items.Item) → Type 0 };

    /// Returns the next item, or `None` at the end.
    fn next_item(&mut self, alloc: Global) -> Result<Option<Item>>
        ensures item { IfOk result
            (λ item. (moves : List moves.Move) (items : List (Option items.Item))
            → gives self.new moves items → gives self.old (Move.Next ∷ moves) (item ∷ items)) }
        ensures memory { IfErr result (λ e. e ≡ OutOfMemory) };

    /// Returns the previous item, or `None` at the start.
    fn prev_item(&mut self, alloc: Global) -> Result<Option<Item>>
        ensures item { IfOk result
            (λ item. (moves : List moves.Move) (items : List (Option items.Item))
            → gives self.new moves items → gives self.old (Move.Prev ∷ moves) (item ∷ items)) }
        ensures memory { IfErr result (λ e. e ≡ OutOfMemory) };

    /// Reverses the direction.
    fn turn(&mut self)
        ensures { (moves : List moves.Move) (items : List (Option items.Item))
            → gives self.new moves items → gives self.old (Move.Reverse ∷ moves) items };

    ghost ends: { (s : Self) → gives s [] [] };
}

impl<'a> Walker for Bytes<'a> {
    ghost use Rattle.rope_text.specs.Sides.{cursor_of};
    ghost use Rattle.rope_script.specs.Walk.{Gives, IsByteItem};

    ghost gives = { λ bytes. Gives IsByteItem (cursor_of bytes) };

    ghost ends = { λ bytes. tt };

    fn next_item(&mut self, _: Global) -> Result<Option<Item>> {
        match self.next() {
            Some(byte) => Ok(Some(Item::Byte(byte))),
            None => Ok(None),
        }
    }

    fn prev_item(&mut self, _: Global) -> Result<Option<Item>> {
        match self.prev() {
            Some(byte) => Ok(Some(Item::Byte(byte))),
            None => Ok(None),
        }
    }

    fn turn(&mut self) {
        self.reverse();
    }
}

impl<'a> Walker for Chars<'a> {
    ghost use Rattle.rope_text.specs.Sides.{cursor_of};
    ghost use Rattle.rope_script.specs.Walk.{Gives, IsCharItem};

    ghost gives = { λ chars. Gives IsCharItem (cursor_of chars) };

    ghost ends = { λ chars. tt };

    fn next_item(&mut self, _: Global) -> Result<Option<Item>> {
        match self.next() {
            Some(c) => Ok(Some(Item::Char(c))),
            None => Ok(None),
        }
    }

    fn prev_item(&mut self, _: Global) -> Result<Option<Item>> {
        match self.prev() {
            Some(c) => Ok(Some(Item::Char(c))),
            None => Ok(None),
        }
    }

    fn turn(&mut self) {
        self.reverse();
    }
}

impl<'a> Walker for Chunks<'a> {
    ghost use Rattle.rope_text.specs.Sides.{cursor_of};
    ghost use Rattle.rope_script.specs.Walk.{Gives, IsTextItem};

    ghost gives = { λ chunks. Gives IsTextItem (cursor_of chunks) };

    ghost ends = { λ chunks. tt };

    fn next_item(&mut self, alloc: Global) -> Result<Option<Item>> {
        match self.next() {
            Some(chunk) => Ok(Some(Item::Text(copy_of(alloc, chunk)?))),
            None => Ok(None),
        }
    }

    fn prev_item(&mut self, alloc: Global) -> Result<Option<Item>> {
        match self.prev() {
            Some(chunk) => Ok(Some(Item::Text(copy_of(alloc, chunk)?))),
            None => Ok(None),
        }
    }

    fn turn(&mut self) {
        self.reverse();
    }
}

impl<'a> Walker for Lines<'a> {
    ghost use Rattle.rope_text.specs.Sides.{cursor_of};
    ghost use Rattle.rope_script.specs.Walk.{Gives, IsLineItem};

    ghost gives = { λ lines. Gives IsLineItem (cursor_of lines) };

    ghost ends = { λ lines. tt };

    fn next_item(&mut self, alloc: Global) -> Result<Option<Item>> {
        match self.next() {
            Some(line) => Ok(Some(Item::Text(line.try_to_string(alloc)?))),
            None => Ok(None),
        }
    }

    fn prev_item(&mut self, alloc: Global) -> Result<Option<Item>> {
        match self.prev() {
            Some(line) => Ok(Some(Item::Text(line.try_to_string(alloc)?))),
            None => Ok(None),
        }
    }

    fn turn(&mut self) {
        self.reverse();
    }
}
