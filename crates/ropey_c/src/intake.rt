//! Bytes that arrive in pieces, cut anywhere, and become a rope.
ghost use Rattle.std.specs.Prelude.{◌≡◌, ◌≢◌, ◌+◌, ◌-◌, ◌<◌, ◌≤◌, ◌++◌, length, take, Some, None, IfOk, OnOk};
ghost use Rattle.std.specs.Bool.{MatchBool};
ghost use Rattle.std.specs.Str.{chars};
ghost use Rattle.std.specs.Str.Lossy.{utf8_valid_len};
ghost use Rattle.rope_text.specs.declared.error.Error.TheVariants.{TooLong};
ghost use Rattle.rope_text.specs.Edit.{size_error};
ghost use Rattle.rope_text.specs.Read.{text_front, text_rest};
ghost use Rattle.rope_text.specs.Text.{byte_len};
ghost use Rattle.ropey_c.specs.Intake.{nothing_taken, Takes, Finishes};
ghost use Rattle.ropey_c.specs.Status.{IsStatus};

use crate::status::{INVALID_UTF8, OK, OUT_OF_MEMORY, TOO_LONG, status_of};
use rope_text::{LineBreaks, MAX_TEXT_BYTES, utf8};
use ropey::{Result, Rope, RopeBuilder};
use std::alloc::Global;
use std::marker::Model;

/// A builder that takes bytes: whole characters go to a builder of ropes, and up to 3 bytes of a
/// character that isn't whole yet wait for the next ones. Contracts see the text, the bytes that
/// wait, and the error, if there was one.
#[derive(Drop)]
pub struct Intake {
    texts: RopeBuilder,
    // How many bytes the text has.
    taken: usize,
    rest: [u8; 3],
    rest_len: usize,
    refused: u32,
}

impl Model for Intake {
    ghost use Rattle.std.specs.Prelude.{take};
    ghost use Rattle.ropey_c.specs.Intake.{Taking, IsIntake};

    ghost Value = { Taking };

    ghost view = { λ i. record {
      text = i.texts.text;
      rest = take i.rest_len i.rest;
      breaks = i.texts.breaks;
      refused = i.refused;
    } };

    ghost invariant = { λ i. IsIntake i.texts i.taken i.rest i.rest_len i.refused };
}

// Appends two texts to a builder.
fn append_both(texts: &mut RopeBuilder, first: &str, second: &str) -> Result<()>
    ensures ok { OnOk result
        ((texts.new.text ≡ texts.old.text ++ chars first.now ++ chars second.now)
        × (texts.new.failed ≡ None)) }
    ensures breaks { texts.new.breaks ≡ texts.old.breaks }
{
    texts.append(first)?;
    texts.append(second)
}

impl Intake {
    pub(crate) fn new(alloc: Global, breaks: LineBreaks) -> Result<Intake>
        ensures { IfOk result (λ made. made ≡ nothing_taken breaks) }
    {
        Ok(Intake {
            texts: RopeBuilder::new_with(alloc, breaks)?,
            taken: 0,
            rest: [0; 3],
            rest_len: 0,
            refused: OK,
        })
    }

    // Remembers an error.
    fn refuse(&mut self, status: u32) -> u32
        requires { 0 < status }
        ensures result { result ≡ status }
        ensures state { self.new ≡ record self.old { refused = status } }
    {
        self.refused = status;
        status
    }

    // Returns whether the text may grow by `len` bytes.
    fn has_room(&self, len: usize) -> bool
        requires { self.now.refused ≡ OK }
        ensures { MatchBool result (size_error (byte_len self.now.text + len) ≡ None)
            (size_error (byte_len self.now.text + len) ≡ Some TooLong) }
    {
        len <= MAX_TEXT_BYTES - self.taken
    }

    // Appends `text`, at most four bytes, and then `bytes`. Finds bytes that are no text, and a
    // text that grows too long, before it takes memory.
    fn settle(&mut self, text: &str, bytes: &[u8], valid: &mut usize) -> u32
        requires open { self.old.refused ≡ OK }
        requires short { length text.now ≤ 4 }
        ensures faulty { 4 ≤ length (text_rest bytes.now) → result ≡ INVALID_UTF8 }
        ensures fine { length (text_rest bytes.now) < 4 → IsStatus (size_error
            (byte_len self.old.text + (length text.now + length (text_front bytes.now)))) result }
        ensures place { result ≡ INVALID_UTF8
            → valid.new ≡ byte_len self.old.text + (length text.now + utf8_valid_len bytes.now) }
        ensures kept { result ≢ INVALID_UTF8 → valid.new ≡ valid.old }
        ensures taken { result ≡ OK
            → (self.new.text ≡ self.old.text ++ chars text.now ++ chars (text_front bytes.now))
            × (self.new.rest ≡ text_rest bytes.now) }
        ensures refused { self.new.refused ≡ result }
        ensures breaks { self.new.breaks ≡ self.old.breaks }
    {
        let front = utf8::front(bytes);
        let left = &bytes[front.len()..];
        let len = text.len() + front.len();
        if left.len() > 3 {
            *valid = self.taken + len;
            return self.refuse(INVALID_UTF8);
        }
        if !self.has_room(len) {
            return self.refuse(TOO_LONG);
        }
        let Ok(()) = append_both(&mut self.texts, text, front) else {
            self.refused = OUT_OF_MEMORY;
            return OUT_OF_MEMORY;
        };
        self.taken += len;
        self.rest[..left.len()].copy_from_slice(left);
        self.rest_len = left.len();
        OK
    }

    // Returns the bytes that wait, followed by `bytes`, four in all at most; and their number.
    fn four(&self, bytes: &[u8]) -> ([u8; 4], usize)
        ensures within { result.1 ≤ 4 }
        ensures waiting { length self.now.rest ≤ 3 }
        ensures no_text { utf8_valid_len self.now.rest ≡ 0 }
        ensures bytes { take result.1 result.0
            ≡ self.now.rest ++ take (4 - length self.now.rest) bytes.now }
    {
        let more = bytes.len().min(4 - self.rest_len);
        let len = self.rest_len + more;
        let mut four = [0; 4];
        four[..self.rest_len].copy_from_slice(&self.rest[..self.rest_len]);
        four[self.rest_len..len].copy_from_slice(&bytes[..more]);
        (four, len)
    }

    // Appends bytes after those that wait. Four bytes show whether these begin a character.
    fn join(&mut self, bytes: &[u8], valid: &mut usize) -> u32
        requires open { self.old.refused ≡ OK }
        requires some { 0 < length bytes.now }
        ensures { Takes self.old bytes.now result valid.old valid.new self.new }
    {
        let (four, len) = self.four(bytes);
        let head = &four[..len];
        let first = utf8::front(head);
        if first.is_empty() {
            return self.settle("", head, valid);
        }
        self.settle(first, &bytes[first.len() - self.rest_len..], valid)
    }

    // Takes the bytes that follow, and writes the index of the first that can't be text.
    pub(crate) fn append(&mut self, bytes: &[u8], valid: &mut usize) -> u32
        ensures { Takes self.old bytes.now result valid.old valid.new self.new }
    {
        if self.refused != OK {
            return self.refused;
        }
        if bytes.is_empty() {
            return OK;
        }
        if self.rest_len > 0 {
            return self.join(bytes, valid);
        }
        self.settle("", bytes, valid)
    }

    // Returns the rope of all bytes that were taken.
    pub(crate) fn finish(self, valid: &mut usize) -> std::result::Result<Rope, u32>
        ensures { Finishes self result valid.old valid.new }
    {
        if self.refused != OK {
            return Err(self.refused);
        }
        if self.rest_len > 0 {
            *valid = self.taken;
            return Err(INVALID_UTF8);
        }
        match self.texts.finish() {
            Ok(rope) => Ok(rope),
            Err(error) => Err(status_of(error)),
        }
    }
}
