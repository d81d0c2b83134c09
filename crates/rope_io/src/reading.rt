//! Texts read to the reader's end.
ghost use Rattle.std.specs.Prelude.{◌≡◌, ◌+◌, ◌-◌, ◌^◌, ◌<◌, ◌≤◌, ◌/◌, ◌++◌, false, [], length, take, OnOk, IfOk, IfErr};
ghost use Rattle.std.specs.Str.{IsUtf8, encode_utf8_all};
ghost use Rattle.rope_text.specs.declared.TheConstants.{MIN_CUT_BYTES};
ghost use Rattle.rope_text.specs.Text.{byte_len};
ghost use Rattle.rope_text.specs.Edit.{size_error, IsRefusal};
ghost use Rattle.rope_text.specs.Read.{text_front, text_rest};
ghost use Rattle.rope_leaf.specs.Tree.{text, IsTree};
ghost use Rattle.rope_io.specs.Failing.{reader_failure, IsCounted};
ghost use Rattle.rope_io.specs.Reading.{Reads};

use crate::device::Source;
use crate::error::{ReadError, ReadResult};
use rope_text::{BUFFER_BYTES, LineBreaks, Result, utf8};
use rope_tree::{Builder, Maker, Node};
use std::alloc::Global;

// Moves the text at the front of the first `filled` bytes to the builder, and the rest to the
// front. Returns the number of bytes of the rest.
fn settle(builder: &mut Builder, buffer: &mut [u8], filled: usize) -> Result<usize>
    requires { filled ≤ length buffer.old }
    ensures bound { IfOk result (λ rest. rest ≤ filled) }
    ensures rest { IfOk result (λ rest. take rest buffer.new ≡ text_rest (take filled buffer.old)) }
    ensures text { OnOk result (encode_utf8_all builder.new.text
        ≡ encode_utf8_all builder.old.text ++ text_front (take filled buffer.old)) }
    ensures fits { OnOk result (byte_len builder.new.text < 2 ^ 63) }
    ensures breaks { builder.new.breaks ≡ builder.old.breaks }
    ensures refused { IfErr result (IsRefusal
        (size_error (byte_len builder.old.text + length (text_front (take filled buffer.old))))) }
{
    let text = utf8::front(&buffer[..filled]);
    let decoded = text.len();
    builder.try_append(text)?;
    buffer.copy_within(decoded..filled, 0);
    Ok(filled - decoded)
}

// Reads to the end, and appends the text. An unfinished character is kept for the next read.
fn read_texts<S: Source>(source: &mut S, builder: &mut Builder) -> ReadResult<()>
    requires empty { builder.old.text ≡ [] }
    requires clear { S.marked source.old ≡ false }
    ensures answer { Reads (λ _. builder.new.text) (S.remaining source.old) (S.remaining source.new)
        (S.marked source.new) result }
    ensures failure { IsCounted (reader_failure result) (S.failure source.new)
        (S.failures source.old) (S.failures source.new) }
    ensures utf8 { OnOk result (IsUtf8 (encode_utf8_all builder.new.text)) }
    ensures fits { OnOk result (byte_len builder.new.text < 2 ^ 63) }
    ensures breaks { builder.new.breaks ≡ builder.old.breaks }
{
    let buffer = &mut [0u8; BUFFER_BYTES];
    let mut filled = 0;
    loop {
        let count = match source.take(&mut buffer[filled..]) {
            Ok(count) => count,
            Err(error) => return Err(ReadError::Read(error)),
        };
        filled = settle(builder, buffer, filled + count)?;
        if filled == BUFFER_BYTES {
            return Err(ReadError::InvalidData);
        }
        if count == 0 {
            if filled == 0 {
                return Ok(());
            }
            return Err(ReadError::InvalidData);
        }
    }
}

/// Reads a text to the end of the source, and returns its tree with the given set of line breaks,
/// which has at most one leaf for each 981 bytes and one for the rest. Clears the mark first.
///
/// # Errors
///
/// `Read`, at once after a failed read, also an interrupted one; the source is not called again.
/// `InvalidData` if the bytes are not UTF-8, at the end of the source or once 1,968 bytes have been
/// read from the first wrong one on. `Rope` if the text so far has more than `isize::MAX` bytes, or
/// an allocation fails.
pub fn read_tree<S: Source>(alloc: Global, source: &mut S, breaks: LineBreaks) -> ReadResult<Node>
    ensures answer { Reads (λ node. text node) (S.remaining source.old) (S.remaining source.new)
        (S.marked source.new) result }
    ensures failure { IsCounted (reader_failure result) (S.failure source.new)
        (S.failures source.old) (S.failures source.new) }
    ensures breaks { IfOk result (λ node. node.breaks ≡ breaks) }
    ensures tree { IfOk result (λ node. IsTree node) }
    ensures few { IfOk result (λ node.
        length node.leaves ≤ (byte_len (text node) + (MIN_CUT_BYTES - 1)) / MIN_CUT_BYTES) }
{
    source.clear();
    let mut builder = Builder::new(alloc, breaks);
    read_texts(source, &mut builder)?;
    Ok(builder.finish(&mut Maker::new(alloc))?)
}
