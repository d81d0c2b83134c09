//! Ropes written as files in an encoding.
ghost use Rattle.std.specs.Prelude.{◌≡◌, ◌+◌, ◌<◌, ◌≤◌, ◌↔◌, ◌++◌, ⊤, false, true, None, Some, OnOk, OnErr, IsErr};
ghost use Rattle.std.specs.Io.KnownBytes.{Appends};
ghost use Rattle.rope_text.specs.declared.TheConstants.{BUFFER_BYTES};
ghost use Rattle.rope_io.specs.Failing.{IsWriteCounted, count_failure};
ghost use Rattle.rope_io.specs.Writing.{AppendsFront};
ghost use Rattle.arrayvec.specs.ArrayVec.{array_vec_len};
ghost use Rattle.rope_files.specs.Encodings.{encode};
ghost use Rattle.rope_files.specs.Layouts.{unit_bytes, char_bytes, laid_out, bytes_in};
ghost use Rattle.rope_files.specs.Writing.{unencodable, unencodable_in, Sends, IsRefusedWrite, IsWriteFailure, ReportsWrite};
ghost use Rattle.std.specs.Str.{encode_utf8_all};
ghost use Rattle.rope_files.specs.declared.layout.Layout.TheVariants.{Bytes};

use crate::encoding::Encoding;
use crate::error::WriteAsError;
use crate::layout::{ByteOrder, Layout};
use arrayvec::ArrayVec;
use rope_io::writing::write_bytes;
use rope_text::BUFFER_BYTES;
use ropey::Rope;
use ropey::io::{Sink, Watched};
use std::io::{self, Write};

/// Bytes that are gathered before they are written.
type Gathered = ArrayVec<u8, BUFFER_BYTES>;

// The most bytes of a character.
const MAX_CHAR_BYTES: usize = 4;

// Adds the bytes of a code unit.
fn push_unit(order: ByteOrder, unit: u16, gathered: &mut Gathered)
    requires { array_vec_len gathered.old + 2 ≤ BUFFER_BYTES }
    ensures { gathered.new.items ≡ gathered.old.items ++ unit_bytes order unit }
{
    let low = (unit % 0x100) as u8;
    let high = (unit / 0x100) as u8;
    match order {
        ByteOrder::Little => {
            gathered.push(low);
            gathered.push(high);
        }
        ByteOrder::Big => {
            gathered.push(high);
            gathered.push(low);
        }
    }
}

// Adds the bytes of a character.
fn push_char(layout: Layout, c: char, gathered: &mut Gathered)
    requires room { array_vec_len gathered.old + 4 ≤ BUFFER_BYTES }
    requires fits { layout ≡ Bytes → c < 0x100 }
    ensures { gathered.new.items ≡ gathered.old.items ++ char_bytes layout c }
{
    let code = u32::from(c);
    match layout {
        Layout::Bytes => gathered.push(code as u8),
        Layout::CodeUnits(order) if code < 0x1_0000 => push_unit(order, code as u16, gathered),
        Layout::CodeUnits(order) => {
            let over = code - 0x1_0000;
            push_unit(order, (0xD800 + over / 0x400) as u16, gathered);
            push_unit(order, (0xDC00 + over % 0x400) as u16, gathered);
        }
    }
}

// Writes what is gathered where there is no room for one more character.
fn make_room<S: Sink>(sink: &mut S, gathered: &mut Gathered) -> io::Result<()>
    requires clear { S.marked sink.old ≡ false }
    requires none { S.failure sink.old ≡ None }
    ensures room { OnOk result (array_vec_len gathered.new + 4 ≤ BUFFER_BYTES) }
    ensures ok { OnOk result (Sends (S.contents sink.old) (S.contents sink.new)
        gathered.old.items gathered.new.items) }
    ensures clear { OnOk result (S.marked sink.new ≡ false) }
    ensures err { OnErr result (S.marked sink.new ≡ true) }
    ensures front { OnErr result
        (AppendsFront (S.contents sink.old) (S.contents sink.new) gathered.old.items) }
    ensures failure { IsWriteCounted result (S.failure sink.new)
        (S.failures sink.old) (S.failures sink.new) }
{
    if gathered.len() <= BUFFER_BYTES - MAX_CHAR_BYTES {
        return Ok(());
    }
    write_bytes(sink, gathered.as_slice())?;
    gathered.clear();
    Ok(())
}

// Writes the text after its mark.
fn write_laid<S: Sink>(rope: &Rope, layout: Layout, mark: &[u8], sink: &mut S) -> io::Result<()>
    requires clear { S.marked sink.old ≡ false }
    requires none { S.failure sink.old ≡ None }
    requires encodable { unencodable_in (Some layout) rope.now.text ≡ None }
    ensures ok { OnOk result (Appends (S.contents sink.old) (S.contents sink.new)
        (mark.now ++ laid_out layout rope.now.text)) }
    ensures front { AppendsFront (S.contents sink.old) (S.contents sink.new)
        (mark.now ++ laid_out layout rope.now.text) }
    ensures failed { IsErr result ↔ (S.marked sink.new ≡ true) }
    ensures failure { IsWriteCounted result (S.failure sink.new)
        (S.failures sink.old) (S.failures sink.new) }
{
    write_bytes(sink, mark)?;
    let gathered = &mut Gathered::new();
    for c in rope.chars() {
        make_room(sink, gathered)?;
        push_char(layout, c, gathered);
    }
    write_bytes(sink, gathered.as_slice())
}

// Writes the text in UTF-8 after its mark.
fn write_utf8<S: Sink>(rope: &Rope, mark: &[u8], sink: &mut S) -> io::Result<()>
    requires clear { S.marked sink.old ≡ false }
    requires none { S.failure sink.old ≡ None }
    ensures ok { OnOk result (Appends (S.contents sink.old) (S.contents sink.new)
        (mark.now ++ encode_utf8_all rope.now.text)) }
    ensures front { AppendsFront (S.contents sink.old) (S.contents sink.new)
        (mark.now ++ encode_utf8_all rope.now.text) }
    ensures failed { IsErr result ↔ (S.marked sink.new ≡ true) }
    ensures failure { IsWriteCounted result (S.failure sink.new)
        (S.failures sink.old) (S.failures sink.new) }
{
    write_bytes(sink, mark)?;
    rope.write_watched(sink)
}

// Writes a text that this layout has bytes for, after its mark.
fn write_in<S: Sink>(
    rope: &Rope,
    layout: Option<Layout>,
    mark: &[u8],
    sink: &mut S,
) -> io::Result<()>
    requires clear { S.marked sink.old ≡ false }
    requires none { S.failure sink.old ≡ None }
    requires encodable { unencodable_in layout rope.now.text ≡ None }
    ensures ok { OnOk result (Appends (S.contents sink.old) (S.contents sink.new)
        (mark.now ++ bytes_in layout rope.now.text)) }
    ensures front { AppendsFront (S.contents sink.old) (S.contents sink.new)
        (mark.now ++ bytes_in layout rope.now.text) }
    ensures failed { IsErr result ↔ (S.marked sink.new ≡ true) }
    ensures failure { IsWriteCounted result (S.failure sink.new)
        (S.failures sink.old) (S.failures sink.new) }
{
    match layout {
        None => write_utf8(rope, mark, sink),
        Some(layout) => write_laid(rope, layout, mark, sink),
    }
}

// The index of the first character that this layout has no bytes for.
fn first_unencodable(rope: &Rope, layout: Option<Layout>) -> Option<usize>
    ensures { result ≡ unencodable_in layout rope.now.text }
{
    let Some(Layout::Bytes) = layout else {
        return None;
    };
    let len = rope.len_chars();
    let mut left = len;
    for c in rope.chars() {
        if u32::from(c) > 0xFF {
            return Some(len - left);
        }
        left -= 1;
    }
    None
}

/// Writes a rope, as `write_as`, to a sink that is lent. The sink's mark is cleared first.
///
/// # Errors
///
/// Those of `write_as`. The mark is set afterwards exactly where `Write` is returned. Then one
/// write has failed, with that very error or, for `WriteZero`, by taking none of its bytes, and the
/// sink was not called again.
pub fn write_as_watched<S: Sink>(
    rope: &Rope,
    encoding: Encoding,
    sink: &mut S,
) -> Result<(), WriteAsError>
    ensures ok { OnOk result (Appends (S.contents sink.old) (S.contents sink.new)
        (encode encoding rope.now.text)) }
    ensures front { AppendsFront (S.contents sink.old) (S.contents sink.new)
        (encode encoding rope.now.text) }

    // A character that the encoding can't have is found before the sink is called.
    ensures unencodable { IsRefusedWrite (unencodable encoding rope.now.text)
        (sink.new ≡ S.cleared sink.old) result }

    // The mark, and what is known of the failure, are those of the error.
    ensures failed { IsWriteFailure result ↔ (S.marked sink.new ≡ true) }
    ensures failure { ReportsWrite result (S.failure sink.new) }
    ensures failures { S.failures sink.new
        ≡ count_failure (S.failure sink.new) (S.failures sink.old) }
{
    sink.clear();
    let layout = encoding.layout();
    if let Some(index) = first_unencodable(rope, layout) {
        return Err(WriteAsError::Unencodable(index));
    }
    match write_in(rope, layout, encoding.mark(), sink) {
        Ok(()) => Ok(()),
        Err(error) => Err(WriteAsError::Write(error)),
    }
}

/// Writes a rope as a file in this encoding, after the encoding's mark, and does not flush. Takes
/// no memory.
///
/// # Errors
///
/// `Unencodable`, before anything is written, where the encoding is Latin-1 and the text has a
/// character above U+00FF. `Write`, with a write's error, at once, an interrupted one too; of the
/// kind `WriteZero` where the writer takes none of the bytes that it is given. Then a beginning of
/// the file has been written.
pub fn write_as<T: Write + Drop>(
    rope: &Rope,
    encoding: Encoding,
    writer: T,
) -> Result<(), WriteAsError>
    ensures { IsRefusedWrite (unencodable encoding rope.now.text) ⊤ result }
{
    write_as_watched(rope, encoding, &mut Watched::new(writer))
}
