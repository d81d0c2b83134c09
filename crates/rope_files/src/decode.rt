//! Texts of bytes in UTF-16 and Latin-1, read to the end of a source.
ghost use Rattle.std.specs.Prelude.{◌≡◌, ◌+◌, ◌*◌, ◌^◌, ◌<◌, ◌≤◌, [], false, true, None, Some, length, take, drop, IfOk, IfErr, OnOk};
ghost use Rattle.std.specs.Str.{all_scalars};
ghost use Rattle.rope_text.specs.declared.TheConstants.{BUFFER_BYTES};
ghost use Rattle.rope_text.specs.Text.{byte_len};
ghost use Rattle.rope_io.specs.Failing.{IsCounted};
ghost use Rattle.rope_files.specs.Decoding.{IsDecoded, Settles, IsSettleError, IsEndError};
ghost use Rattle.rope_files.specs.Layouts.{laid_out, IsUnpaired};
ghost use Rattle.rope_files.specs.Reading.{any_failure, Answers, IsOpen, Gives};

use crate::error::{ReadAnyError, ReadAnyResult};
use crate::layout::{Front, Layout, front_char};
use arrayvec::ArrayString;
use rope_text::BUFFER_BYTES;
use ropey::RopeBuilder;
use ropey::io::Source;

/// The most bytes of text that a buffer of bytes becomes.
const MAX_PIECE_BYTES: usize = 2 * BUFFER_BYTES;

/// The text of a buffer.
type Piece = ArrayString<MAX_PIECE_BYTES>;

// Decodes the text that the bytes begin with. Returns in how many bytes it lies, or, where a
// surrogate that is in no pair follows it, that as an error.
fn decode(layout: Layout, bytes: &[u8], piece: &mut Piece) -> Result<usize, usize>
    requires { length bytes.now ≤ BUFFER_BYTES }
    ensures ok { IfOk result (λ n. IsDecoded layout bytes.now n piece.new.bytes
        × IsOpen (Some layout) (drop n bytes.now)) }
    ensures unpaired { IfErr result (λ n. IsDecoded layout bytes.now n piece.new.bytes
        × IsUnpaired layout (drop n bytes.now)) }
{
    piece.clear();
    let mut at = 0;
    while at < bytes.len() {
        match front_char(layout, &bytes[at..]) {
            Front::Char(c, len) => {
                piece.push(c);
                at += len;
            }
            Front::Part => return Ok(at),
            Front::Unpaired => return Err(at),
        }
    }
    Ok(at)
}

// Decodes the text at the front of the first `filled` bytes into the builder, and moves the bytes
// after it to the front. Returns how many bytes the text had. The buffer's first byte is that at
// `offset` in the file.
fn settle(
    builder: &mut RopeBuilder,
    layout: Layout,
    buffer: &mut [u8],
    filled: usize,
    offset: u64,
) -> ReadAnyResult<usize>
    requires within { filled ≤ length buffer.old }
    requires fits { length buffer.old ≤ BUFFER_BYTES }
    requires fresh { builder.old.failed ≡ None }
    ensures ok { IfOk result (Settles layout builder.old.text builder.new.text
        (take filled buffer.old) buffer.new) }
    ensures fits { OnOk result (byte_len builder.new.text < 2 ^ 63) }
    ensures fresh { OnOk result (builder.new.failed ≡ None) }
    ensures breaks { builder.new.breaks ≡ builder.old.breaks }
    ensures refused { IfErr result
        (IsSettleError layout builder.old.text (take filled buffer.old) offset) }
{
    let piece = &mut Piece::new();
    let decoded = match decode(layout, &buffer[..filled], piece) {
        Ok(decoded) => decoded,
        Err(at) => return Err(ReadAnyError::UnpairedSurrogate(offset.saturating_add(at as u64))),
    };
    match builder.append(piece.as_str()) {
        Ok(()) => {}
        Err(error) => return Err(ReadAnyError::Rope(error)),
    }
    buffer.copy_within(decoded..filled, 0);
    Ok(decoded)
}

// Why bytes that are left at the end of a file are no text.
fn end_error(left: usize, offset: u64) -> ReadAnyError
    ensures { IsEndError left offset result }
{
    if left == 1 {
        ReadAnyError::HalfCodeUnit(offset)
    } else {
        ReadAnyError::UnpairedSurrogate(offset)
    }
}

/// Reads to the end, and adds what is text to the builder. An unfinished character is kept for the
/// next read. `mark` is how many bytes of the file came before.
pub(crate) fn read_layout<S: Source>(
    source: &mut S,
    builder: &mut RopeBuilder,
    layout: Layout,
    mark: usize,
) -> ReadAnyResult<()>
    requires empty { builder.old.text ≡ [] }
    requires fresh { builder.old.failed ≡ None }
    requires clear { S.marked source.old ≡ false }
    ensures answer { Gives (S.remaining source.old) (S.remaining source.new) (λ bytes.
        Answers (λ _. builder.new.text) (laid_out layout) (Some layout) mark
        bytes (S.remaining source.new) (S.marked source.new) result) }
    ensures failure { IsCounted (any_failure result) (S.failure source.new)
        (S.failures source.old) (S.failures source.new) }
    ensures fits { OnOk result (byte_len builder.new.text < 2 ^ 63) }
    ensures scalars { OnOk result (all_scalars builder.new.text ≡ true) }
    ensures fresh { OnOk result (builder.new.failed ≡ None) }
    ensures breaks { builder.new.breaks ≡ builder.old.breaks }
{
    let buffer = &mut [0u8; BUFFER_BYTES];
    let mut filled = 0;
    let mut offset = mark as u64;
    loop {
        let count = match source.take(&mut buffer[filled..]) {
            Ok(count) => count,
            Err(error) => return Err(ReadAnyError::Read(error)),
        };
        let decoded = settle(builder, layout, buffer, filled + count, offset)?;
        filled = filled + count - decoded;
        offset = offset.saturating_add(decoded as u64);
        if count == 0 {
            if filled == 0 {
                return Ok(());
            }
            return Err(end_error(filled, offset));
        }
    }
}
