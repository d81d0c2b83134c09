//! Files read in the encoding that their mark or their caller says.
ghost use Rattle.std.specs.Prelude.{◌≡◌, ◌↔◌, ℕ, List, Bool, Option, true, false, None, Some, length, IfOk};
ghost use Rattle.std.specs.Str.{encode_utf8_all};
ghost use Rattle.rope_io.specs.Failing.{IsCounted, count_failure};
ghost use Rattle.ropey.specs.View.{IsBuilt, text_of};
ghost use Rattle.rope_files.specs.Encodings.{mark_of, layout_of, encode, encode_unmarked};
ghost use Rattle.rope_files.specs.Layouts.{laid_out};
ghost use Rattle.rope_files.specs.Reading.{any_failure, text_read, Answers, Gives, ReadsAny, ReadsBeside, AreBytes, FailedAs, IsEncodingOf, IsReadFailure};

use crate::ahead::{Ahead, Head};
use crate::decode::read_layout;
use crate::encoding::Encoding;
use crate::error::{ReadAnyError, ReadAnyResult};
use crate::layout::Layout;
use ropey::io::{ReadError, Source, Watched};
use ropey::{LineBreaks, Rope, RopeBuilder};
use std::alloc::Global;
use std::io::Read;

// Reads the rest of a file in UTF-8.
fn read_utf8<S: Source>(
    alloc: Global,
    source: &mut S,
    breaks: LineBreaks,
    mark: usize,
) -> ReadAnyResult<Rope>
    ensures answer { Gives (S.remaining source.old) (S.remaining source.new) (λ bytes.
        Answers text_of encode_utf8_all None mark
        bytes (S.remaining source.new) (S.marked source.new) result) }
    ensures failure { IsCounted (any_failure result) (S.failure source.new)
        (S.failures source.old) (S.failures source.new) }
    ensures kept { IfOk result (IsBuilt breaks) }
{
    match Rope::from_watched_with(alloc, source, breaks) {
        Ok(rope) => Ok(rope),
        Err(ReadError::Read(error)) => Err(ReadAnyError::Read(error)),
        Err(ReadError::InvalidData) => Err(ReadAnyError::InvalidUtf8),
        Err(ReadError::Rope(error)) => Err(ReadAnyError::Rope(error)),
    }
}

// Reads the rest of a file in Latin-1 or UTF-16.
fn read_laid<S: Source>(
    alloc: Global,
    source: &mut S,
    breaks: LineBreaks,
    layout: Layout,
    mark: usize,
) -> ReadAnyResult<Rope>
    requires clear { S.marked source.old ≡ false }
    ensures answer { Gives (S.remaining source.old) (S.remaining source.new) (λ bytes.
        Answers text_of (laid_out layout) (Some layout) mark
        bytes (S.remaining source.new) (S.marked source.new) result) }
    ensures failure { IsCounted (any_failure result) (S.failure source.new)
        (S.failures source.old) (S.failures source.new) }
    ensures kept { IfOk result (IsBuilt breaks) }
{
    let mut builder = match RopeBuilder::new_with(alloc, breaks) {
        Ok(builder) => builder,
        Err(error) => return Err(ReadAnyError::Rope(error)),
    };
    read_layout(source, &mut builder, layout, mark)?;
    match builder.finish() {
        Ok(rope) => Ok(rope),
        Err(error) => Err(ReadAnyError::Rope(error)),
    }
}

// Reads what follows the mark.
fn read_body<S: Source>(
    alloc: Global,
    source: &mut S,
    breaks: LineBreaks,
    encoding: Encoding,
) -> ReadAnyResult<Rope>
    requires clear { S.marked source.old ≡ false }
    ensures answer { Gives (S.remaining source.old) (S.remaining source.new) (λ bytes.
        Answers text_of (encode_unmarked encoding) (layout_of encoding)
        (length (mark_of encoding))
        bytes (S.remaining source.new) (S.marked source.new) result) }
    ensures failure { IsCounted (any_failure result) (S.failure source.new)
        (S.failures source.old) (S.failures source.new) }
    ensures kept { IfOk result (IsBuilt breaks) }
{
    let mark = encoding.mark().len();
    match encoding.layout() {
        None => read_utf8(alloc, source, breaks, mark),
        Some(layout) => read_laid(alloc, source, breaks, layout, mark),
    }
}

// The encoding beside a rope that was read.
fn with_encoding(rope: ReadAnyResult<Rope>, encoding: Encoding) -> ReadAnyResult<(Rope, Encoding)>
    ensures { ReadsBeside rope encoding result }
{
    match rope {
        Ok(rope) => Ok((rope, encoding)),
        Err(error) => Err(error),
    }
}

/// Reads a file to its end, as `read_any`, and returns the source beside the result. The source's
/// mark is cleared first.
///
/// # Errors
///
/// Those of `read_any`; the source's mark is set afterwards exactly where the result is `Read`.
/// Then one read has failed, with the very error that is returned, and the source was not called
/// again.
pub fn read_any_watched<S: Source>(
    alloc: Global,
    source: S,
    breaks: LineBreaks,
    declared: Option<Encoding>,
) -> (ReadAnyResult<(Rope, Encoding)>, S)
    // The bytes that were given decide,
    ensures answer { ReadsAny text_read declared (S.remaining source) (S.remaining result.1)
        (S.marked result.1) result.0 }
    ensures failure { FailedAs result.0 (S.failure result.1) }
    ensures failures { S.failures result.1
        ≡ count_failure (any_failure result.0) (S.failures source) }

    // so an `Ok` has a text and an encoding in which it is the whole file.
    ensures ok { IfOk result.0 (λ file. AreBytes (S.remaining source) (encode file.1 file.0.text)) }
    ensures encoding { IfOk result.0 (λ file. IsEncodingOf declared (S.remaining source) file.1) }
    ensures failed { IsReadFailure result.0 ↔ (S.marked result.1 ≡ true) }
    ensures kept { IfOk result.0 (λ file. IsBuilt breaks file.0) }
{
    let mut source = source;
    source.clear();
    let head = match Head::read(&mut source) {
        Ok(head) => head,
        Err(error) => return (Err(ReadAnyError::Read(error)), source),
    };
    let encoding = declared.unwrap_or(Encoding::of_mark(head.as_slice()));
    let mark = encoding.mark();
    if !head.as_slice().starts_with(mark) {
        return (Err(ReadAnyError::NoMark), source);
    }
    let mut ahead = Ahead::new(source, head, mark.len());
    let rope = read_body(alloc, &mut ahead, breaks, encoding);
    (with_encoding(rope, encoding), ahead.into_source())
}

/// Reads a file to its end, and returns a rope of its text, with this set of line breaks, and its
/// encoding: the declared one or, without a declaration, that of the byte order mark that the file
/// begins with, or UTF-8. Takes time and memory in proportion to the text.
///
/// # Errors
///
/// `Read`, with the reader's error, at once where a read fails, an interrupted one too. `NoMark`,
/// where the declared encoding has a mark and the file begins otherwise. `InvalidUtf8`, where bytes
/// are no UTF-8: at the end of the file, or once 1,968 bytes have been read from the first one that
/// is not. `UnpairedSurrogate` and `HalfCodeUnit`, where UTF-16 has a surrogate that is in no pair,
/// or ends inside a code unit. `Rope(TooLong)`, where the text so far has more than `isize::MAX`
/// bytes, and `Rope(OutOfMemory)`.
pub fn read_any<T: Read + Drop>(
    alloc: Global,
    reader: T,
    breaks: LineBreaks,
    declared: Option<Encoding>,
) -> ReadAnyResult<(Rope, Encoding)>
    ensures answer { (left : Option (List ℕ)) × (failed : Bool)
        × ReadsAny text_read declared (T.remaining reader) left failed result }
    ensures ok { IfOk result (λ file. AreBytes (T.remaining reader) (encode file.1 file.0.text)) }
    ensures encoding { IfOk result (λ file. IsEncodingOf declared (T.remaining reader) file.1) }
    ensures kept { IfOk result (λ file. IsBuilt breaks file.0) }
{
    let (read, _) = read_any_watched(alloc, Watched::new(reader), breaks, declared);
    read
}
