//! Ropes read from readers and written to writers.
//!
//! `Rope::from_reader(alloc, b"one\n".as_slice())` returns a rope of `"one\n"`, and
//! `write_to(&mut bytes)` writes it into a vector.
//!
//! A reader or a writer may be passed by value, or by reference as a `Source` or a `Sink`, which
//! records its failures: then a caller can find out afterwards whether the device failed. `Watched`
//! makes a `Source` or `Sink` of any reader or writer.
ghost use Rattle.std.specs.Prelude.{◌≡◌, ℕ, List, Bool, Option, true, ◌↔◌, OnOk, IfOk, IsErr};
ghost use Rattle.std.specs.Io.KnownBytes.{Appends};
ghost use Rattle.std.specs.Str.{encode_utf8_all};
ghost use Rattle.rope_text.specs.declared.line_breaks.LineBreaks.TheVariants.{Unicode};
ghost use Rattle.rope_io.specs.Failing.{reader_failure, IsCounted, IsWriteCounted};
ghost use Rattle.rope_io.specs.Reading.{Reads, IsReadFailure};
ghost use Rattle.rope_io.specs.Writing.{AppendsFront};
ghost use Rattle.ropey.specs.Texts.{AreUtf8Of};
ghost use Rattle.ropey.specs.View.{IsBuilt, text_of};

use crate::rope::Rope;
use rope_io::ReadResult;
use rope_io::reading::read_tree;
use rope_io::writing::write_slice;
pub use rope_io::{Failure, Mark, ReadError, Sink, Source, Watched};
use rope_slice::RopeSlice;
use rope_text::LineBreaks;
use std::alloc::Global;
use std::io::{self, Read, Write};

impl Rope {
    /// Returns a rope of the text that a reader gives up to its end, read as UTF-8, with Unicode's
    /// line breaks, in at most (n + 980) / 981 chunks for n bytes. Takes time and memory in
    /// proportion to the text.
    ///
    /// `Rope::from_reader(alloc, b"ab".as_slice())?` is a rope of `"ab"`.
    ///
    /// # Errors
    ///
    /// `Read`, with the reader's error, at once if a read fails, also an interrupted one.
    /// `InvalidData`, if bytes are not UTF-8: at the end of the input, or once 1,968 bytes have
    /// been read from the first one that is not. `Rope(TooLong)`, if the text so far has more than
    /// `isize::MAX` bytes, and `Rope(OutOfMemory)`.
    pub fn from_reader<T: Read + Drop>(alloc: Global, reader: T) -> ReadResult<Rope>
        ensures answer { (left : Option (List ℕ)) × (failed : Bool)
            × Reads text_of (T.remaining reader) left failed result }
        ensures ok { IfOk result (λ rope. AreUtf8Of (T.remaining reader) rope.text) }
        ensures kept { IfOk result (IsBuilt Unicode) }
    {
        Rope::from_reader_with(alloc, reader, LineBreaks::Unicode)
    }

    /// Reads a rope as `from_reader` does, from a source that is borrowed. Clears the source's mark
    /// first.
    ///
    /// With `Watched::new(b"ab".as_slice())` as the source it returns a rope of `"ab"`.
    ///
    /// # Errors
    ///
    /// `Read`, `InvalidData` and `Rope`, as for `from_reader`; the mark is set afterwards exactly
    /// if the error is `Read`. Then one read has failed, with the very error that is returned, and
    /// the source was not called again.
    pub fn from_watched<S: Source>(alloc: Global, source: &mut S) -> ReadResult<Rope>
        // The bytes given decide the result,
        ensures answer { Reads text_of (S.remaining source.old) (S.remaining source.new)
            (S.marked source.new) result }
        ensures failure { IsCounted (reader_failure result) (S.failure source.new)
            (S.failures source.old) (S.failures source.new) }

        // so an `Ok` has the text of the whole input, and the mark tells a failed device.
        ensures ok { IfOk result (λ rope. AreUtf8Of (S.remaining source.old) rope.text) }
        ensures failed { IsReadFailure result ↔ (S.marked source.new ≡ true) }
        ensures kept { IfOk result (IsBuilt Unicode) }
    {
        Rope::from_watched_with(alloc, source, LineBreaks::Unicode)
    }

    /// Reads a rope as `from_reader` does, with the given set of line breaks.
    ///
    /// `Rope::from_reader_with(alloc, b"a\rb".as_slice(), LineBreaks::Lf)?.len_lines()` is 1.
    ///
    /// # Errors
    ///
    /// `Read`, `InvalidData` and `Rope`, as for `from_reader`.
    pub fn from_reader_with<T: Read + Drop>(
        alloc: Global,
        reader: T,
        breaks: LineBreaks,
    ) -> ReadResult<Rope>
        ensures answer { (left : Option (List ℕ)) × (failed : Bool)
            × Reads text_of (T.remaining reader) left failed result }
        ensures ok { IfOk result (λ rope. AreUtf8Of (T.remaining reader) rope.text) }
        ensures kept { IfOk result (IsBuilt breaks) }
    {
        Rope::from_watched_with(alloc, &mut Watched::new(reader), breaks)
    }

    /// Reads a rope as `from_watched` does, with the given set of line breaks.
    ///
    /// With `Watched::new(b"a\rb".as_slice())` and `LineBreaks::Lf` it returns a rope of one line.
    ///
    /// # Errors
    ///
    /// `Read`, `InvalidData` and `Rope`, as for `from_reader`; the mark is set afterwards exactly
    /// if the error is `Read`. Then one read has failed, with the very error that is returned, and
    /// the source was not called again.
    pub fn from_watched_with<S: Source>(
        alloc: Global,
        source: &mut S,
        breaks: LineBreaks,
    ) -> ReadResult<Rope>
        ensures answer { Reads text_of (S.remaining source.old) (S.remaining source.new)
            (S.marked source.new) result }
        ensures failure { IsCounted (reader_failure result) (S.failure source.new)
            (S.failures source.old) (S.failures source.new) }
        ensures ok { IfOk result (λ rope. AreUtf8Of (S.remaining source.old) rope.text) }
        ensures failed { IsReadFailure result ↔ (S.marked source.new ≡ true) }
        ensures kept { IfOk result (IsBuilt breaks) }
    {
        let root = read_tree(alloc, source, breaks)?;
        Ok(Rope { root, alloc })
    }

    /// Writes the whole text as UTF-8, chunk by chunk, without flushing. Takes no memory of its
    /// own.
    ///
    /// With the text `"ab"`, `write_to(&mut bytes)` appends `b"ab"` to a vector.
    ///
    /// # Errors
    ///
    /// A write's error, at once, also an interrupted one; of the kind `WriteZero` if the writer
    /// takes none of its bytes. Then a prefix of the text has been written.
    pub fn write_to<T: Write + Drop>(&self, writer: T) -> io::Result<()> {
        self.write_watched(&mut Watched::new(writer))
    }

    /// Writes the text as `write_to` does, to a sink that is borrowed. Clears the sink's mark
    /// first.
    ///
    /// With the text `"ab"` and `Watched::new(Vec::new(alloc))`, the vector then has `b"ab"`.
    ///
    /// # Errors
    ///
    /// A write's error, at once, also an interrupted one; of the kind `WriteZero` if the writer
    /// takes none of its bytes. Then a prefix of the text has been written. The mark is set
    /// afterwards exactly if an error is returned. Then one write has failed, with that very error
    /// or, for `WriteZero`, by taking none of its bytes, and the sink was not called again.
    pub fn write_watched<S: Sink>(&self, sink: &mut S) -> io::Result<()>
        ensures ok { OnOk result
            (Appends (S.contents sink.old) (S.contents sink.new) (encode_utf8_all self.now.text)) }
        ensures front { AppendsFront (S.contents sink.old) (S.contents sink.new)
            (encode_utf8_all self.now.text) }
        ensures failed { IsErr result ↔ (S.marked sink.new ≡ true) }
        ensures failure { IsWriteCounted result (S.failure sink.new)
            (S.failures sink.old) (S.failures sink.new) }
    {
        write_slice(&RopeSlice::of_node(&self.root), sink)
    }
}
