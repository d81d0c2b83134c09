//! Documents of a language server: their content changes, received and sent.
ghost use Rattle.std.specs.Prelude.{◌≡◌, ◌++◌, codes, IfOk, map, OnOk};
ghost use Rattle.std.specs.Fmt.{decimal};
ghost use Rattle.rope_changes.specs.Change.{ops};
ghost use Rattle.rope_changes.specs.Ops.{run};
ghost use Rattle.rope_documents.specs.ErrorText.{error_text};
ghost use Rattle.rope_documents.specs.Laws.{PositionsAreReadBack};
ghost use Rattle.rope_documents.specs.Received.{all_changed, text_change};

use rope_changes::ChangeSet;
use rope_documents::{
    ContentChange, DocumentError, Range, apply_content_changes, laws, to_content_changes,
};
use rope_position::{Encoding, Position};
use ropey::{CowStr, Rope};
use std::alloc::Global;
use std::fmt;

/// Makes a range of two positions.
pub fn range(start: Position, end: Position) -> Range
    ensures start { result.start ≡ start }
    ensures end { result.end ≡ end }
{
    Range { start, end }
}

/// Makes a content change of its range and its text.
pub fn content_change<'a>(range: Option<Range>, text: &'a str) -> ContentChange<'a>
    ensures { result.range ≡ range }
{
    ContentChange {
        range,
        text: CowStr::Borrowed(text),
    }
}

/// Applies content changes to a rope.
pub fn apply(
    alloc: Global,
    rope: &mut Rope,
    changes: &[ContentChange<'_>],
    encoding: Encoding,
) -> Result<ChangeSet, DocumentError>
    ensures { OnOk result (rope.new.text
        ≡ all_changed encoding rope.old.breaks rope.old.text (map text_change changes.now)) }
{
    apply_content_changes(alloc, rope, changes, encoding)
}

/// Returns the content changes for a change of a rope's text.
pub fn to_list<'a>(
    alloc: Global,
    change: &'a ChangeSet,
    rope: &Rope,
    encoding: Encoding,
) -> Result<Vec<ContentChange<'a>>, DocumentError>
    ensures { IfOk result (λ changes.
        all_changed encoding rope.now.breaks rope.now.text (map text_change changes.items)
        ≡ run (ops change.now) rope.now.text) }
{
    to_content_changes(alloc, change, rope, encoding)
}

/// Makes the error of a range that ends before its start.
pub fn range_invalid(start: Position, end: Position) -> DocumentError
    ensures { error_text result ≡ codes "Invalid range: start line " ++ (decimal start.line
        ++ (codes ", column " ++ (decimal start.column ++ (codes ", end line "
        ++ (decimal end.line ++ (codes ", column " ++ decimal end.column)))))) }
{
    DocumentError::RangeInvalid(start, end)
}

/// Makes the error of a text of another length.
pub fn length_differs(expected: usize, len: usize) -> DocumentError
    ensures { error_text result ≡ codes "Text length differs: char length "
        ++ (decimal len ++ (codes ", the change is for " ++ decimal expected)) }
{
    DocumentError::LengthDiffers(expected, len)
}

/// Returns the errors that have no fields.
pub fn errors_without_fields() -> [DocumentError; 2] {
    [DocumentError::TooLong, DocumentError::OutOfMemory]
}

/// Writes an error as its text.
pub fn print_error<W: fmt::Write>(error: &DocumentError, f: &mut fmt::Formatter<W>) -> fmt::Result {
    fmt::Display::fmt(error, f)
}

/// Holds by the law of positions.
pub fn positions_are_read_back()
    ensures { PositionsAreReadBack }
{
    laws::positions_are_read_back();
}

/// Changes a client's rope, and a server's rope of the same text by the list for that change.
pub fn exchange(
    alloc: Global,
    change: &ChangeSet,
    client: &mut Rope,
    server: &mut Rope,
    encoding: Encoding,
) -> Result<(), DocumentError>
    requires text { server.old.text ≡ client.old.text }
    requires breaks { server.old.breaks ≡ client.old.breaks }
    ensures { OnOk result (server.new.text ≡ client.new.text) }
{
    let list = to_content_changes(alloc, change, client, encoding)?;
    apply_content_changes(alloc, server, list.as_slice(), encoding)?;
    match change.apply(client) {
        Ok(()) => Ok(()),
        Err(_) => Err(DocumentError::OutOfMemory),
    }
}
