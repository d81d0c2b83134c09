//! Edits as values: edits at many carets, undoable versions, bookmarks, and a language server's
//! document.
ghost use Rattle.std.specs.Prelude.{◌≡◌, ℕ, List, length, map, OnOk, OnErr, IfOk};
ghost use Rattle.std.specs.List.Sorted.{IsPermutation};
ghost use Rattle.rope_changes.specs.Ops.{run};
ghost use Rattle.rope_changes.specs.Built.{built, unchanged};
ghost use Rattle.rope_changes.specs.Change.{ops};
ghost use Rattle.rope_documents.specs.Received.{all_changed, text_change};
ghost use Rattle.rope_history.specs.Marking.{moved_mark};
ghost use Rattle.rope_history.specs.Texts.{StandsAt};

use rope_changes::{ChangeError, ChangeSet, Edit};
use rope_documents::{ContentChange, DocumentError, apply_content_changes};
use rope_history::{History, Marks};
use rope_position::Encoding;
use ropey::Rope;
use std::alloc::Global;

/// Makes all of the edits, or none of them. Their ranges index the text before the first edit.
pub fn edit_at_carets(
    alloc: Global,
    rope: &mut Rope,
    edits: &[Edit<'_>],
) -> Result<ChangeSet, ChangeError>
    ensures built { IfOk result (λ change. change
        ≡ built (unchanged (length rope.old.text)) edits.now) }
    ensures text { IfOk result (λ change. rope.new.text ≡ run (ops change) rope.old.text) }
    ensures err { OnErr result (rope.new ≡ rope.old) }
{
    let change = ChangeSet::of_edits(alloc, rope.len_chars(), edits)?;
    change.apply(rope)?;
    Ok(change)
}

/// Applies a change and moves the bookmarks with the text.
pub fn edit_with_bookmarks(
    rope: &mut Rope,
    bookmarks: &mut Marks,
    change: &ChangeSet,
) -> Result<(), ChangeError>
    requires { bookmarks.old.len ≡ length rope.old.text }
    ensures text { OnOk result (rope.new.text ≡ run (ops change.now) rope.old.text) }
    ensures moved { OnOk result
        (IsPermutation (map (moved_mark (ops change.now)) bookmarks.old.marks)
        bookmarks.new.marks) }
    ensures err { OnErr result ((rope.new ≡ rope.old) × (bookmarks.new ≡ bookmarks.old)) }
{
    change.apply(rope)?;
    bookmarks.apply(change)
}

/// Goes back by one version, and returns whether there was one.
pub fn undo(history: &mut History, rope: &mut Rope) -> Result<bool, ChangeError>
    ensures stands { (first : List ℕ) → StandsAt first history.old rope.old.text
        → StandsAt first history.new rope.new.text }
    ensures err { OnErr result ((history.new ≡ history.old) × (rope.new ≡ rope.old)) }
{
    Ok(history.undo(rope)?.is_some())
}

/// Makes all changes that an editor sends, in order, or none of them.
pub fn did_change(
    alloc: Global,
    document: &mut Rope,
    changes: &[ContentChange<'_>],
    encoding: Encoding,
) -> Result<ChangeSet, DocumentError>
    ensures text { OnOk result (document.new.text ≡ all_changed encoding document.old.breaks
        document.old.text (map text_change changes.now)) }
    ensures err { OnErr result (document.new ≡ document.old) }
{
    apply_content_changes(alloc, document, changes, encoding)
}
