//! Laws of documents. Each function does nothing: its contract is the law.
ghost use Rattle.rope_documents.specs.Laws.{PositionsAreReadBack};

/// Does nothing; its contract is the law of positions. A character's position, read as the protocol
/// reads it, is that character, unless it stands between the CR and the LF of one line break.
pub fn positions_are_read_back()
    ensures { PositionsAreReadBack }
{}
