//! Laws of files. The function does nothing: its contract is the laws.
ghost use Rattle.rope_files.specs.Laws.{TextsAreTold, WrittenTextsAreRead, WrittenTextsAreTexts};

/// Does nothing; its contract is the laws. In each encoding no two texts have the same bytes, so a
/// text that was written and is read, with its encoding declared, is the same text. Its file is
/// never refused for its mark or as no text: a rope is returned unless the reader fails, the text
/// is too long or there is no memory.
pub fn files_keep_texts()
    ensures told { TextsAreTold }
    ensures read { WrittenTextsAreRead }
    ensures texts { WrittenTextsAreTexts }
{}
