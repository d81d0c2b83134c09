//! A search through a cursor, and an edit at the index found.
ghost use Rattle.std.specs.Prelude.{◌≡◌, IfOk, MatchOption, OnErr};
ghost use Rattle.std.specs.Str.{chars};
ghost use Rattle.rope_text.specs.Edit.{inserted};
ghost use Rattle.rope_callers.specs.Search.{IsFirstPlace};

use ropey::{Result, Rope};

/// Returns the index of the first character equal to `c`, or `None` if the text has none.
pub fn find_char(rope: &Rope, c: char) -> Option<usize>
    ensures { IsFirstPlace c rope.now.text result }
{
    // the number of characters fits a `usize`, so `position` can't overflow
    let _ = rope.len_chars();
    rope.chars().position(|x| x == c)
}

/// Inserts a text before the first character equal to `c`, if any, and returns its index.
pub fn insert_before_char(rope: &mut Rope, c: char, text: &str) -> Result<Option<usize>>
    ensures place { IfOk result (IsFirstPlace c rope.old.text) }
    ensures edited { IfOk result (λ found. MatchOption found (rope.new ≡ rope.old)
        (λ i. rope.new.text ≡ inserted rope.old.text i (chars text.now))) }
    ensures err { OnErr result (rope.new ≡ rope.old) }
{
    let found = find_char(rope, c);
    if let Some(i) = found {
        rope.insert(i, text)?;
    }
    Ok(found)
}
