//! Edits of ropes, with the calls that refuse any index and those that count their steps.
ghost use Rattle.std.specs.Prelude.{◌≡◌, ◌≤◌, ◌++◌, ◌∷◌, [], drop, length, IfOk, OnOk};
ghost use Rattle.std.specs.Str.{chars};
ghost use Rattle.rope_text.specs.Edit.{append_error, inserted, range_end, range_start, removed};
ghost use Rattle.rope_slice.specs.Sliced.{HasCharRange};

use ropey::{Error, IndexRange, Result, Rope, Steps};

/// Inserts a text at an index in bounds.
pub fn insert(rope: &mut Rope, char_idx: usize, text: &str) -> Result<()>
    requires { char_idx ≤ length rope.old.text }
    ensures { OnOk result (rope.new.text ≡ inserted rope.old.text char_idx (chars text.now)) }
{
    rope.insert(char_idx, text)
}

/// Inserts a text at any index.
pub fn try_insert(rope: &mut Rope, char_idx: usize, text: &str) -> Result<()>
    ensures { OnOk result (rope.new.text ≡ inserted rope.old.text char_idx (chars text.now)) }
{
    rope.try_insert(char_idx, text)
}

/// Inserts a text, counting the steps.
pub fn insert_counted(rope: &mut Rope, char_idx: usize, text: &str, steps: &mut Steps) -> Result<()>
    requires { char_idx ≤ length rope.old.text }
    ensures { OnOk result (rope.new.text ≡ inserted rope.old.text char_idx (chars text.now)) }
{
    rope.insert_counted(char_idx, text, steps)
}

/// Inserts a character at an index in bounds.
pub fn insert_char(rope: &mut Rope, char_idx: usize, c: char) -> Result<()>
    requires { char_idx ≤ length rope.old.text }
    ensures { OnOk result (rope.new.text ≡ inserted rope.old.text char_idx (c ∷ [])) }
{
    rope.insert_char(char_idx, c)
}

/// Inserts a character at any index.
pub fn try_insert_char(rope: &mut Rope, char_idx: usize, c: char) -> Result<()>
    ensures { OnOk result (rope.new.text ≡ inserted rope.old.text char_idx (c ∷ [])) }
{
    rope.try_insert_char(char_idx, c)
}

/// Inserts a character, counting the steps.
pub fn insert_char_counted(
    rope: &mut Rope,
    char_idx: usize,
    c: char,
    steps: &mut Steps,
) -> Result<()>
    requires { char_idx ≤ length rope.old.text }
    ensures { OnOk result (rope.new.text ≡ inserted rope.old.text char_idx (c ∷ [])) }
{
    rope.insert_char_counted(char_idx, c, steps)
}

/// Removes a range of characters in bounds.
pub fn remove<R: IndexRange>(rope: &mut Rope, range: R) -> Result<()>
    requires { HasCharRange rope.old.text (R.given_start range) (R.given_end range) }
    ensures { OnOk result (rope.new.text
        ≡ removed rope.old.text (range_start (R.given_start range))
        (range_end (R.given_end range) (length rope.old.text))) }
{
    rope.remove(range)
}

/// Removes any range of characters.
pub fn try_remove<R: IndexRange>(rope: &mut Rope, range: R) -> Result<()>
    ensures { OnOk result (rope.new.text
        ≡ removed rope.old.text (range_start (R.given_start range))
        (range_end (R.given_end range) (length rope.old.text))) }
{
    rope.try_remove(range)
}

/// Removes a range of characters, counting the steps.
pub fn remove_counted<R: IndexRange>(rope: &mut Rope, range: R, steps: &mut Steps) -> Result<()>
    requires { HasCharRange rope.old.text (R.given_start range) (R.given_end range) }
    ensures { OnOk result (rope.new.text
        ≡ removed rope.old.text (range_start (R.given_start range))
        (range_end (R.given_end range) (length rope.old.text))) }
{
    rope.remove_counted(range, steps)
}

/// Splits a rope at an index in bounds.
pub fn split_off(rope: &mut Rope, char_idx: usize) -> Result<Rope>
    requires { char_idx ≤ length rope.old.text }
    ensures { IfOk result (λ back. back.text ≡ drop char_idx rope.old.text) }
{
    rope.split_off(char_idx)
}

/// Splits a rope at any index.
pub fn try_split_off(rope: &mut Rope, char_idx: usize) -> Result<Rope>
    ensures { IfOk result (λ back. back.text ≡ drop char_idx rope.old.text) }
{
    rope.try_split_off(char_idx)
}

/// Splits a rope, counting the steps.
pub fn split_off_counted(rope: &mut Rope, char_idx: usize, steps: &mut Steps) -> Result<Rope>
    requires { char_idx ≤ length rope.old.text }
    ensures { IfOk result (λ back. back.text ≡ drop char_idx rope.old.text) }
{
    rope.split_off_counted(char_idx, steps)
}

/// Appends a rope.
pub fn append(rope: &mut Rope, other: Rope) -> Result<()>
    ensures { OnOk result (rope.new.text ≡ rope.old.text ++ other.text) }
{
    rope.append(other)
}

/// Returns the error of an append, memory aside.
pub fn append_error(rope: &Rope, other: &Rope) -> Option<Error>
    ensures { result ≡ append_error rope.now.breaks other.now.breaks rope.now.text other.now.text }
{
    rope.append_error(other)
}

/// Appends a rope, counting the steps.
pub fn append_counted(rope: &mut Rope, other: Rope, steps: &mut Steps) -> Result<()>
    ensures { OnOk result (rope.new.text ≡ rope.old.text ++ other.text) }
{
    rope.append_counted(other, steps)
}

/// Re-chunks a rope.
pub fn shrink_to_fit(rope: &mut Rope) -> Result<()>
    ensures { rope.new.text ≡ rope.old.text }
{
    rope.shrink_to_fit()
}
