//! Indices that are in bounds by the contract of the call that returned them.
ghost use Rattle.std.specs.Prelude.{◌≡◌, ◌+◌, ◌≤◌, ◌<◌, ◌↔◌, length, IsTrue, IfOk, OnOk, OnErr};
ghost use Rattle.std.specs.Bool.{OnTrue, OnFalse};
ghost use Rattle.std.specs.Str.{chars};
ghost use Rattle.rope_text.specs.Conversions.{byte_to_char, char_to_line, line_to_char};
ghost use Rattle.rope_text.specs.Edit.{inserted, removed};
ghost use Rattle.rope_text.specs.Lines.{line_count};
ghost use Rattle.rope_text.specs.Text.{byte_len};

use ropey::{Result, Rope};

/// Inserts a text after the last character.
pub fn put_at_end(rope: &mut Rope, text: &str) -> Result<()>
    ensures ok { OnOk result
        (rope.new.text ≡ inserted rope.old.text (length rope.old.text) (chars text.now)) }
    ensures err { OnErr result (rope.new ≡ rope.old) }
{
    let end = rope.len_chars();
    rope.insert(end, text)
}

/// Inserts a text before the character that contains the byte `byte_idx`.
pub fn insert_at_byte(rope: &mut Rope, byte_idx: usize, text: &str) -> Result<()>
    requires { byte_idx ≤ byte_len rope.old.text }
    ensures ok { OnOk result (rope.new.text
        ≡ inserted rope.old.text (byte_to_char rope.old.text byte_idx) (chars text.now)) }
    ensures err { OnErr result (rope.new ≡ rope.old) }
{
    let char_idx = rope.byte_to_char(byte_idx);
    rope.insert(char_idx, text)
}

/// Returns the index of the first character of the line that contains the character `char_idx`.
pub fn line_start_of(rope: &Rope, char_idx: usize) -> usize
    requires { char_idx ≤ length rope.now.text }
    ensures { result
        ≡ line_to_char rope.now.breaks rope.now.text
        (char_to_line rope.now.breaks rope.now.text char_idx) }
{
    rope.line_to_char(rope.char_to_line(char_idx))
}

/// Removes the line `line_idx` with its line break. Returns whether there is such a line.
pub fn remove_line(rope: &mut Rope, line_idx: usize) -> Result<bool>
    ensures found { IfOk result
        (λ found. IsTrue found ↔ (line_idx < line_count rope.old.breaks rope.old.text)) }
    ensures removed { IfOk result (λ found. OnTrue found (rope.new.text
        ≡ removed rope.old.text (line_to_char rope.old.breaks rope.old.text line_idx)
        (line_to_char rope.old.breaks rope.old.text (line_idx + 1)))) }
    ensures none { IfOk result (λ found. OnFalse found (rope.new ≡ rope.old)) }
    ensures err { OnErr result (rope.new ≡ rope.old) }
{
    if line_idx >= rope.len_lines() {
        return Ok(false);
    }
    let start = rope.line_to_char(line_idx);
    let end = rope.line_to_char(line_idx + 1);
    rope.remove(start..end)?;
    Ok(true)
}
