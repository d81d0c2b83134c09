//! The positions of a language server.
ghost use Rattle.std.specs.Prelude.{◌≡◌, OnOk, OnErr, IfOk};
ghost use Rattle.std.specs.Str.{chars};
ghost use Rattle.rope_text.specs.Conversions.{byte_to_char};
ghost use Rattle.rope_text.specs.Edit.{inserted};
ghost use Rattle.rope_text.specs.Position.{position_to_char};
ghost use Rattle.rope_position.specs.Positions.{position_at};

use rope_position::{Position, Positions};
use ropey::{Result, Rope};

/// Returns the line and column of a byte, as a compiler's message names it.
pub fn position_of_byte(rope: &Rope, byte_idx: usize) -> Result<Position>
    ensures { IfOk result (λ place. place
        ≡ position_at rope.now.breaks rope.now.text (byte_to_char rope.now.text byte_idx)) }
{
    let char_idx = rope.try_byte_to_char(byte_idx)?;
    rope.try_char_to_position(char_idx)
}

/// Inserts a text at an editor's line and column, or returns why it can't.
pub fn insert_at_position(rope: &mut Rope, place: Position, text: &str) -> Result<()>
    ensures ok { OnOk result (rope.new.text ≡ inserted rope.old.text
        (position_to_char rope.old.breaks rope.old.text place.line place.column) (chars text.now)) }
    ensures err { OnErr result (rope.new ≡ rope.old) }
{
    let char_idx = rope.try_position_to_char(place)?;
    rope.try_insert(char_idx, text)
}
