//! A new rope, edited at an index that is always in bounds.
ghost use Rattle.std.specs.Prelude.{◌≡◌, IfOk};
ghost use Rattle.std.specs.Str.{chars};
ghost use Rattle.rope_text.specs.Edit.{inserted};

use ropey::{Result, Rope};
use std::alloc::Global;

/// Makes a rope of a title followed by a text.
pub fn titled(alloc: Global, text: &str, title: &str) -> Result<Rope>
    ensures { IfOk result (λ rope. rope.text ≡ inserted (chars text.now) 0 (chars title.now)) }
{
    let mut rope = Rope::from_str(alloc, text)?;
    rope.insert(0, title)?;
    Ok(rope)
}
