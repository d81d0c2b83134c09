//! An out-of-memory error, passed on.
ghost use Rattle.std.specs.Prelude.{◌≡◌, ◌≤◌, length, IfOk, IfErr};
ghost use Rattle.rope_text.specs.declared.error.Error.TheVariants.{OutOfMemory};
ghost use Rattle.rope_text.specs.Edit.{removed};

use ropey::{Result, Rope};

/// Returns a copy of the rope without the characters from `start` up to `end`.
pub fn copy_without(rope: &Rope, start: usize, end: usize) -> Result<Rope>
    requires ordered { start ≤ end }
    requires within { end ≤ length rope.now.text }
    ensures text { IfOk result (λ copy. copy.text ≡ removed rope.now.text start end) }
    ensures memory { IfErr result (λ e. e ≡ OutOfMemory) }
{
    let mut copy = rope.clone()?;
    copy.remove(start..end)?;
    Ok(copy)
}
