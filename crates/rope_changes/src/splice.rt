//! A range of a rope's characters: replaced by a text, and copied.
ghost use Rattle.std.specs.Prelude.{◌≡◌, ◌-◌, ◌≤◌, length, take, drop, IfOk, IfErr, OnOk, OnErr};
ghost use Rattle.std.specs.Str.{chars};
ghost use Rattle.std.specs.String.{string_bytes};
ghost use Rattle.std.specs.List.{replace_range};
ghost use Rattle.ropey.specs.View.{IsRope};
ghost use Rattle.rope_changes.specs.declared.error.ChangeError.TheVariants.{OutOfMemory};

use crate::error::ChangeError;
use ropey::Rope;
use std::alloc::Global;

/// Replaces the characters from `start` up to `end` by a text that the rope has room for. A call
/// that fails leaves the rope as it was where it only inserts or only removes; else it may leave
/// the range removed.
pub(crate) fn splice(
    rope: &mut Rope,
    start: usize,
    end: usize,
    text: &str,
) -> Result<(), ChangeError>
    requires ordered { start ≤ end }
    requires within { end ≤ length rope.old.text }
    ensures ok { OnOk result
        (rope.new.text ≡ replace_range rope.old.text start end (chars text.now)) }
    ensures refused { IfErr result (λ e. e ≡ OutOfMemory) }
    ensures inserts { start ≡ end → OnErr result (rope.new ≡ rope.old) }
    ensures removes { length text.now ≡ 0 → OnErr result (rope.new ≡ rope.old) }
    ensures breaks { rope.new.breaks ≡ rope.old.breaks }
    ensures kept { IsRope rope.new }
{
    if rope.remove(start..end).is_err() || rope.insert(start, text).is_err() {
        return Err(ChangeError::OutOfMemory);
    }
    Ok(())
}

/// Returns a copy of the characters from `start` up to `end`.
pub(crate) fn text_of(
    alloc: Global,
    rope: &Rope,
    start: usize,
    end: usize,
) -> Result<String, ChangeError>
    requires ordered { start ≤ end }
    requires within { end ≤ length rope.now.text }
    ensures ok { IfOk result (λ text.
        chars (string_bytes text) ≡ take (end - start) (drop start rope.now.text)) }
    ensures refused { IfErr result (λ e. e ≡ OutOfMemory) }
{
    match rope.slice(start..end).try_to_string(alloc) {
        Ok(text) => Ok(text),
        Err(_) => Err(ChangeError::OutOfMemory),
    }
}
