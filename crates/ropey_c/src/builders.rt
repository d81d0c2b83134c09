//! Builders: ropes of bytes that arrive in pieces, as a file does.
ghost use Rattle.std.specs.Prelude.{◌≡◌, None};
ghost use Rattle.ropey_c.specs.Builders.{Begins, TakesAt, FinishesAt};
ghost use Rattle.ropey_c.specs.Status.{given_breaks};

use crate::builder_handle::BuilderHandle;
use crate::handle::Handle;
use crate::intake::Intake;
use crate::macros::{allocated, breaks_for, edit, some_or};
use crate::makers::keep;
use crate::status::{NO_BUILDER_HELD, OK, given_breaks};
use std::alloc::Global;

/// Makes a builder that was given nothing, and frees the one that the handle held.
///
/// # Errors
///
/// `UNKNOWN_BREAK_SET`, then `OUT_OF_MEMORY`. A call that fails leaves the handle as it was.
#[unsafe(no_mangle)]
pub extern "C" fn ropey_builder_new(
    alloc: Global,
    break_set: u32,
    builder: &mut BuilderHandle,
) -> u32
    ensures { Begins (given_breaks break_set) builder.old.held builder.new.held result }
{
    let breaks = breaks_for!(break_set);
    let made = allocated!(Intake::new(alloc, breaks));
    let made = allocated!(Box::new(alloc, made));
    builder.put(made);
    OK
}

/// Appends bytes. They may end inside a character, which the next bytes continue.
///
/// Takes time and memory in proportion to the bytes, and no memory if there are none.
///
/// # Errors
///
/// `NO_BUILDER_HELD`; then the error of an earlier append; then `INVALID_UTF8` if four or more
/// bytes follow the text, which writes to `valid` how many bytes of all that were given are text;
/// then `TOO_LONG`, then `OUT_OF_MEMORY`. After an error every later call fails with the same
/// error, and leaves `valid` as it was.
#[unsafe(no_mangle)]
pub extern "C" fn ropey_builder_append(
    alloc: Global,
    builder: &mut BuilderHandle,
    bytes: &[u8],
    valid: &mut usize,
) -> u32
    ensures { TakesAt builder.old.held builder.new.held bytes.now result valid.old valid.new }
{
    edit!(builder, alloc, NO_BUILDER_HELD, held => held.append(bytes, valid))
}

/// Makes the rope of all bytes that were given, in as few chunks as `ropey_from_text` does, and
/// frees the one that `rope` held. Afterwards the handle holds no builder, also if the call fails.
///
/// # Errors
///
/// `NO_BUILDER_HELD`; then the error of an earlier append; then `INVALID_UTF8` if the bytes end
/// inside a character, which writes to `valid` how many bytes are text; then `OUT_OF_MEMORY`. A
/// call that fails leaves `rope` as it was. Only the `INVALID_UTF8` of this call writes to `valid`:
/// one of an earlier append leaves it as it was.
#[unsafe(no_mangle)]
pub extern "C" fn ropey_builder_finish(
    alloc: Global,
    builder: &mut BuilderHandle,
    rope: &mut Handle,
    valid: &mut usize,
) -> u32
    ensures answer { FinishesAt builder.old.held result valid.old valid.new rope.old.rope
        rope.new.rope }
    ensures spent { builder.new.held ≡ None }
{
    let held = some_or!(builder.take(alloc), NO_BUILDER_HELD);
    match Box::into_inner(held).finish(valid) {
        Ok(made) => keep(alloc, made, rope),
        Err(status) => status,
    }
}

/// Frees the builder, if there is one. Afterwards the handle holds none. The contract doesn't say
/// that memory is given back: `bindings/c/leaks.c` tests it.
#[unsafe(no_mangle)]
pub extern "C" fn ropey_builder_free(alloc: Global, builder: &mut BuilderHandle)
    ensures { builder.new.held ≡ None }
{
    drop(builder.take(alloc));
}
