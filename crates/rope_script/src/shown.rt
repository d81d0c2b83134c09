//! The texts of replies: copies, which may run out of memory.
ghost use Rattle.std.specs.Prelude.{◌≡◌, ◌∷◌, [], IfErr, IfOk, MatchOption, map};
ghost use Rattle.std.specs.Str.{chars};
ghost use Rattle.std.specs.String.{string_bytes};
ghost use Rattle.rope_text.specs.declared.error.Error.TheVariants.{OutOfMemory};
ghost use Rattle.rope_text.specs.Sides.{ahead};
ghost use Rattle.rope_slice.specs.Slice.{chunks_of};

use ropey::iter::Chunks;
use ropey::{Result, RopeSlice};
use std::alloc::Global;

/// Returns copies of the chunks of a slice.
pub(crate) fn chunk_texts(alloc: Global, part: &RopeSlice<'_>) -> Result<Vec<String>>
    ensures texts { IfOk result
        (λ texts. map (λ s. chars (string_bytes s)) texts.items ≡ chunks_of part.now) }
    ensures memory { IfErr result (λ e. e ≡ OutOfMemory) }
{
    let mut texts = Vec::new(alloc);
    let mut chunks = part.chunks();
    while let Some(text) = copy_next(alloc, &mut chunks)? {
        texts.push(text)?;
    }
    Ok(texts)
}

/// Returns a copy of the next chunk, if there is one.
fn copy_next(alloc: Global, chunks: &mut Chunks<'_>) -> Result<Option<String>>
    ensures next { IfOk result
        (λ next. MatchOption next (ahead chunks.old ≡ [])
        (λ text. ahead chunks.old ≡ chars (string_bytes text) ∷ ahead chunks.new)) }
    ensures memory { IfErr result (λ e. e ≡ OutOfMemory) }
{
    match chunks.next() {
        Some(chunk) => Ok(Some(copy_of(alloc, chunk)?)),
        None => Ok(None),
    }
}

/// Returns a copy of a text.
pub(crate) fn copy_of(alloc: Global, text: &str) -> Result<String>
    ensures text { IfOk result (λ copy. chars (string_bytes copy) ≡ chars text.now) }
    ensures memory { IfErr result (λ e. e ≡ OutOfMemory) }
{
    Ok(String::from_str(alloc, text)?)
}
