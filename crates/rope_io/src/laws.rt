//! Laws of reading and writing.
ghost use Rattle.std.specs.Prelude.{ℕ, List};
ghost use Rattle.rope_io.specs.Laws.{ReadsBack, ReadingIsExact};

/// Does nothing; its contract is the laws. A text written completely is read back. Unless the
/// device fails, or the text is too long or memory runs out, the definition of reading alone
/// decides whether a rope is returned. Here a rope is any `R` with a text.
pub fn reading_is_exact<R>()
    ensures back { ReadsBack }
    ensures exact { (text_of : R → List ℕ) → ReadingIsExact text_of }
{}
