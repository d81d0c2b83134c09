//! Laws of runs. Each function does nothing: its contract is the law.
ghost use Rattle.rope_script.specs.Step.{RunsKeepRopes};

/// Proves that every rope of a session keeps the invariant of ropes: its chunks are a rope cutting
/// of its text, which consists of Unicode scalar values and has at most `isize::MAX` bytes. A new
/// session has no rope, and a run keeps the invariant.
pub fn runs_keep_ropes()
    ensures { RunsKeepRopes }
{}
