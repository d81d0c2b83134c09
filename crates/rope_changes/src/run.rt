//! Runs of operations of one kind.
ghost use Rattle.std.specs.Prelude.{◌≡◌};
ghost use Rattle.rope_changes.specs.Ops.{len_after};
ghost use Rattle.rope_changes.specs.Runs.{run_ops, IsRun};

/// A run of operations of one kind: what a change does to the next characters.
#[derive(Clone, Copy)]
pub(crate) enum Run<'a> {
    /// Keeps that many characters.
    Keep(usize),
    /// Inserts a text, which has that many characters.
    Insert(&'a str, usize),
    /// Deletes that many characters.
    Delete(usize),
    /// Does nothing.
    Nothing,
}

impl Run<'_> {
    /// Returns the number of characters that it adds to the text after the change.
    pub(crate) fn len_after(&self) -> usize
        requires { IsRun self.now }
        ensures { result ≡ len_after (run_ops self.now) }
    {
        match *self {
            Run::Keep(count) => count,
            Run::Insert(_, count) => count,
            Run::Delete(_) => 0,
            Run::Nothing => 0,
        }
    }
}
