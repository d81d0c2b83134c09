//! The failures of a device, for clauses alone. A log has no bytes, and its calls do nothing at run
//! time: their contracts alone fix its fields.
ghost use Rattle.std.specs.Prelude.{◌≡◌, ℕ, Option, None};
ghost use Rattle.std.specs.Borrow.{ftrue};
ghost use Rattle.rope_io.specs.declared.device.Failure.{Failure};
ghost use Rattle.rope_io.specs.Failing.{count_failure};

use super::Failure;
use std::marker::{Model, Send, Sync};

/// The failure of a device's last call, and the number of failed calls.
#[derive(Drop)]
pub(crate) struct FailureLog {
    pub(crate) ghost last: { Option Failure },
    pub(crate) ghost count: { ℕ },
}

// A log owns no memory.
impl Model for FailureLog {
    ghost also_owns = { λ _. ftrue };
}

unsafe impl Send for FailureLog {}

unsafe impl Sync for FailureLog {}

impl FailureLog {
    /// Returns a log without a failure.
    pub(crate) fn new() -> FailureLog
        ensures last { result.last ≡ None }
        ensures count { result.count ≡ 0 }
    {
        FailureLog {}
    }

    /// Records the failure of a call, or that it had none.
    #[inline(always)]
    pub(crate) fn record(&mut self, _failure: &Option<Failure>)
        ensures last { self.new.last ≡ _failure.now }
        ensures count { self.new.count ≡ count_failure _failure.now self.old.count }
    {}
}
