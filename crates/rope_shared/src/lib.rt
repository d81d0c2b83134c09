//! Owners of values on the heap: the only one, and one of several in any threads. `local` has both
//! for one thread.
#![tactic(auto)]

pub mod local;
mod shared;
mod sole;

pub use shared::Shared;
pub use sole::Sole;
