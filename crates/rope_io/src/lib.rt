//! Ropes read from devices and written to them: readers and writers that record their failures, and
//! the two loops.
//!
//! Modules, lowest first:
//! - `device`: readers and writers that record their failures
//! - `error`: the reasons why no rope was read
//! - `reading`: a tree of a reader's bytes
//! - `writing`: a text written to a writer
//! - `laws`: a text written completely is read back
#![tactic(auto)]

mod device;
mod error;
pub mod laws;
pub mod reading;
pub mod writing;

pub use device::{Failure, Mark, Sink, Source, Watched};
pub use error::{ReadError, ReadResult};
