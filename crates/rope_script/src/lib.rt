//! Commands on numbered ropes, queries, and their replies.
//!
//! Modules, lowest first:
//! - `script`: commands, queries, replies
//! - `making`, `changing`: commands that add or change a rope
//! - `asking`: queries
//! - `walker`, `walks`: cursors as replies
//! - `shown`: texts as replies
//! - `session`: ropes by number, and runs of commands
//! - `laws`: runs keep ropes
#![tactic(auto)]

mod asking;
mod changing;
pub mod laws;
mod making;
mod script;
mod session;
mod shown;
mod walker;
mod walks;

pub use script::{At, Command, Conv, Item, Move, Part, Query, Reply, Unit};
pub use session::Session;
