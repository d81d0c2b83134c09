//! The language of command and reply lines, and sessions driven by it.
//!
//! Modules, lowest first:
//! - `words`: words of lines
//! - `language`: the parser of command lines
//! - `escapes`: texts with escapes
//! - `replies`: replies as lines
//! - `output`: a buffer of replies
//! - `ended`: the outcome of a run, as a status and a text
//! - `service`: lines in, replies out
#![tactic(auto)]

mod ended;
mod escapes;
mod language;
mod output;
mod replies;
mod service;
mod words;

pub use ended::Ended;
pub use service::serve;
