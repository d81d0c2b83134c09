//! Examples: small callers of ropes. Each but the first has a contract, and all are proved from
//! public contracts alone. docs/CALLING.md shows them. `rope_change_tests` runs them.
#![tactic(auto)]

pub mod changes;
pub mod checked;
pub mod copies;
pub mod edits;
pub mod encodings;
pub mod files;
pub mod first_edit;
pub mod history;
pub mod lines;
pub mod places;
pub mod positions;
pub mod search;
