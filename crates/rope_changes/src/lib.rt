//! Changes of a text as values: built in order, applied at once, composed, rebased, inverted, and
//! indices moved through them.
//!
//! A change set is a list of replacements of ranges of one text, in order and apart. An editor
//! makes one for all its carets, applies it to a rope, and moves its bookmarks through it. An undo
//! history composes changes that belong together, and two editors of one text rebase each other's.
//!
//! Contracts see a change as its replacements, and those as a list of operations on single
//! characters. Replacements that touch are one, and each inserts before it deletes, so changes with
//! the same operations are equal values. The results of `compose` and `rebase` are the normal forms
//! of the composed and of the rebased operations.
//!
//! A change takes memory for its replacements and for the texts that it inserts. `replace` takes
//! time for its own text, `map` for the replacements up to its index, `map_sorted` for the
//! replacements and the indices where these ascend, `apply` for two edits of the rope per
//! replacement, `invert` for the texts that the change deletes, and `compose` and `rebase` for the
//! replacements and the inserted texts of both changes.
//!
//! Modules, lowest first:
//! - `side`: on which side of inserted text an index stays
//! - `error`: why a call fails
//! - `edit`: the replacement of one range
//! - `run`: operations of one kind in a row
//! - `cut`: a text split after a number of characters
//! - `splice`: a range of a rope replaced by a text, or copied
//! - `replacements`: replacements with their texts in one string
//! - `change_set`: changes as replacements in order
//! - `map`: indices moved through a change
//! - `apply`: changes of ropes, and the changes that lead back
//! - `cursor`: the runs of operations of a change, read from the front
//! - `compose`: two changes in a row as one
//! - `rebase`: a change as one of the text after another change
//! - `laws`: what replacements, compositions, inverses and rebased changes do to a text
#![tactic(auto)]

mod apply;
mod change_set;
mod compose;
mod cursor;
mod cut;
mod edit;
mod error;
pub mod laws;
mod map;
mod rebase;
mod replacements;
mod run;
mod side;
mod splice;

pub use change_set::{ChangeSet, EditRange, Edits};
pub use edit::Edit;
pub use error::ChangeError;
pub use side::Side;
