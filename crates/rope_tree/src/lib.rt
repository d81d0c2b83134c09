//! The tree of a rope: a B+ tree of leaf texts, with running totals in its inner nodes.
//!
//! ```text
//! Node -> Children   height, set of line breaks, child of the last edit
//!         totals     bytes    [  980 | 1950 | 2600 | .. ]   four rows of 24 entries,
//!                    chars    [  975 | 1900 | 2540 | .. ]   each of 32 bits
//!                    pairs    [    0 |    3 |    3 | .. ]
//!                    breaks   [   20 |   41 |   55 | .. ]
//!         nodes      [   *  |   *  |   *  | .. ]            24 entries
//!                        v      v      v
//!                      leaf   leaf   leaf                   980, 970 and 650 bytes
//! ```
//!
//! A leaf is a block of 1,024 bytes: 1 to 984 bytes of text, and its counts; leaves and totals are
//! those of `rope_leaf`. An inner node has 12 to 24 children, the root at least 2. A binary search
//! reads one row of running totals, and misses on at most two cache lines. Trees share nodes by
//! reference counting, and an edit copies a shared node before it changes it. Two adjacent leaves
//! have at least 492 bytes together, so memory is proportional to the text, and no CR LF is split
//! between them, so the totals are sums. An insert splits a full leaf into two of at least 491
//! bytes, which suit any neighbour; a removal compares with the neighbours' lengths, which the
//! totals give. Only joins merge leaves.
//!
//! Modules, lowest first:
//! - `node`: nodes; `row` makes nodes over rows of others, `anew` inserts into a new tree,
//!   `in_place` edits nodes in place, `across` two adjacent leaves, `pieces` splits longer texts,
//!   `moves` moves children between lists, `padding` makes room for that before a split, and
//!   `split`, `append` and `removal` split trees, append them and remove leaves by it
//! - `lookup`, `conversions`: the descent to a leaf, and conversions of indices by it
//! - `short_edits`: edits of whole trees
//! - `build`, `builder`: trees of whole texts, and of texts passed in one after another
#![tactic(auto)]

pub mod build;
mod builder;
mod conversions;
mod lookup;
mod node;
mod short_edits;

pub use builder::Builder;
pub use conversions::{convert, convert_in, first_sought};
pub use lookup::{Found, byte_at, char_at, leaf_at, leaf_count};
pub use node::row::{Row, gather_rows, node_over, pack, pack_first, pack_last, pack_over, root_of};
pub use node::{Node, Nodes, View, leaf_of, make_leaf};
pub use rope_leaf::{
    Editor, MAX_MEDIUM_BYTES, MAX_PIECES, Made, Maker, MediumText, NodeText, ShortText, Totals,
    Unit, count, infos_of_parts, place_of, total_before,
};
pub use short_edits::{counted_char_at, insert_at, insert_medium_at, is_lf, remove_at};
