//! The rope for programs in C, C++ and Rust: a static library, which the header
//! `bindings/c/ropey.h` declares.
//!
//! A program holds a rope by a struct of one pointer, which is null if it holds none. Edits take it
//! as a [`handle::Handle`], by `&mut`, and lookups as a [`lent::Lent`], by `&`, so lookups leave it
//! unchanged. Every function checks each index, text and number that it is given. None has a
//! precondition, except [`makers::ropey_from_text_unchecked`] and
//! [`texts::ropey_text_counts_unchecked`], whose text must be UTF-8. A function returns a status:
//! 0, or the number of the first reason for which it fails. A call that fails leaves the ropes as
//! they were, and writes nothing, unless its comment says otherwise. `Global`, the allocator of the
//! C library, has no bytes, so C passes nothing for it. No call reads more text than the call of
//! `ropey` with its name.
//!
//!     ropey_rope rope = ROPEY_NO_ROPE;
//!     ropey_from_text(text, 11, ROPEY_UNICODE, &rope);     // "hello world"
//!     ropey_insert(&rope, 5, more, 5);                     // "hello, you world"
//!     ropey_free(&rope);
//!
//! The bytes of a chunk are lent for as long as the handle is: a chunk's contract gives the bytes
//! at its pointer. A handle holds what every rope is: chunks of 1 to 984 bytes, few of them, that
//! join to its text.
//!
//! *What no contract says:* that a program keeps to the header: handles that the library made and
//! that are lent until they are edited, texts and buffers that have their length, different objects
//! in one call, and which calls may run at once on several threads. Where a call writes a result,
//! the old value is never read, so it may be anything.
//!
//! *Where to look.* `makers` makes, clones and frees ropes; `char_edits`, `byte_edits` and
//! `replace` edit them; `lengths`, `counts`, `conversions`, `positions` and `lookups` look up an
//! index or a range; `chunks`, `pieces` and `slices` return where bytes are, and the counts before
//! them, and `fill` fills arrays of these; `copies` copies text; `compare` compares texts; `texts`
//! looks up in plain texts; `builders` takes bytes in pieces, over `intake`; `file_reading` and
//! `file_writing` convert files, over `encodings`; `changes` makes changes as values and applies
//! them, `change_edits` makes them of lists and reads them back, `change_sets` composes and rebases
//! them; `handle`, `lent`, `builder_handle`, `changes_handle`, `lent_changes` and `held` own or
//! lend the values of handles; `status` and `change_status` have the numbers of errors, and
//! `macros` the steps that return them.
#![tactic(auto)]

pub mod builder_handle;
pub mod builders;
pub mod byte_edits;
pub mod change_edits;
pub mod change_sets;
mod change_status;
pub mod changes;
pub mod changes_handle;
pub mod char_edits;
pub mod chunks;
pub mod compare;
pub mod conversions;
pub mod copies;
pub mod counts;
mod encodings;
pub mod file_reading;
pub mod file_writing;
mod fill;
pub mod handle;
mod held;
pub mod intake;
pub mod lengths;
pub mod lent;
pub mod lent_changes;
pub mod lookups;
mod macros;
pub mod makers;
pub mod pieces;
pub mod positions;
pub mod replace;
pub mod slices;
pub mod status;
pub mod texts;
pub mod version;
