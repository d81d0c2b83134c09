//! Owners of values on the heap in one thread: no count takes an atomic instruction. They lie in
//! the block of an `Rc`. So without a move of the value a `Sole` becomes an `Rc` (`into_rc`) or
//! takes the place of one (`reset`), and an `Rc` with no other handle becomes a `Sole` (`claim`).
mod shared;
mod sole;

pub use shared::Shared;
pub use sole::Sole;
