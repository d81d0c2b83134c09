//! Tests of the owners of values on the heap, in a crate of their own so that the owners' proofs
//! aren't checked again with them.
#![tactic(auto)]

#[cfg(test)]
mod one_thread;
#[cfg(test)]
mod several_threads;
