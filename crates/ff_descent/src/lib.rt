//! The theory of the descent by p-th powers to the integral elements of a chart, as definitions
//! and lemmas for the crate that computes maximal orders.
#![tactic(auto)]

/// The crate is definitions and proofs; a crate of Rattle has at least one function.
pub fn nothing() {}
