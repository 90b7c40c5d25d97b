//! The theory of charts of E(f): power orders, residue lattices, and the finite and the infinite
//! chart, as definitions and lemmas for the crates that compute maximal orders.
#![tactic(auto)]

/// The crate is definitions and proofs; a crate of Rattle has at least one function.
pub fn nothing() {}
