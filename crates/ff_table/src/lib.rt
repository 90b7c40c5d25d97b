//! The theory of the ring of a table: coordinates over k[z], their sums and products by the table,
//! weights and leading terms, and the search for the roots of a polynomial over it, as definitions
//! and lemmas for the crates of pole systems and of the search.
#![tactic(auto)]

/// The crate is definitions and proofs; a crate of Rattle has at least one function.
pub fn nothing() {}
