//! Lemmas that orders and their common elements share: residues at infinity of quotients, and
//! combinations of a basis that have a property.
#![tactic(auto)]

/// The crate is definitions and proofs; a crate of Rattle has at least one function.
pub fn nothing() {}
