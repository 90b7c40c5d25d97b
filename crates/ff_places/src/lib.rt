//! The theory of isomorphisms between fields E(f) and E(g) and of their points: an isomorphism
//! carries the spaces of a point with a pole system onto those of a point.
#![tactic(auto)]

/// The crate is proofs; a crate of Rattle has at least one function.
pub fn nothing() {}
