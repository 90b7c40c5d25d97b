//! The theory of pole systems by their data: what the spaces of a point of maximal orders are, and
//! that the table of a pole system meets the table rule.
#![tactic(auto)]

/// The crate is proofs; a crate of Rattle has at least one function.
pub fn nothing() {}
