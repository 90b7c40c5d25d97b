//! The theory of integral elements of a chart: what the different carries into the power order,
//! and when it has an inverse, as definitions and lemmas for the crates that compute maximal
//! orders.
#![tactic(auto)]

/// The crate is definitions and proofs; a crate of Rattle has at least one function.
pub fn nothing() {}
