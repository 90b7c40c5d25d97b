//! The theory of the values of the elements of an order of a chart at a point: they are those by
//! the values of u, of theta and of a basis; functionals on a fibre, and points by data.
#![tactic(auto)]

/// The crate is proofs; a crate of Rattle has at least one function.
pub fn nothing() {}
