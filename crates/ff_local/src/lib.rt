//! The theory of an order at one of its points: pole modules, leading values, and the element
//! whose powers give them, in the abstract and for the orders of a chart.
#![tactic(auto)]

/// The crate is definitions and proofs; a crate of Rattle has at least one function.
pub fn nothing() {}
