//! The theory of factors of polynomials in x and y over k(x): Gauss's lemma, normalised polynomials
//! and the factors that a divisor of zero of E(f) gives, as definitions and lemmas for the crates
//! that factor.
#![tactic(auto)]

/// The crate is definitions and proofs; a crate of Rattle has at least one function.
pub fn nothing() {}
