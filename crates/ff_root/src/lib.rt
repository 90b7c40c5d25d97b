//! The search for the roots, in the ring of a pole system, of a polynomial over it: level by level,
//! by the roots of leading polynomials.
#![tactic(auto)]

mod leading;
mod search;
mod state;

pub use search::roots;
