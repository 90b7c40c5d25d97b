//! Relations of pole systems: an element w of the ring whose weight is prime to e, its relation
//! over k[z], and the basis written over its powers.
#![tactic(auto)]

mod annihilator;
mod bases;
mod choice;
mod reduce;
mod relations;

pub use bases::powers;
pub use relations::relation;
