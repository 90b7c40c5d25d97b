//! The equations that the program forms of a number, two curves that are isomorphic.
#![tactic(auto)]

mod curve;
mod generator;

pub use generator::generate;
