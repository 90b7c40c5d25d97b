//! Vectors modulo a space: bases and coordinates.
#![tactic(auto)]

mod bases;

pub use bases::{basis_modulo, coordinates_modulo, solve_modulo};
