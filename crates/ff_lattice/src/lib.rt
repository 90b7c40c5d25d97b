//! Polynomials in u and theta, the rows of a chart of E(f): remainders by its equation, residues
//! modulo a polynomial in u, and the vectors of their coefficients.
#![tactic(auto)]

mod division;
mod modulo;
mod vectors;

pub use division::{product, remainder};
pub use modulo::residues;
pub use vectors::{plane_of_vector, vector_of_plane};
