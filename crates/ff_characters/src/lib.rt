//! The characters of a finite algebra over a finite field, by the table of its products.
#![tactic(auto)]

mod eigenspaces;
mod functionals;

pub use eigenspaces::{dot, eigenspace};
pub use functionals::characters;
