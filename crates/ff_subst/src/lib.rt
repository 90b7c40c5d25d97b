//! Elements of E(g) put for x and y: values of elements of E(f), satisfying pairs, inverse pairs.
#![tactic(auto)]

mod blocks;
mod cleared;
mod evaluation;
mod inverse;
mod modulo;
mod modulus;
mod powers;
mod residue;
mod tests;
mod values;

pub use inverse::{is_inverse, satisfies, substitute};
