//! The algebra E(f), which is k(x)[y]/f: its elements in lowest terms, sums, products, inverses
//! and keys.
#![tactic(auto)]

mod algebra;
mod elem;
mod euclid;
mod factors;
mod fractions;
mod frobenius;
mod inverse;
mod key;

pub use algebra::Alg;
pub use elem::{Elem, PolyList};
pub use inverse::InvFault;
