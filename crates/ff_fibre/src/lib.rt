//! The algebra of an order modulo u - a: a basis, the coordinates of elements, and the table of the
//! products of the basis.
#![tactic(auto)]

mod numerators;
mod parts;
mod products;
mod readings;

pub use numerators::{basis_numerator, linear, power_numerator};
pub use parts::Fibre;
pub use products::fibre_at;
pub use readings::coordinates;
