//! The ring of a pole system by coordinates over k[z]: lists of e polynomials c, each for the sum
//! of the `c_l(z)*b_l`. Sums, products by the table, weights, and polynomials over the ring.
#![tactic(auto)]

mod element;
mod level;
mod line;
mod linear;
mod product;
mod scalar;
mod shift;
mod sum;
mod weight;

pub use element::fraction;
pub use level::{Monomial, class_of, is_level, monomial_poly, power_of};
pub use line::{affine, affine_each, divide_each};
pub use linear::{basis_vector, is_zero_each, plus_at, ring_add, ring_scale, zero_coords};
pub use product::{plus_basis_product, ring_mul};
pub use scalar::{inverse_or_zero, leading_coefficient};
pub use shift::{ring_eval, ring_shift};
pub use sum::sum_at;
pub use weight::{Term, top, weight_bound};
