//! The elements that a lattice of the finite chart and one of the infinite chart have in common.
#![tactic(auto)]

mod both_charts;
mod held;
mod images;
mod numerators;
mod times;

pub use both_charts::{common, quotient};
pub use images::{quotient_rows, reversed_vector, slope_at_infinity};
pub use numerators::element;
pub use times::{power_times_space, times_space, times_vector, times_vectors};
