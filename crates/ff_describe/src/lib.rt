//! Pole systems from the least functions of a point: the table of their products, and x and y over
//! polynomials in z.
#![tactic(auto)]

mod coordinates;
mod expression;
mod levels;
mod products;
mod systems;
mod tables;

pub use expression::express_within;
pub use systems::{describe, describe_within};
