//! Separability of an equation in y.
#![tactic(auto)]

mod parts;
mod separability;

pub use separability::{SepFault, separate};
