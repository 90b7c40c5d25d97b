//! Elements by coordinates in a pole system.
#![tactic(auto)]

mod expression;

pub use expression::express;
