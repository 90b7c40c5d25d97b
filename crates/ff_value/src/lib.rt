//! The value of an element at a point of an order.
#![tactic(auto)]

mod evaluation;
mod infinite;
mod monic;
mod numerators;

pub use evaluation::value;
