//! The maximal orders of E(f), by the descent by p-th powers from the elements that the different
//! carries into the power order.
#![tactic(auto)]

mod chart;
mod closure;
mod combine;
mod descent;
mod different;
mod elements;
mod images;
mod infinite;
mod level;
mod monic;
mod narrowing;
mod power;
mod start;
mod turn;
mod vectors;

pub use descent::maximal;
