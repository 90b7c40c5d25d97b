//! The constants of E(f), and whether f is irreducible over k(x).
#![tactic(auto)]

mod factors;
mod fixed;
mod irreducible;
mod keys;

pub use factors::SplitFault;
pub use irreducible::{constants, split};
