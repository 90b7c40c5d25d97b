//! The inverse pair of a candidate: the images of x and y of the second field under the inverse of
//! the map that the candidate stands for.
#![tactic(auto)]

mod pair;
mod pull;

pub use pair::back;
