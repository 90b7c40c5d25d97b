//! Pole systems of points: from the spaces L_j, and from the least functions of a point.
#![tactic(auto)]

mod find;
mod numbers;
mod pick;
mod spaces;

pub use find::find_system;
pub use spaces::system;
