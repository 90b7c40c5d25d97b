//! The points of an order, all of them, by rising data.
#![tactic(auto)]

mod all;
mod fibres;
mod keys;
mod list;
mod values;

pub use all::points;
pub use list::PointList;
