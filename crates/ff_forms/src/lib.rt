//! The forms of points, of functions at a point, of relations and of candidates, and the least
//! functions of a point as plain data.
#![tactic(auto)]

mod functions;

pub use functions::{Functions, POLE_LIMIT};
