//! The least functions of a point, by one elimination: functions with poles at the point only, of
//! the least positive pole number and of the least one in each of its classes.
#![tactic(auto)]

mod answer;
mod assembly;
mod echelon;
mod frame;
mod images;
mod numbers;
mod run;
mod search;

pub use run::functions_at;
