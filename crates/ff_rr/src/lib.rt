//! The spaces L_j of functions without poles but at one point.
#![tactic(auto)]

mod functions;

pub use functions::space;
