//! The isomorphism list of two equations: the search for the isomorphisms of their function fields
//! by the pole systems of their points.
#![tactic(auto)]

mod choice;
mod curve;
mod entry;
mod isomorphisms;
mod known;
mod places;
mod profile;
mod search;
mod slopes;
mod starts;

pub use isomorphisms::isos;
pub use starts::{KeptParts, kept};
