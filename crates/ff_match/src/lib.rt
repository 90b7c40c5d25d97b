//! Maps of the ring of one pole system into that of another: systems that can be isomorphic, the
//! relation with `alpha*z + beta` for z, and the candidates that the roots of it give.
#![tactic(auto)]

mod checks;
mod images;
mod list;
mod search;
mod shapes;

pub use list::CandidateList;
pub use search::candidates;
pub use shapes::{alike, shifted};
