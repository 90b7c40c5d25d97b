//! Plain data of function fields: pairs of elements, lists of pairs with their inverses, orders,
//! points, spaces of functions and pole systems.
#![tactic(auto)]

mod chart;
mod combine;
mod list;
mod monic;
mod order;
mod pair;
mod point;
mod quotients;
mod ring;
mod search;
mod system;
mod value;
mod vectors;

pub use chart::{chart_equation, equation_at_infinity, raise, variable_power};
pub use combine::{combination, combinations};
pub use list::{CoordsList, ElemList, NumberList};
pub use monic::{leading, monic_of, times_power};
pub use order::{Chart, Order, Refusal, Sep};
pub use pair::{Entry, EntryList, IsoList, Pair};
pub use point::{Point, Pole, RRSpace};
pub use quotients::{quotients_by, raised_quotients, reversals};
pub use ring::{constant, in_ring, plus_product, value_of_poly};
pub use search::{Candidate, Relation};
pub use system::{Coords, PolyLists, System, Table, gap_number};
pub use value::value_of_numerator;
pub use vectors::flatten;
