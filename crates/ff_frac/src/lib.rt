//! Functions with a pole at a point of an order: the powers of one of them as numerators over
//! powers of u - a, the pole modules that they make, and orders by smaller denominators.
#![tactic(auto)]

mod module;
mod numerators;
mod powers;
mod shrink;
mod socle;
mod values;

pub use module::pole_module;
pub use powers::Powers;
pub use shrink::shrunk;
