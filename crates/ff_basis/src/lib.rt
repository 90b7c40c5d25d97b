//! The canonical list of an order: a basis of its elements modulo the power order.
#![tactic(auto)]

mod blocks;
mod order_list;
mod parts;
mod reading;

pub use order_list::order_basis;
