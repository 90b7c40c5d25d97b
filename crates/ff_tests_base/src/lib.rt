//! The tests of the crates up to `ff_elem`: each public call of theirs at least once, at prime
//! fields, and what no contract says. What the tests make, the tests of the crates above make too.
#![tactic(auto)]

pub mod algebras;
#[cfg(test)]
mod divisors;
#[cfg(test)]
mod elem;
#[cfg(test)]
mod io;
#[cfg(test)]
mod lin;
pub mod made;
#[cfg(test)]
mod planes;
#[cfg(test)]
mod poly;
#[cfg(test)]
mod prime;
#[cfg(test)]
mod rows;
