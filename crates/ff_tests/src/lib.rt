//! The tests of the crates above `ff_elem`: each public call of theirs at least once, at prime
//! fields, and what no contract says. Whole runs are the table of `ff_rows`.
#![tactic(auto)]

#[cfg(test)]
mod constants;
#[cfg(test)]
mod make;
#[cfg(test)]
mod order;
pub mod pairs;
#[cfg(test)]
mod points;
#[cfg(test)]
mod sep;
#[cfg(test)]
mod subst;
#[cfg(test)]
mod text;
#[cfg(test)]
mod top;
#[cfg(test)]
mod values;
