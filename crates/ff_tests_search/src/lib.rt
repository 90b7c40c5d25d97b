//! Tests of the search for isomorphisms, at prime fields.
#![tactic(auto)]

#[cfg(test)]
mod search;
