// The least functions of a point.
use ff_data::{ElemList, NumberList};
use ff_elem::Elem;

/// The greatest pole number that is looked at.
pub const POLE_LIMIT: u32 = 1200;

/// Functions with poles at one point only: e is the least positive pole number, z has a pole of
/// order e, and b_i has one of the order `weights[i]`, which is the least pole number with
/// remainder i modulo e; b_0 is 1. This project's own, after the Apery sets of numerical
/// semigroups.
#[derive(Drop)]
pub struct Functions {
    pub e: u32,
    pub z: Elem,
    pub b: ElemList,
    pub weights: NumberList,
}
