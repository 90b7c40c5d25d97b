// Points, pole modules and the spaces of functions with poles at one point only.
use crate::list::{ElemList, NumberList};
use crate::order::Chart;
use ff_lin::Space;
use ff_poly::Poly;

/// A point of an order: the values a of u and `theta` of theta, and the values of the elements that
/// the basis vectors of the order's space stand for, in that order. In the infinite chart a is 0.
#[derive(Drop)]
pub struct Point {
    pub chart: Chart,
    pub a: u32,
    pub theta: u32,
    pub values: NumberList,
}

/// The elements w for which w times any j elements of the kernel of the point is in the point's
/// order. It is read as an order is, with its own d.
#[derive(Drop)]
pub struct Pole {
    pub point: Point,
    pub j: u32,
    pub d: Poly,
    pub space: Space,
}

/// A basis of the space L_j of a point (Stichtenoth, *Algebraic Function Fields and Codes*, section
/// 1.4): the functions without poles but one of order j at most at the point.
#[derive(Drop)]
pub struct RRSpace {
    pub j: u32,
    pub basis: ElemList,
}
