// Charts, separability and orders as plain data.
use crate::system::System;
use ff_elem::Elem;
use ff_lin::Space;
use ff_poly::{Plane, Poly};

/// One of the two charts of E(f). Its variable u is x in the finite chart, and t = 1/x in the
/// infinite one; theta is y', and y''.
#[derive(Clone, Copy, PartialEq, Eq, Debug)]
pub enum Chart {
    Finite,
    Infinite,
}

/// Why an equation f is separable in y: a polynomial d in x that is not 0, and an element b of the
/// finite power order whose product with the derivative of the monic form at y' is d.
#[derive(Drop)]
pub struct Sep {
    pub d: Poly,
    pub b: Elem,
}

/// An order of a chart: the elements w for which d times each coordinate of w in powers of theta is
/// a polynomial in u (in the infinite chart: has degree at most 0), and for which the residues of
/// these products modulo d form a vector of the space. The vector lists, for each power of theta
/// from 0, the residues by rising power of u: its length is n times the degree of d.
#[derive(Drop)]
pub struct Order {
    pub chart: Chart,
    pub theta: Elem,
    pub d: Poly,
    pub space: Space,
}

/// Why there is no answer; `which`, 1 or 2, is the equation that does not meet a premise.
#[derive(Drop)]
pub enum Refusal {
    /// The derivative of the equation in y is 0.
    Inseparable { which: u8 },
    /// The equation is a polynomial in x times g * h; both are normalised and have positive
    /// y-degree.
    Reducible { which: u8, g: Plane, h: Plane },
    /// The maximal orders of the first field have no points.
    NoRationalPlace { finite: Order, infinite: Order },
    /// No point of the first field has a pole system within the pole limit.
    PoleLimit,
    /// The pole system of the first field has the gap number 0 or 1.
    SmallGenus { system: System },
    NoMemory,
}
