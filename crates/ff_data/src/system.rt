// Pole systems: data that describe the ring of the functions with poles at one point only.
ghost use Rattle.std.specs.Prelude.{◌≡◌, ◌^◌, ◌<◌};
ghost use Rattle.ff_data.specs.Systems.{gaps_of};

use crate::list::{ElemList, NumberList};
use ff_elem::{Elem, PolyList};
use ff_poly::Poly;
use std::marker::Model;

/// An element w by coordinates over k[z] in a pole system: `q(z)*w` is the sum of the `c_l(z)*b_l`.
#[derive(Drop)]
pub struct Coords {
    pub q: Poly,
    pub c: PolyList,
}

/// A list of lists of polynomials, coordinates of elements. Contracts see it as that list.
#[derive(Drop)]
pub struct PolyLists {
    pub items: Vec<PolyList>,
}

impl Model for PolyLists {
    ghost use Rattle.std.specs.Prelude.{ℕ, List};

    ghost Value = { List (List (List ℕ)) };

    ghost view = { λ l. l.items.items };
}

/// The coordinates of the products of each two elements of a basis. Contracts see it as a list of
/// lists of coordinates.
#[derive(Drop)]
pub struct Table {
    pub rows: Vec<PolyLists>,
}

impl Model for Table {
    ghost use Rattle.std.specs.Prelude.{ℕ, List};

    ghost Value = { List (List (List (List ℕ))) };

    ghost view = { λ t. t.rows.items };
}

/// A pole system at a point: e is the least positive pole number, z has a pole of order e, b_i has
/// one of the order `weights[i]`, which is the least pole number with remainder i modulo e, the
/// table has the products of the b_i, and x and y are written over polynomials in z. This project's
/// own, after the Apery sets of numerical semigroups.
#[derive(Drop)]
pub struct System {
    pub e: u32,
    pub z: Elem,
    pub b: ElemList,
    pub weights: NumberList,
    pub table: Table,
    pub x: Coords,
    pub y: Coords,
}

/// The gap number of a system: the sum of the whole parts of the weights divided by e. For a pole
/// system it is the number of gaps of the point, the genus (Stichtenoth, section 1.6). It takes no
/// memory.
pub fn gap_number(s: &System) -> u32
    requires positive { 0 < s.now.e }
    requires room { gaps_of s.now.e s.now.weights < 2 ^ 32 }
    ensures { result ≡ gaps_of s.now.e s.now.weights }
{
    let mut gaps = 0;
    for i in 0..s.weights.items.len() {
        gaps += s.weights.items[i] / s.e;
    }
    gaps
}
