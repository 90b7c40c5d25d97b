// Elements of an algebra: a denominator and numerators.
ghost use Rattle.std.specs.Prelude.{◌≡◌, ◌↔◌, IfOk, IsTrue};

use ff_alg::{FiniteField, NoMemory};
use ff_poly::Poly;
use ff_poly::rows::{copies, same_rows};
use std::alloc::Global;
use std::marker::Model;

/// A list of polynomials in x. Contracts see it as that list.
///
/// `NoMemory` is the only error of its calls, and comes only where memory runs out.
#[derive(Drop)]
pub struct PolyList {
    pub items: Vec<Poly>,
}

impl Model for PolyList {
    ghost use Rattle.std.specs.Prelude.{ℕ, List};

    ghost Value = { List (List ℕ) };

    ghost view = { λ l. l.items.items };
}

/// An element of the algebra of an equation of y-degree n: a monic denominator and n numerators,
/// polynomials in x that no polynomial of positive degree divides all.
/// It stands for the sum of numerator i times `y^i`, over the denominator.
///
/// `NoMemory` is the only error of its calls, and comes only where memory runs out.
/// Each element of the algebra has exactly one such form; that it is kept is this project's own.
#[derive(Drop)]
pub struct Elem {
    pub den: Poly,
    pub num: PolyList,
}

impl Elem {
    /// Whether two elements have the same parts.
    pub fn same<K: FiniteField<E = u32>>(&self, k: &K, b: &Elem) -> bool
        ensures { IsTrue result ↔ (self.now ≡ b.now) }
    {
        if !self.den.same(k, &b.den) {
            return false;
        }
        same_rows(k, self.num.rows(), b.num.rows())
    }

    /// An equal element.
    pub fn copy(&self, alloc: Global) -> Result<Elem, NoMemory>
        ensures { IfOk result (λ r. r ≡ self.now) }
    {
        Ok(Elem {
            den: self.den.copy(alloc)?,
            num: self.num.copy(alloc)?,
        })
    }
}

impl PolyList {
    /// The polynomials of the list.
    pub fn rows(&self) -> &[Poly]
        ensures { result.now ≡ self.now }
    {
        &self.items
    }

    /// An equal list.
    pub fn copy(&self, alloc: Global) -> Result<PolyList, NoMemory>
        ensures { IfOk result (λ r. r ≡ self.now) }
    {
        Ok(PolyList {
            items: copies(alloc, self.rows())?,
        })
    }
}
