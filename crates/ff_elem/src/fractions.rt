// Elements from rows over a polynomial in x.
ghost use Rattle.std.specs.Prelude.{◌≡◌, ℕ, ◌<◌, length, IfOk, OnOk};
ghost use Rattle.ff_theory.specs.Lawful.{lawful_field};
ghost use Rattle.ff_theory.specs.Poly.{coeff};
ghost use Rattle.ff_theory.specs.LowestTerms.{IsLowest};
ghost use Rattle.ff_theory.specs.Values.{poly_of, polys_of, polys_over, IsPoly, ArePolys, IsPlane};
ghost use Rattle.ff_elem.specs.Elem.{elem_of, over_in, plane_in, IsElem};
ghost use Rattle.ff_elem.specs.Zeros.{AddsZeros};

use crate::algebra::Alg;
use crate::elem::{Elem, PolyList};
use ff_alg::{FiniteField, NoMemory};
use ff_poly::{Plane, Poly};
use std::alloc::Global;

/// Adds `n` zero rows.
pub fn push_zero_rows<K: FiniteField<E = u32>>(
    alloc: Global,
    k: &K,
    rows: &mut Vec<Poly>,
    n: u64,
) -> Result<(), NoMemory>
    requires { ArePolys (K.elements k.now) rows.old.items }
    ensures each { OnOk result (ArePolys (K.elements k.now) rows.new.items) }
    ensures zeros { let F = K.elements k.now in
        OnOk result (AddsZeros (polys_over F) (poly_of F) rows.old.items rows.new.items n) }
{
    let _field = k;
    for _i in 0..n {
        rows.push(Poly::zero(alloc))?;
    }
    Ok(())
}

/// The fractions `num[i] / den`, where `den` is not 0, in lowest terms; as many as there were.
fn lowest_terms<K: FiniteField<E = u32>>(
    alloc: Global,
    k: &K,
    den: Poly,
    num: Vec<Poly>,
) -> Result<Elem, NoMemory>
    requires den { IsPoly (K.elements k.now) den }
    requires nonzero { 0 < length den }
    requires num { ArePolys (K.elements k.now) num.items }
    ensures den { IfOk result (λ r. IsPoly (K.elements k.now) r.den) }
    ensures num { IfOk result (λ r. ArePolys (K.elements k.now) r.num) }
    ensures lowest { let F = K.elements k.now in let L = K.lawful k.now in
        IfOk result (λ r. IsLowest (lawful_field L) (length num.items)
        (poly_of F r.den) (polys_of F r.num)) }
    ensures equal { let F = K.elements k.now in let P = polys_over F in
        IfOk result (λ r. (i : ℕ) → i < length num.items →
        P.mul (coeff P (polys_of F r.num) i) (poly_of F den) ≡
        P.mul (coeff P (polys_of F num.items) i) (poly_of F r.den)) }
{
    if den.is_one(k) {
        return Ok(Elem {
            den,
            num: PolyList { items: num },
        });
    }
    let (den, items) = Poly::lowest(alloc, k, &den, &num)?;
    Ok(Elem {
        den,
        num: PolyList { items },
    })
}

impl<K: FiniteField<E = u32>> Alg<K> {
    /// Rows, fewer than those of the equation, over `den`, which is not 0.
    pub(crate) fn fraction(
        &self,
        alloc: Global,
        den: Poly,
        rows: Vec<Poly>,
    ) -> Result<Elem, NoMemory>
        requires den { IsPoly (K.elements self.now.k) den }
        requires nonzero { 0 < length den }
        requires rows { ArePolys (K.elements self.now.k) rows.items }
        requires small { length rows.items < length self.now.f }
        ensures element { let L = K.lawful self.now.k in IfOk result (IsElem L self.now.f) }
        ensures value { let L = K.lawful self.now.k in let f = self.now.f in
            IfOk result (λ r. elem_of L f r ≡ over_in L f rows.items den) }
    {
        let mut num = rows;
        let missing = self.f.rows().len() - 1 - num.len();
        push_zero_rows(alloc, &self.k, &mut num, missing as u64)?;
        let element = lowest_terms(alloc, &self.k, den, num)?;
        Ok(element)
    }

    /// A polynomial in x and y, reduced by the equation.
    pub(crate) fn from_plane(&self, alloc: Global, num: &Plane) -> Result<Elem, NoMemory>
        requires { IsPlane (K.elements self.now.k) num.now }
        ensures element { let L = K.lawful self.now.k in IfOk result (IsElem L self.now.f) }
        ensures value { let L = K.lawful self.now.k in let f = self.now.f in
            IfOk result (λ r. elem_of L f r ≡ plane_in L f num.now) }
    {
        let one = Poly::one(alloc, &self.k)?;
        self.from_parts(alloc, num, &one)
    }

    /// The polynomial in x and y with these rows, reduced by the equation.
    pub(crate) fn from_rows(&self, alloc: Global, rows: Vec<Poly>) -> Result<Elem, NoMemory>
        requires { ArePolys (K.elements self.now.k) rows.items }
        ensures element { let L = K.lawful self.now.k in IfOk result (IsElem L self.now.f) }
        ensures value { let L = K.lawful self.now.k in let f = self.now.f in
            IfOk result (λ r. elem_of L f r ≡ plane_in L f rows.items) }
    {
        let num = Plane::from_vec(&self.k, rows);
        self.from_plane(alloc, &num)
    }
}
