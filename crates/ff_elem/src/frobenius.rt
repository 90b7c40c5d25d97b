// Powers to the characteristic.
ghost use Rattle.std.specs.Prelude.{◌≡◌, ◌-◌, IfOk, OnOk};
ghost use Rattle.std.specs.List.{All};
ghost use Rattle.ff_theory.specs.Ring.{IsElement, power};
ghost use Rattle.ff_theory.specs.Values.{poly_of, polys_over, IsPoly, ArePolys};
ghost use Rattle.ff_theory.specs.Values.{plane_of, planes_over};
ghost use Rattle.ff_elem.specs.Elem.{algebra_in, elem_of, IsElem};
ghost use Rattle.ff_elem.specs.Zeros.{AddsZeros};

use crate::algebra::Alg;
use crate::elem::Elem;
use crate::fractions::push_zero_rows;
use ff_alg::{FiniteField, NoMemory};
use ff_poly::{Plane, Poly};
use std::alloc::Global;

/// Adds `n` zeros.
fn push_zeros<K: FiniteField<E = u32>>(k: &K, list: &mut Vec<u32>, n: u64) -> Result<(), NoMemory>
    requires { All (IsElement (K.elements k.now)) list.old.items }
    ensures each { OnOk result (All (IsElement (K.elements k.now)) list.new.items) }
    ensures zeros { let F = K.elements k.now in
        OnOk result (AddsZeros F.ring F.value list.old.items list.new.items n) }
{
    for _i in 0..n {
        list.push(k.zero())?;
    }
    Ok(())
}

/// The power to the characteristic of a polynomial in x.
fn poly_power<K: FiniteField<E = u32>>(alloc: Global, k: &K, p: &Poly) -> Result<Poly, NoMemory>
    requires { IsPoly (K.elements k.now) p.now }
    ensures poly { IfOk result (IsPoly (K.elements k.now)) }
    ensures value { let F = K.elements k.now in let P = polys_over F in
        IfOk result (λ r. poly_of F r ≡ power P (poly_of F p.now) F.characteristic) }
{
    let between = k.characteristic() - 1;
    let mut list = Vec::new(alloc);
    for c in p.coeffs() {
        list.push(k.frob(*c))?;
        push_zeros(k, &mut list, between)?;
    }
    Poly::from_coeffs(alloc, k, &list)
}

/// The power to the characteristic of a polynomial in x and y, by its rows.
fn rows_power<K: FiniteField<E = u32>>(
    alloc: Global,
    k: &K,
    rows: &[Poly],
) -> Result<Vec<Poly>, NoMemory>
    requires { ArePolys (K.elements k.now) rows.now }
    ensures each { IfOk result (λ r. ArePolys (K.elements k.now) r.items) }
    ensures value { let F = K.elements k.now in let Q = planes_over F in
        IfOk result (λ r. plane_of F r.items ≡ power Q (plane_of F rows.now) F.characteristic) }
{
    let between = k.characteristic() - 1;
    let mut powers = Vec::new(alloc);
    for p in rows {
        powers.push(poly_power(alloc, k, p)?)?;
        push_zero_rows(alloc, k, &mut powers, between)?;
    }
    Ok(powers)
}

impl<K: FiniteField<E = u32>> Alg<K> {
    /// The power to the characteristic: that of each coefficient, with the powers of x and y
    /// multiplied by it.
    pub fn frob(&self, alloc: Global, a: &Elem) -> Result<Elem, NoMemory>
        requires { IsElem (K.lawful self.now.k) self.now.f a.now }
        ensures element { let L = K.lawful self.now.k in IfOk result (IsElem L self.now.f) }
        ensures value { let F = K.elements self.now.k in let L = K.lawful self.now.k in
            let f = self.now.f in let A = algebra_in L f in
            IfOk result (λ r. elem_of L f r ≡ power A (elem_of L f a.now) F.characteristic) }
    {
        let den = poly_power(alloc, &self.k, &a.den)?;
        let rows = rows_power(alloc, &self.k, a.num.rows())?;
        let num = Plane::from_vec(&self.k, rows);
        self.from_parts(alloc, &num, &den)
    }
}
