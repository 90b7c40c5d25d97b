// Division with remainder.
ghost use Rattle.std.specs.Prelude.{◌≡◌, ◌<◌, ◌≤◌, length, take, drop, IfOk};
ghost use Rattle.std.specs.List.{All};
ghost use Rattle.ff_theory.specs.Ring.{IsElement};
ghost use Rattle.ff_theory.specs.Division.{IsDivision};
ghost use Rattle.ff_theory.specs.Values.{poly_of, IsPoly, polys_over};

use crate::Poly;
use ff_alg::{FiniteField, NoMemory};
use smallvec::SmallVec;
use std::alloc::Global;

impl Poly {
    /// The quotient and the remainder by `b`, which is not 0: schoolbook division, in place on one
    /// row. The remainder has fewer coefficients than `b`.
    pub fn divide<K: FiniteField<E = u32>>(
        &self,
        alloc: Global,
        k: &K,
        b: &Poly,
    ) -> Result<(Poly, Poly), NoMemory>
        requires a { All (IsElement (K.elements k.now)) self.now }
        requires b { IsPoly (K.elements k.now) b.now }
        requires nonzero { 0 < length b.now }
        ensures quotient { IfOk result (λ r. IsPoly (K.elements k.now) r.0) }
        ensures remainder { IfOk result (λ r. IsPoly (K.elements k.now) r.1) }
        ensures division { let F = K.elements k.now in
            IfOk result (λ r. IsDivision F.ring (poly_of F self.now) (poly_of F b.now)
            (poly_of F r.0) (poly_of F r.1)) }
    {
        let mut row = SmallVec::from_slice(alloc, self.coeffs())?;
        let cut = divide_row(k, row.as_mut_slice(), b.coeffs());
        let quotient = Poly::from_coeffs(alloc, k, &row.as_slice()[cut..])?;
        row.truncate(cut);
        Ok((quotient, Poly::trim(k, row)))
    }

    /// The remainder by `b`, which is not 0; the list is changed in place.
    pub(crate) fn into_remainder<K: FiniteField<E = u32>>(self, k: &K, b: &Poly) -> Poly
        requires a { All (IsElement (K.elements k.now)) self }
        requires b { IsPoly (K.elements k.now) b.now }
        requires nonzero { 0 < length b.now }
        ensures poly { IsPoly (K.elements k.now) result }
        ensures smaller { length result < length b.now }
        ensures division { let F = K.elements k.now in let P = polys_over F in
            (q : P.carrier) × IsDivision F.ring (poly_of F self) (poly_of F b.now)
            q (poly_of F result) }
    {
        let mut row = self.items;
        let cut = divide_row(k, row.as_mut_slice(), b.coeffs());
        row.truncate(cut);
        Poly::trim(k, row)
    }

    /// The remainder by `b`, which is not 0; it has fewer coefficients than `b`.
    pub fn remainder<K: FiniteField<E = u32>>(
        &self,
        alloc: Global,
        k: &K,
        b: &Poly,
    ) -> Result<Poly, NoMemory>
        requires a { All (IsElement (K.elements k.now)) self.now }
        requires b { IsPoly (K.elements k.now) b.now }
        requires nonzero { 0 < length b.now }
        ensures poly { IfOk result (IsPoly (K.elements k.now)) }
        ensures division { let F = K.elements k.now in let P = polys_over F in
            IfOk result (λ r. (q : P.carrier) × IsDivision F.ring (poly_of F self.now)
            (poly_of F b.now) q (poly_of F r)) }
    {
        Ok(self.copy(alloc)?.into_remainder(k, b))
    }
}

/// Divides `row` by `b` in place, and returns where the quotient begins: the entries before it
/// are the remainder.
pub fn divide_row<K: FiniteField<E = u32>>(k: &K, row: &mut [u32], b: &[u32]) -> usize
    requires row { All (IsElement (K.elements k.now)) row.old }
    requires b { IsPoly (K.elements k.now) b.now }
    requires nonzero { 0 < length b.now }
    ensures within { result ≤ length row.old }
    ensures smaller { result < length b.now }
    ensures len { length row.new ≡ length row.old }
    ensures each { All (IsElement (K.elements k.now)) row.new }
    ensures value { let F = K.elements k.now in let P = polys_over F in
        poly_of F row.old ≡ P.add
        (P.mul (poly_of F (drop result row.new)) (poly_of F b.now))
        (poly_of F (take result row.new)) }
{
    let degree = b.len() - 1;
    if row.len() <= degree {
        return row.len();
    }
    let low = &b[..degree];
    let inverse = k.inv(b[degree]);
    for at in (0..row.len() - degree).rev() {
        let top = at + degree;
        let digit = k.mul(row[top], inverse);
        k.add_scaled(&mut row[..top], at, k.neg(digit), low);
        row[top] = digit;
    }
    degree
}
