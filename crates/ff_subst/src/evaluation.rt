// The value of a bivariate polynomial at a pair (X, Y), modulo m: Horner's rule by the powers of x,
// whose coefficients are polynomials in y.
ghost use Rattle.std.specs.Prelude.{◌≡◌, ◌≤◌, ◌<◌, ◌+◌, ℕ, List, length, IfOk, [], ◌∷◌};
ghost use Rattle.std.specs.Prelude.{slice_index_or as get_or};
ghost use Rattle.ff_theory.specs.Ring.{IsElement};
ghost use Rattle.ff_theory.specs.Lawful.{lawful_field};
ghost use Rattle.ff_theory.specs.Values.{poly_of, plane_of, IsPlane, planes_over};
ghost use Rattle.ff_theory.specs.Planes.{row_of};
ghost use Rattle.ff_elem.specs.Elem.{algebra_in};
ghost use Rattle.ff_data.specs.Substitution.{plane_at_pair};
ghost use Rattle.ff_subst.specs.Congruence.{IsModulus, ArePlanes};
ghost use Rattle.ff_theory.specs.Values.{ArePolys};
ghost use Rattle.ff_subst.specs.Columns.{column_in, plane_combination, constant_at};
ghost use Rattle.ff_subst.specs.Residues.{IsReduced, AreReduced, IsResidue};
ghost use Rattle.ff_subst.specs.Powers.{AreMultiples, IsSubstitution, IsReducedPair};

use crate::powers::{Substitution, apply, zero_plane};
use crate::residue::{Residue, ResidueList, add, zero};
use ff_alg::{FiniteField, NoMemory, is_zero};
use ff_elem::Alg;
use ff_poly::rows::width;
use ff_poly::{Plane, Poly};
use std::alloc::Global;

// The sum with c times a bivariate polynomial.
pub fn plus_multiple<K: FiniteField<E = u32>>(
    alloc: Global,
    k: &K,
    sum: Plane,
    c: u32,
    plane: &Plane,
) -> Result<Plane, NoMemory>
    requires c { IsElement (K.elements k.now) c }
    requires sum { IsPlane (K.elements k.now) sum }
    requires plane { IsPlane (K.elements k.now) plane.now }
    ensures plane { IfOk result (IsPlane (K.elements k.now)) }
    ensures value { let F = K.elements k.now in let P = planes_over F in
        IfOk result (λ r. plane_of F r ≡ P.add (plane_of F sum)
        (P.mul (row_of F.ring (poly_of F (c ∷ []))) (plane_of F plane.now))) }
{
    if is_zero(k, c) {
        return Ok(sum);
    }
    let factor = Poly::from_coeffs(alloc, k, &[c])?;
    let term = plane.scale(alloc, k, &factor)?;
    sum.add(alloc, k, &term)
}

// The sum of the coefficients of x^i in the rows times the polynomials of the same index.
fn column_sum<K: FiniteField<E = u32>>(
    alloc: Global,
    k: &K,
    planes: &[Plane],
    rows: &[Poly],
    i: usize,
) -> Result<Plane, NoMemory>
    requires planes { ArePlanes (K.elements k.now) planes.now }
    requires rows { ArePolys (K.elements k.now) rows.now }
    requires enough { length rows.now ≤ length planes.now }
    ensures plane { IfOk result (IsPlane (K.elements k.now)) }
    ensures value { let F = K.elements k.now in
        IfOk result (λ r. plane_of F r ≡ plane_combination F.ring (length rows.now)
        (λ j. constant_at F rows.now i j) (λ j. plane_of F (get_or planes.now j []))) }
{
    let mut sum = zero_plane(alloc, k);
    for j in 0..rows.len() {
        let c = rows[j].coeff(k, i);
        sum = plus_multiple(alloc, k, sum, c, &planes[j])?;
    }
    Ok(sum)
}

// The coefficient of x^i at Y, from the powers of Y.
fn column<K: FiniteField<E = u32>>(
    alloc: Global,
    alg: &Alg<K>,
    powers: &ResidueList,
    rows: &[Poly],
    i: usize,
) -> Result<Residue, NoMemory>
    requires powers { AreReduced (K.elements alg.now.k) powers.now }
    requires rows { ArePolys (K.elements alg.now.k) rows.now }
    requires enough { length rows.now ≤ length powers.now.planes }
    ensures reduced { IfOk result (IsReduced (K.elements alg.now.k)) }
    ensures residue { let L = K.lawful alg.now.k in let f = alg.now.f in let A = algebra_in L f in
        IfOk result (λ r. (m : List ℕ) (Y : A.carrier) → AreMultiples L f m A.one Y powers.now →
        IsResidue L f m (column_in L f rows.now Y i) r) }
{
    let factor = powers.factor.copy(alloc)?;
    let plane = column_sum(alloc, &alg.k, powers.planes.list(), rows, i)?;
    Ok(Residue { factor, plane })
}

// One step of Horner's rule: the value times X, and the coefficient of x^i.
fn step<K: FiniteField<E = u32>>(
    alloc: Global,
    alg: &Alg<K>,
    m: &Poly,
    at: &Substitution,
    rows: &[Poly],
    i: usize,
    value: &Residue,
) -> Result<Residue, NoMemory>
    requires m { IsModulus (K.elements alg.now.k) m.now }
    requires at { IsReducedPair (K.elements alg.now.k) at.now }
    requires rows { ArePolys (K.elements alg.now.k) rows.now }
    requires enough { length rows.now ≤ length at.now.y.planes }
    requires value { IsReduced (K.elements alg.now.k) value.now }
    ensures reduced { IfOk result (IsReduced (K.elements alg.now.k)) }
    ensures residue { let L = K.lawful alg.now.k in let f = alg.now.f in let A = algebra_in L f in
        IfOk result (λ r. (X Y u : A.carrier) → IsSubstitution L f m.now X Y at.now →
        IsResidue L f m.now u value.now →
        IsResidue L f m.now (A.add (column_in L f rows.now Y i) (A.mul X u)) r) }
{
    let column = column(alloc, alg, &at.y, rows, i)?;
    let scaled = apply(alloc, alg, m, &at.x, value)?;
    add(alloc, alg, m, &column, &scaled)
}

// The polynomial with these rows at the pair.
pub fn evaluate<K: FiniteField<E = u32>>(
    alloc: Global,
    alg: &Alg<K>,
    m: &Poly,
    at: &Substitution,
    rows: &[Poly],
) -> Result<Residue, NoMemory>
    requires m { IsModulus (K.elements alg.now.k) m.now }
    requires at { IsReducedPair (K.elements alg.now.k) at.now }
    requires rows { ArePolys (K.elements alg.now.k) rows.now }
    requires enough { length rows.now ≤ length at.now.y.planes }
    ensures reduced { IfOk result (IsReduced (K.elements alg.now.k)) }
    ensures value { let F = K.elements alg.now.k in let L = K.lawful alg.now.k in
        let f = alg.now.f in let A = algebra_in L f in
        IfOk result (λ r. (X Y : A.carrier) → IsSubstitution L f m.now X Y at.now →
        IsResidue L f m.now
        (plane_at_pair (lawful_field L) (plane_of F f) X Y (plane_of F rows.now)) r) }
{
    let mut value = zero(alloc, alg, m)?;
    let width = width(rows);
    let mut i = width;
    while i > 0 {
        i -= 1;
        value = step(alloc, alg, m, at, rows, i, &value)?;
    }
    Ok(value)
}
