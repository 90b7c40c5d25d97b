// Bivariate polynomials modulo a polynomial m in x that is not 0: each row is divided by m.
ghost use Rattle.std.specs.Prelude.{◌≡◌, ◌+◌, ◌<◌, ℕ, length, IfOk, IsTrue, []};
ghost use Rattle.std.specs.Prelude.{slice_index_or as get_or};
ghost use Rattle.ff_theory.specs.Values.{poly_of, IsPoly, plane_of, IsPlane, polys_over};
ghost use Rattle.ff_theory.specs.Values.{planes_over};
ghost use Rattle.ff_theory.specs.Planes.{row_of};
ghost use Rattle.ff_theory.specs.Divides.{Divides};
ghost use Rattle.ff_subst.specs.Congruence.{IsCongruent, AreCongruent, IsModulus, ArePlanes};
ghost use Rattle.ff_theory.specs.Values.{ArePolys};

use ff_alg::{FiniteField, NoMemory};
use ff_poly::{Plane, Poly};
use std::alloc::Global;

// The remainders of the rows by m.
fn remainders<K: FiniteField<E = u32>>(
    alloc: Global,
    k: &K,
    m: &Poly,
    rows: &[Poly],
) -> Result<Vec<Poly>, NoMemory>
    requires m { IsModulus (K.elements k.now) m.now }
    requires rows { ArePolys (K.elements k.now) rows.now }
    ensures each { IfOk result (λ r. ArePolys (K.elements k.now) r.items) }
    ensures congruent { let F = K.elements k.now in
        IfOk result (λ r. AreCongruent F m.now (plane_of F rows.now) (plane_of F r.items)) }
{
    let mut rests = Vec::with_capacity(alloc, rows.len())?;
    for row in rows {
        rests.push(row.remainder(alloc, k, m)?)?;
    }
    Ok(rests)
}

// The bivariate polynomial with these rows, modulo m.
pub fn reduce<K: FiniteField<E = u32>>(
    alloc: Global,
    k: &K,
    m: &Poly,
    rows: &[Poly],
) -> Result<Plane, NoMemory>
    requires m { IsModulus (K.elements k.now) m.now }
    requires rows { ArePolys (K.elements k.now) rows.now }
    ensures plane { IfOk result (IsPlane (K.elements k.now)) }
    ensures congruent { let F = K.elements k.now in
        IfOk result (λ r. AreCongruent F m.now (plane_of F rows.now) (plane_of F r)) }
{
    let rests = remainders(alloc, k, m, rows)?;
    Ok(Plane::from_vec(k, rests))
}

// The product of two polynomials in x, modulo m.
pub fn product<K: FiniteField<E = u32>>(
    alloc: Global,
    k: &K,
    m: &Poly,
    a: &Poly,
    b: &Poly,
) -> Result<Poly, NoMemory>
    requires m { IsModulus (K.elements k.now) m.now }
    requires a { IsPoly (K.elements k.now) a.now }
    requires b { IsPoly (K.elements k.now) b.now }
    ensures poly { IfOk result (IsPoly (K.elements k.now)) }
    ensures congruent { let F = K.elements k.now in let P = polys_over F in
        IfOk result (λ r. IsCongruent P (poly_of F m.now)
        (P.mul (poly_of F a.now) (poly_of F b.now)) (poly_of F r)) }
{
    let whole = a.mul(alloc, k, b)?;
    whole.remainder(alloc, k, m)
}

// The product of a polynomial in x and a bivariate polynomial, modulo m.
pub fn multiple<K: FiniteField<E = u32>>(
    alloc: Global,
    k: &K,
    m: &Poly,
    c: &Poly,
    plane: &Plane,
) -> Result<Plane, NoMemory>
    requires m { IsModulus (K.elements k.now) m.now }
    requires c { IsPoly (K.elements k.now) c.now }
    requires plane { IsPlane (K.elements k.now) plane.now }
    ensures plane { IfOk result (IsPlane (K.elements k.now)) }
    ensures congruent { let F = K.elements k.now in let P = planes_over F in
        IfOk result (λ r. AreCongruent F m.now
        (P.mul (row_of F.ring (poly_of F c.now)) (plane_of F plane.now)) (plane_of F r)) }
{
    let whole = plane.scale(alloc, k, c)?;
    reduce(alloc, k, m, whole.rows())
}

// The products of a polynomial in x and bivariate polynomials, modulo m.
pub fn multiples<K: FiniteField<E = u32>>(
    alloc: Global,
    k: &K,
    m: &Poly,
    c: &Poly,
    planes: &[Plane],
) -> Result<Vec<Plane>, NoMemory>
    requires m { IsModulus (K.elements k.now) m.now }
    requires c { IsPoly (K.elements k.now) c.now }
    requires planes { ArePlanes (K.elements k.now) planes.now }
    ensures count { IfOk result (λ r. length r.items ≡ length planes.now) }
    ensures each { IfOk result (λ r. ArePlanes (K.elements k.now) r.items) }
    ensures congruent { let F = K.elements k.now in let P = planes_over F in
        IfOk result (λ r. (j : ℕ) → j < length planes.now → AreCongruent F m.now
        (P.mul (row_of F.ring (poly_of F c.now)) (plane_of F (get_or planes.now j [])))
        (plane_of F (get_or r.items j []))) }
{
    let mut products = Vec::with_capacity(alloc, planes.len())?;
    for plane in planes {
        products.push(multiple(alloc, k, m, c, plane)?)?;
    }
    Ok(products)
}

// Whether m divides each row; it does where it divides the polynomial with these rows.
pub fn divides<K: FiniteField<E = u32>>(
    alloc: Global,
    k: &K,
    m: &Poly,
    rows: &[Poly],
) -> Result<bool, NoMemory>
    requires m { IsModulus (K.elements k.now) m.now }
    requires rows { ArePolys (K.elements k.now) rows.now }
    ensures { let F = K.elements k.now in let P = planes_over F in
        IfOk result (λ r. Divides P (row_of F.ring (poly_of F m.now)) (plane_of F rows.now) →
        IsTrue r) }
{
    for row in rows {
        let rest = row.remainder(alloc, k, m)?;
        if !rest.is_zero() {
            return Ok(false);
        }
    }
    Ok(true)
}
