// d and b from the inverse of the derivative.
ghost use Rattle.std.specs.Prelude.{◌≡◌, ℕ, ◌<◌, ◌≤◌, ◌+◌, ◌-◌, length, IfOk};
ghost use Rattle.ff_theory.specs.Ring.{power};
ghost use Rattle.ff_theory.specs.Poly.{coeff};
ghost use Rattle.ff_theory.specs.Algebra.{value_of};
ghost use Rattle.ff_theory.specs.Lawful.{lawful_field};
ghost use Rattle.ff_theory.specs.Values.{poly_of, polys_of, polys_over, plane_of};
ghost use Rattle.ff_theory.specs.Values.{IsPoly, ArePolys, IsPlane};
ghost use Rattle.ff_elem.specs.Elem.{elem_of, algebra_in, IsElem, ElemIs};
ghost use Rattle.ff_data.specs.Orders.{IsSep, y_derivative};
ghost use Rattle.ff_sep.specs.Parts.{ArePowers, HasParts, lead_of, at_monic, raised_row, whole_of};

use ff_alg::{FiniteField, NoMemory};
use ff_data::Sep;
use ff_elem::{Alg, Elem};
use ff_poly::rows::single;
use ff_poly::{Plane, Poly};
use std::alloc::Global;

/// The powers of `base` with the exponents 0 to `n`.
fn powers_of<K: FiniteField<E = u32>>(
    alloc: Global,
    k: &K,
    base: &Poly,
    n: usize,
) -> Result<Vec<Poly>, NoMemory>
    requires { IsPoly (K.elements k.now) base.now }
    ensures { let F = K.elements k.now in
        IfOk result (λ r. ArePowers F (poly_of F base.now) (n + 1) r.items) }
{
    let one = Poly::one(alloc, k)?;
    let mut powers = single(alloc, one)?;
    for i in 0..n {
        powers.push(base.mul(alloc, k, &powers[i])?)?;
    }
    Ok(powers)
}

/// The powers of the leading row of the equation, up to the y-degree.
fn powers_of_lead<K: FiniteField<E = u32>>(
    alloc: Global,
    alg: &Alg<K>,
) -> Result<Vec<Poly>, NoMemory>
    ensures { let F = K.elements alg.now.k in let L = K.lawful alg.now.k in let f = alg.now.f in
        IfOk result (λ r. ArePowers F (lead_of L f) (length f) r.items) }
{
    let rows = alg.f.rows();
    let n = rows.len() - 1;
    powers_of(alloc, &alg.k, &rows[n], n)
}

/// Each row times a power: `rows[i] * powers[n - i]`, with n the number of rows.
fn falling_rows<K: FiniteField<E = u32>>(
    alloc: Global,
    k: &K,
    rows: &[Poly],
    powers: &[Poly],
) -> Result<Vec<Poly>, NoMemory>
    requires rows { ArePolys (K.elements k.now) rows.now }
    requires powers { ArePolys (K.elements k.now) powers.now }
    requires count { length powers.now ≡ length rows.now + 1 }
    ensures each { IfOk result (λ r. ArePolys (K.elements k.now) r.items) }
    ensures len { IfOk result (λ r. length r.items ≡ length rows.now) }
    ensures value { let F = K.elements k.now in let P = polys_over F in
        IfOk result (λ r. (i : ℕ) → i < length rows.now → coeff P (polys_of F r.items) i ≡
        P.mul (coeff P (polys_of F rows.now) i)
        (coeff P (polys_of F powers.now) (length rows.now - i))) }
{
    let n = rows.len();
    let mut products = Vec::with_capacity(alloc, n)?;
    for i in 0..n {
        let j = n - i;
        products.push(rows[i].mul(alloc, k, &powers[j])?)?;
    }
    Ok(products)
}

/// Each row times a power: `rows[i] * powers[i]`.
fn rising_rows<K: FiniteField<E = u32>>(
    alloc: Global,
    k: &K,
    rows: &[Poly],
    powers: &[Poly],
) -> Result<Vec<Poly>, NoMemory>
    requires rows { ArePolys (K.elements k.now) rows.now }
    requires powers { ArePolys (K.elements k.now) powers.now }
    requires count { length rows.now ≤ length powers.now }
    ensures each { IfOk result (λ r. ArePolys (K.elements k.now) r.items) }
    ensures len { IfOk result (λ r. length r.items ≡ length rows.now) }
    ensures value { let F = K.elements k.now in let P = polys_over F in
        IfOk result (λ r. (i : ℕ) → i < length rows.now → coeff P (polys_of F r.items) i ≡
        P.mul (coeff P (polys_of F rows.now) i) (coeff P (polys_of F powers.now) i)) }
{
    let n = rows.len();
    let mut products = Vec::with_capacity(alloc, n)?;
    for i in 0..n {
        products.push(rows[i].mul(alloc, k, &powers[i])?)?;
    }
    Ok(products)
}

/// The product of `den` and the square of `top`.
fn times_square<K: FiniteField<E = u32>>(
    alloc: Global,
    k: &K,
    den: &Poly,
    top: &Poly,
) -> Result<Poly, NoMemory>
    requires den { IsPoly (K.elements k.now) den.now }
    requires top { IsPoly (K.elements k.now) top.now }
    ensures poly { IfOk result (IsPoly (K.elements k.now)) }
    ensures value { let F = K.elements k.now in let P = polys_over F in
        IfOk result (λ r. poly_of F r ≡
        P.mul (poly_of F den.now) (P.mul (poly_of F top.now) (poly_of F top.now))) }
{
    let square = top.mul(alloc, k, top)?;
    den.mul(alloc, k, &square)
}

/// The rows of `w` times powers of the leading row, over its denominator times the square of the
/// power before the last one, in lowest terms.
fn parts_of<K: FiniteField<E = u32>>(
    alloc: Global,
    alg: &Alg<K>,
    w: &Elem,
    powers: &[Poly],
) -> Result<(Poly, Vec<Poly>), NoMemory>
    requires w { IsElem (K.lawful alg.now.k) alg.now.f w.now }
    requires powers { let F = K.elements alg.now.k in let L = K.lawful alg.now.k in
        let f = alg.now.f in ArePowers F (lead_of L f) (length f) powers.now }
    ensures { let L = K.lawful alg.now.k in
        IfOk result (λ r. HasParts L alg.now.f w.now r.0 r.1.items) }
{
    let den = times_square(alloc, &alg.k, &w.den, &powers[powers.len() - 2])?;
    let rows = falling_rows(alloc, &alg.k, w.num.rows(), powers)?;
    Poly::lowest(alloc, &alg.k, &den, &rows)
}

/// A polynomial in x and y as an element.
pub(crate) fn element_of_plane<K: FiniteField<E = u32>>(
    alloc: Global,
    alg: &Alg<K>,
    num: &Plane,
) -> Result<Elem, NoMemory>
    requires { IsPlane (K.elements alg.now.k) num.now }
    ensures { let F = K.elements alg.now.k in let L = K.lawful alg.now.k in let f = alg.now.f in
        IfOk result (ElemIs L f (value_of (lawful_field L) (plane_of F f)
        (plane_of F num.now))) }
{
    let one = Poly::one(alloc, &alg.k)?;
    alg.from_parts(alloc, num, &one)
}

/// The polynomial in x and y with these rows, fewer than those of the equation, at x and y'.
fn element_at<K: FiniteField<E = u32>>(
    alloc: Global,
    alg: &Alg<K>,
    rows: &[Poly],
    powers: &[Poly],
) -> Result<Elem, NoMemory>
    requires rows { ArePolys (K.elements alg.now.k) rows.now }
    requires count { length rows.now ≡ length alg.now.f - 1 }
    requires powers { let F = K.elements alg.now.k in let L = K.lawful alg.now.k in
        let f = alg.now.f in ArePowers F (lead_of L f) (length f) powers.now }
    ensures { let L = K.lawful alg.now.k in let f = alg.now.f in
        IfOk result (ElemIs L f (at_monic L f rows.now)) }
{
    let rows = rising_rows(alloc, &alg.k, rows, powers)?;
    let num = Plane::from_vec(&alg.k, rows);
    element_of_plane(alloc, alg, &num)
}

/// d and b from the inverse `w` and the powers of the leading row.
fn sep_by<K: FiniteField<E = u32>>(
    alloc: Global,
    alg: &Alg<K>,
    w: &Elem,
    powers: &[Poly],
) -> Result<Sep, NoMemory>
    requires w { IsElem (K.lawful alg.now.k) alg.now.f w.now }
    requires inverse { let F = K.elements alg.now.k in let L = K.lawful alg.now.k in
        let f = alg.now.f in let A = algebra_in L f in
        A.mul (elem_of L f w.now) (value_of (lawful_field L) (plane_of F f) (y_derivative L f)) ≡
        A.one }
    requires powers { let F = K.elements alg.now.k in let L = K.lawful alg.now.k in
        let f = alg.now.f in ArePowers F (lead_of L f) (length f) powers.now }
    ensures { let L = K.lawful alg.now.k in IfOk result (IsSep L alg.now.f) }
{
    let (d, rows) = parts_of(alloc, alg, w, powers)?;
    let b = element_at(alloc, alg, &rows, powers)?;
    Ok(Sep { d, b })
}

/// d and b from the inverse `w` of the derivative in y.
pub(crate) fn sep_of<K: FiniteField<E = u32>>(
    alloc: Global,
    alg: &Alg<K>,
    w: &Elem,
) -> Result<Sep, NoMemory>
    requires w { IsElem (K.lawful alg.now.k) alg.now.f w.now }
    requires inverse { let F = K.elements alg.now.k in let L = K.lawful alg.now.k in
        let f = alg.now.f in let A = algebra_in L f in
        A.mul (elem_of L f w.now) (value_of (lawful_field L) (plane_of F f) (y_derivative L f)) ≡
        A.one }
    ensures { let L = K.lawful alg.now.k in IfOk result (IsSep L alg.now.f) }
{
    let powers = powers_of_lead(alloc, alg)?;
    sep_by(alloc, alg, w, &powers)
}
