// Elements of E(g) over one denominator: a polynomial in x, and the products of the elements with
// it, which are polynomials in x and y.
ghost use Rattle.std.specs.Prelude.{◌≡◌, ◌<◌, ◌+◌, ℕ, length, map, IfOk};
ghost use Rattle.std.specs.List.{All};
ghost use Rattle.ff_theory.specs.Ring.{IsElement};
ghost use Rattle.ff_theory.specs.Poly.{coeff};
ghost use Rattle.ff_theory.specs.Values.{IsPoly, plane_of, IsPlane, ArePolys};
ghost use Rattle.ff_elem.specs.Elem.{algebra_in, elem_of, IsElem};
ghost use Rattle.ff_subst.specs.Congruence.{ArePlanes};
ghost use Rattle.ff_subst.specs.Cleared.{IsCleared, AreCleared, IsCommonMultiple, linear_sum};
ghost use Rattle.ff_subst.specs.Cleared.{AreMultiplesBy, IsAppendedBy, IsAppendedOver};
ghost use Rattle.ff_subst.specs.Cleared.{block_of, IsMixture};

use crate::evaluation::plus_multiple;
use crate::powers::zero_plane;
use crate::residue::{PlaneList, combine};
use ff_alg::{FiniteField, NoMemory};
use ff_elem::{Alg, Elem};
use ff_poly::rows::multiples;
use ff_poly::{Plane, Poly};
use std::alloc::Global;
use std::slice;

// A denominator, and elements times it.
#[derive(Drop)]
pub struct Cleared {
    pub den: Poly,
    pub planes: PlaneList,
}

// No elements.
pub fn nothing<K: FiniteField<E = u32>>(alloc: Global, k: &K) -> Result<Cleared, NoMemory>
    ensures cleared { IfOk result (IsCleared (K.elements k.now)) }
    ensures count { IfOk result (λ r. length r.planes ≡ 0) }
{
    let den = Poly::one(alloc, k)?;
    let items = Vec::new(alloc);
    Ok(Cleared {
        den,
        planes: PlaneList { items },
    })
}

// Polynomials c and d, not 0, with `c * a = d * b`, where a and b are not 0.
fn common_multiple<K: FiniteField<E = u32>>(
    alloc: Global,
    k: &K,
    a: &Poly,
    b: &Poly,
) -> Result<(Poly, Poly), NoMemory>
    requires a { IsPoly (K.elements k.now) a.now }
    requires some_a { 0 < length a.now }
    requires b { IsPoly (K.elements k.now) b.now }
    requires some_b { 0 < length b.now }
    ensures { IfOk result (λ r. IsCommonMultiple (K.elements k.now) a.now b.now r.0 r.1) }
{
    let (d, list) = Poly::lowest(alloc, k, a, slice::from_ref(b))?;
    let c = list[0].copy(alloc)?;
    Ok((c, d))
}

// The products of a polynomial in x and bivariate polynomials.
fn products<K: FiniteField<E = u32>>(
    alloc: Global,
    k: &K,
    c: &Poly,
    planes: &[Plane],
) -> Result<Vec<Plane>, NoMemory>
    requires c { IsPoly (K.elements k.now) c.now }
    requires planes { ArePlanes (K.elements k.now) planes.now }
    ensures count { IfOk result (λ r. length r.items ≡ length planes.now) }
    ensures each { IfOk result (λ r. ArePlanes (K.elements k.now) r.items) }
    ensures value { IfOk result (λ r. AreMultiplesBy (K.elements k.now) c.now planes.now r.items) }
{
    let mut products = Vec::with_capacity(alloc, planes.len())?;
    for plane in planes {
        products.push(plane.scale(alloc, k, c)?)?;
    }
    Ok(products)
}

// The bivariate polynomials times a polynomial in x, which often is 1.
fn multiplied<K: FiniteField<E = u32>>(
    alloc: Global,
    k: &K,
    c: &Poly,
    planes: PlaneList,
) -> Result<PlaneList, NoMemory>
    requires c { IsPoly (K.elements k.now) c.now }
    requires planes { ArePlanes (K.elements k.now) planes }
    ensures count { IfOk result (λ r. length r ≡ length planes) }
    ensures each { IfOk result (ArePlanes (K.elements k.now)) }
    ensures value { IfOk result (AreMultiplesBy (K.elements k.now) c.now planes) }
{
    if c.is_one(k) {
        return Ok(planes);
    }
    let items = products(alloc, k, c, planes.list())?;
    Ok(PlaneList { items })
}

// The bivariate polynomials times c, and at their end the one with these rows times d.
fn append_rows<K: FiniteField<E = u32>>(
    alloc: Global,
    k: &K,
    c: &Poly,
    planes: PlaneList,
    d: &Poly,
    rows: &[Poly],
) -> Result<PlaneList, NoMemory>
    requires c { IsPoly (K.elements k.now) c.now }
    requires planes { ArePlanes (K.elements k.now) planes }
    requires d { IsPoly (K.elements k.now) d.now }
    requires rows { ArePolys (K.elements k.now) rows.now }
    ensures count { IfOk result (λ r. length r ≡ length planes + 1) }
    ensures each { IfOk result (ArePlanes (K.elements k.now)) }
    ensures appended { IfOk result (λ r.
        IsAppendedBy (K.elements k.now) c.now planes d.now rows.now r) }
{
    let mut list = multiplied(alloc, k, c, planes)?;
    let last = Plane::from_vec(k, multiples(alloc, k, d, rows)?);
    list.items.push(last)?;
    Ok(list)
}

// The like over a denominator.
fn append_over<K: FiniteField<E = u32>>(
    alloc: Global,
    k: &K,
    den: Poly,
    c: &Poly,
    planes: PlaneList,
    d: &Poly,
    rows: &[Poly],
) -> Result<Cleared, NoMemory>
    requires c { IsPoly (K.elements k.now) c.now }
    requires planes { ArePlanes (K.elements k.now) planes }
    requires d { IsPoly (K.elements k.now) d.now }
    requires rows { ArePolys (K.elements k.now) rows.now }
    ensures { IfOk result (IsAppendedOver (K.elements k.now) den c.now planes d.now rows.now) }
{
    let planes = append_rows(alloc, k, c, planes, d, rows)?;
    Ok(Cleared { den, planes })
}

// The list times c, and at its end an element times d.
fn append_multiple<K: FiniteField<E = u32>>(
    alloc: Global,
    alg: &Alg<K>,
    c: &Poly,
    list: Cleared,
    d: &Poly,
    e: &Elem,
) -> Result<Cleared, NoMemory>
    requires list { IsCleared (K.elements alg.now.k) list }
    requires e { IsElem (K.lawful alg.now.k) alg.now.f e.now }
    requires common { IsCommonMultiple (K.elements alg.now.k) list.den e.now.den c.now d.now }
    ensures cleared { IfOk result (IsCleared (K.elements alg.now.k)) }
    ensures count { IfOk result (λ r. length r.planes ≡ length list.planes + 1) }
    ensures elements { let L = K.lawful alg.now.k in let f = alg.now.f in
        IfOk result (λ r. (u : ℕ → (algebra_in L f).carrier) → AreCleared L f u list →
        elem_of L f e.now ≡ u (length list.planes) → AreCleared L f u r) }
{
    let den = c.mul(alloc, &alg.k, &list.den)?;
    append_over(alloc, &alg.k, den, c, list.planes, d, e.num.rows())
}

// The list with one element more.
pub fn append<K: FiniteField<E = u32>>(
    alloc: Global,
    alg: &Alg<K>,
    list: Cleared,
    e: &Elem,
) -> Result<Cleared, NoMemory>
    requires list { IsCleared (K.elements alg.now.k) list }
    requires e { IsElem (K.lawful alg.now.k) alg.now.f e.now }
    ensures cleared { IfOk result (IsCleared (K.elements alg.now.k)) }
    ensures count { IfOk result (λ r. length r.planes ≡ length list.planes + 1) }
    ensures elements { let L = K.lawful alg.now.k in let f = alg.now.f in
        IfOk result (λ r. (u : ℕ → (algebra_in L f).carrier) → AreCleared L f u list →
        elem_of L f e.now ≡ u (length list.planes) → AreCleared L f u r) }
{
    let (c, d) = common_multiple(alloc, &alg.k, &list.den, &e.den)?;
    append_multiple(alloc, alg, &c, list, &d, e)
}

// The coefficient of `x^(i + j)`.
fn coeff_after<K: FiniteField<E = u32>>(k: &K, p: &Poly, i: usize, j: usize) -> u32
    requires { All (IsElement (K.elements k.now)) p.now }
    ensures element { IsElement (K.elements k.now) result }
    ensures value { let F = K.elements k.now in
        F.value result ≡ coeff F.ring (map F.value p.now) (i + j) }
{
    let len = p.coeffs().len();
    if i >= len {
        return k.zero();
    }
    if j >= len - i {
        return k.zero();
    }
    p.coeff(k, i + j)
}

// The sum of the coefficients of `x^i`, `x^(i + 1)` and so on times the bivariate polynomials.
fn combination<K: FiniteField<E = u32>>(
    alloc: Global,
    k: &K,
    planes: &[Plane],
    p: &Poly,
    i: usize,
) -> Result<Plane, NoMemory>
    requires planes { ArePlanes (K.elements k.now) planes.now }
    requires p { IsPoly (K.elements k.now) p.now }
    ensures plane { IfOk result (IsPlane (K.elements k.now)) }
    ensures value { let F = K.elements k.now in
        IfOk result (λ r. plane_of F r ≡ block_of F p.now i planes.now) }
{
    let mut sum = zero_plane(alloc, k);
    for j in 0..planes.len() {
        let c = coeff_after(k, p, i, j);
        sum = plus_multiple(alloc, k, sum, c, &planes[j])?;
    }
    Ok(sum)
}

// The polynomial c times the sum of the coefficients of `x^i`, `x^(i + 1)` and so on times those of
// the list, and d times the numerators of an element.
fn combined<K: FiniteField<E = u32>>(
    alloc: Global,
    k: &K,
    c: &Poly,
    list: &Cleared,
    p: &Poly,
    i: usize,
    d: &Poly,
    e: &Elem,
) -> Result<Plane, NoMemory>
    requires c { IsPoly (K.elements k.now) c.now }
    requires list { IsCleared (K.elements k.now) list.now }
    requires p { IsPoly (K.elements k.now) p.now }
    requires d { IsPoly (K.elements k.now) d.now }
    requires num { ArePolys (K.elements k.now) e.now.num }
    ensures plane { IfOk result (IsPlane (K.elements k.now)) }
    ensures value { let F = K.elements k.now in
        IfOk result (IsMixture F c.now p.now i list.now.planes d.now e.now.num) }
{
    let sum = combination(alloc, k, list.planes.list(), p, i)?;
    let rows = Plane::from_rows(alloc, k, e.num.rows())?;
    combine(alloc, k, c, &sum, d, &rows)
}

// The sum of the coefficients of `x^i`, `x^(i + 1)` and so on times the elements of the list, and
// an element; c and d bring the denominators to one.
fn sum_over<K: FiniteField<E = u32>>(
    alloc: Global,
    alg: &Alg<K>,
    c: &Poly,
    list: &Cleared,
    p: &Poly,
    i: usize,
    d: &Poly,
    e: &Elem,
) -> Result<Elem, NoMemory>
    requires list { IsCleared (K.elements alg.now.k) list.now }
    requires p { IsPoly (K.elements alg.now.k) p.now }
    requires e { IsElem (K.lawful alg.now.k) alg.now.f e.now }
    requires common { IsCommonMultiple (K.elements alg.now.k) list.now.den e.now.den c.now d.now }
    ensures element { let L = K.lawful alg.now.k in IfOk result (IsElem L alg.now.f) }
    ensures value { let L = K.lawful alg.now.k in let f = alg.now.f in let A = algebra_in L f in
        IfOk result (λ r. (u : ℕ → A.carrier) → AreCleared L f u list.now → elem_of L f r ≡
        A.add (linear_sum L f p.now i u (length list.now.planes)) (elem_of L f e.now)) }
{
    let num = combined(alloc, &alg.k, c, list, p, i, d, e)?;
    let den = c.mul(alloc, &alg.k, &list.den)?;
    alg.from_parts(alloc, &num, &den)
}

// The sum of the coefficients of `x^i`, `x^(i + 1)` and so on times the elements of the list, and
// an element.
pub fn plus_combination<K: FiniteField<E = u32>>(
    alloc: Global,
    alg: &Alg<K>,
    list: &Cleared,
    p: &Poly,
    i: usize,
    e: &Elem,
) -> Result<Elem, NoMemory>
    requires list { IsCleared (K.elements alg.now.k) list.now }
    requires p { IsPoly (K.elements alg.now.k) p.now }
    requires e { IsElem (K.lawful alg.now.k) alg.now.f e.now }
    ensures element { let L = K.lawful alg.now.k in IfOk result (IsElem L alg.now.f) }
    ensures value { let L = K.lawful alg.now.k in let f = alg.now.f in let A = algebra_in L f in
        IfOk result (λ r. (u : ℕ → A.carrier) → AreCleared L f u list.now → elem_of L f r ≡
        A.add (linear_sum L f p.now i u (length list.now.planes)) (elem_of L f e.now)) }
{
    let (c, d) = common_multiple(alloc, &alg.k, &list.den, &e.den)?;
    sum_over(alloc, alg, &c, list, p, i, &d, e)
}
