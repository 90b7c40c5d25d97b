// Euclid's algorithm on the equation and an element, without fractions.
ghost use Rattle.std.specs.Prelude.{◌≡◌, ℕ, ◌≤◌, ◌<◌, ◌+◌, ◌++◌, length, max, IfOk};
ghost use Rattle.ff_theory.specs.Lawful.{lawful_field};
ghost use Rattle.ff_theory.specs.Poly.{coeff};
ghost use Rattle.ff_theory.specs.LowestTerms.{IsLowest};
ghost use Rattle.ff_theory.specs.Monomial.{monomial};
ghost use Rattle.ff_theory.specs.Planes.{row_of};
ghost use Rattle.ff_theory.specs.Values.{poly_of, polys_of, polys_over, IsPoly, ArePolys};
ghost use Rattle.ff_theory.specs.Values.{plane_of, planes_over, IsPlane};
ghost use Rattle.ff_elem.specs.Euclid.{top, ArePlanes, IsStep, AreLast};
ghost use Rattle.ff_elem.specs.declared.euclid.Multiple.{Multiple};

use crate::algebra::Alg;
use ff_alg::{FiniteField, NoMemory};
use ff_poly::rows::{combination, copies, single};
use ff_poly::{Plane, Poly, multipliers};
use std::alloc::Global;

/// Polynomials in x and y: in E(f) the value is the product of the factor and a fixed element.
#[derive(Drop)]
pub struct Multiple {
    pub value: Plane,
    pub factor: Plane,
}

/// The sum `e * a + q * y^at * b`.
fn plane_combination<K: FiniteField<E = u32>>(
    alloc: Global,
    k: &K,
    e: &Poly,
    a: &[Poly],
    q: &Poly,
    at: usize,
    b: &[Poly],
) -> Result<Plane, NoMemory>
    requires e { IsPoly (K.elements k.now) e.now }
    requires a { ArePolys (K.elements k.now) a.now }
    requires q { IsPoly (K.elements k.now) q.now }
    requires b { ArePolys (K.elements k.now) b.now }
    ensures len { IfOk result (λ r. length r ≤ max (at + length b.now) (length a.now)) }
    ensures plane { IfOk result (IsPlane (K.elements k.now)) }
    ensures value { let F = K.elements k.now in let P = polys_over F in let Q = planes_over F in
        IfOk result (λ r. plane_of F r ≡ Q.add
        (Q.mul (row_of F.ring (poly_of F e.now)) (plane_of F a.now))
        (Q.mul (monomial P (poly_of F q.now) at) (plane_of F b.now))) }
{
    let rows = combination(alloc, k, e, a, q, at, b)?;
    Ok(Plane::from_vec(k, rows))
}

/// The sum `e * a + q * y^at * by` of multiples, where the top rows of the values cancel.
fn cancel_by<K: FiniteField<E = u32>>(
    alloc: Global,
    k: &K,
    e: &Poly,
    a: &Multiple,
    q: &Poly,
    by: &Multiple,
) -> Result<Multiple, NoMemory>
    requires e { IsPoly (K.elements k.now) e.now }
    requires a { ArePlanes (K.elements k.now) a.now }
    requires q { IsPoly (K.elements k.now) q.now }
    requires by { ArePlanes (K.elements k.now) by.now }
    requires nonzero { 0 < length by.now.value }
    requires longer { length by.now.value ≤ length a.now.value }
    requires factor { 0 < length e.now }
    requires cancel { let F = K.elements k.now in let P = polys_over F in P.add
        (P.mul (poly_of F e.now) (poly_of F (top a.now.value)))
        (P.mul (poly_of F q.now) (poly_of F (top by.now.value))) ≡ P.zero }
    ensures planes { IfOk result (ArePlanes (K.elements k.now)) }
    ensures shorter { IfOk result (λ r. length r.value < length a.now.value) }
    ensures step { IfOk result (IsStep (K.elements k.now) a.now by.now) }
{
    let (rows, by_rows) = (a.value.rows(), by.value.rows());
    let (n, m) = (rows.len() - 1, by_rows.len() - 1);
    let value = plane_combination(alloc, k, e, &rows[..n], q, n - m, &by_rows[..m])?;
    let factor = plane_combination(alloc, k, e, a.factor.rows(), q, n - m, by.factor.rows())?;
    Ok(Multiple { value, factor })
}

/// A sum of multiples of `a` and `by` in which the top row of the value of `a` is cancelled.
fn cancel_top<K: FiniteField<E = u32>>(
    alloc: Global,
    k: &K,
    a: &Multiple,
    by: &Multiple,
) -> Result<Multiple, NoMemory>
    requires a { ArePlanes (K.elements k.now) a.now }
    requires by { ArePlanes (K.elements k.now) by.now }
    requires nonzero { 0 < length by.now.value }
    requires longer { length by.now.value ≤ length a.now.value }
    ensures planes { IfOk result (ArePlanes (K.elements k.now)) }
    ensures shorter { IfOk result (λ r. length r.value < length a.now.value) }
    ensures step { IfOk result (IsStep (K.elements k.now) a.now by.now) }
{
    let (rows, by_rows) = (a.value.rows(), by.value.rows());
    let (e, q) = multipliers(alloc, k, &rows[rows.len() - 1], &by_rows[by_rows.len() - 1])?;
    cancel_by(alloc, k, &e, a, &q, by)
}

/// The multiple with these rows.
fn multiple_of<K: FiniteField<E = u32>>(
    alloc: Global,
    k: &K,
    value: &[Poly],
    factor: &[Poly],
) -> Result<Multiple, NoMemory>
    requires value { ArePolys (K.elements k.now) value.now }
    requires factor { ArePolys (K.elements k.now) factor.now }
    ensures planes { IfOk result (ArePlanes (K.elements k.now)) }
    ensures value { let F = K.elements k.now in
        IfOk result (λ r. plane_of F r.value ≡ plane_of F value.now) }
    ensures factor { let F = K.elements k.now in
        IfOk result (λ r. plane_of F r.factor ≡ plane_of F factor.now) }
{
    let value = Plane::from_rows(alloc, k, value)?;
    let factor = Plane::from_rows(alloc, k, factor)?;
    Ok(Multiple { value, factor })
}

/// The rows of the value, and then those of the factor.
fn all_rows(alloc: Global, a: &Multiple) -> Result<Vec<Poly>, NoMemory>
    ensures { IfOk result (λ r. r.items ≡ a.now.value ++ a.now.factor) }
{
    let mut rows = copies(alloc, a.value.rows())?;
    for row in a.factor.rows() {
        rows.push(row.copy(alloc)?)?;
    }
    Ok(rows)
}

/// The rows of the value and of the factor over the top row of the value, in lowest terms.
fn lowest_rows<K: FiniteField<E = u32>>(
    alloc: Global,
    k: &K,
    a: &Multiple,
) -> Result<(Poly, Vec<Poly>), NoMemory>
    requires a { ArePlanes (K.elements k.now) a.now }
    requires nonzero { 0 < length a.now.value }
    ensures rows { IfOk result (λ r. ArePolys (K.elements k.now) r.1.items) }
    ensures lowest { let F = K.elements k.now in let L = K.lawful k.now in
        IfOk result (λ r. IsLowest (lawful_field L) (length (a.now.value ++ a.now.factor))
        (poly_of F r.0) (polys_of F r.1.items)) }
    ensures equal { let F = K.elements k.now in let P = polys_over F in
        let rows = a.now.value ++ a.now.factor in
        IfOk result (λ r. (i : ℕ) → i < length rows →
        P.mul (coeff P (polys_of F r.1.items) i) (poly_of F (top a.now.value)) ≡
        P.mul (coeff P (polys_of F rows) i) (poly_of F r.0)) }
{
    let rows = all_rows(alloc, a)?;
    let value = a.value.rows();
    Poly::lowest(alloc, k, &value[value.len() - 1], &rows)
}

/// The multiple with its rows divided by their greatest common divisor.
fn primitive_part<K: FiniteField<E = u32>>(
    alloc: Global,
    k: &K,
    a: &Multiple,
) -> Result<Multiple, NoMemory>
    requires a { ArePlanes (K.elements k.now) a.now }
    requires nonzero { 0 < length a.now.value }
    ensures planes { IfOk result (ArePlanes (K.elements k.now)) }
    ensures short { IfOk result (λ r. length r.value ≤ length a.now.value) }
    ensures step { IfOk result (λ r. (by : Multiple) → IsStep (K.elements k.now) a.now by r) }
{
    let (_den, rows) = lowest_rows(alloc, k, a)?;
    let n = a.value.rows().len();
    multiple_of(alloc, k, &rows[..n], &rows[n..])
}

/// A sum of multiples of `a` and `by` whose value has fewer rows than that of `by`.
fn reduce<K: FiniteField<E = u32>>(
    alloc: Global,
    k: &K,
    a: Multiple,
    by: &Multiple,
) -> Result<Multiple, NoMemory>
    requires a { ArePlanes (K.elements k.now) a }
    requires by { ArePlanes (K.elements k.now) by.now }
    requires nonzero { 0 < length by.now.value }
    ensures planes { IfOk result (ArePlanes (K.elements k.now)) }
    ensures shorter { IfOk result (λ r. length r.value < length by.now.value) }
    ensures step { IfOk result (IsStep (K.elements k.now) a by.now) }
{
    let mut rest = a;
    'reduce: while rest.value.rows().len() >= by.value.rows().len() {
        rest = cancel_top(alloc, k, &rest, by)?;
    }
    Ok(rest)
}

/// The same, with its rows divided by their greatest common divisor.
fn remainder<K: FiniteField<E = u32>>(
    alloc: Global,
    k: &K,
    a: Multiple,
    by: &Multiple,
) -> Result<Multiple, NoMemory>
    requires a { ArePlanes (K.elements k.now) a }
    requires by { ArePlanes (K.elements k.now) by.now }
    requires nonzero { 0 < length by.now.value }
    ensures planes { IfOk result (ArePlanes (K.elements k.now)) }
    ensures shorter { IfOk result (λ r. length r.value < length by.now.value) }
    ensures step { IfOk result (IsStep (K.elements k.now) a by.now) }
{
    let rest = reduce(alloc, k, a, by)?;
    if rest.value.rows().is_empty() {
        return Ok(rest);
    }
    primitive_part(alloc, k, &rest)
}

/// The rows of `a`, with the factor 1.
fn first_multiple<K: FiniteField<E = u32>>(
    alloc: Global,
    k: &K,
    a: &[Poly],
) -> Result<Multiple, NoMemory>
    requires { ArePolys (K.elements k.now) a.now }
    ensures planes { IfOk result (ArePlanes (K.elements k.now)) }
    ensures value { let F = K.elements k.now in
        IfOk result (λ r. plane_of F r.value ≡ plane_of F a.now) }
    ensures factor { let F = K.elements k.now in let Q = planes_over F in
        IfOk result (λ r. plane_of F r.factor ≡ Q.one) }
{
    let one = Poly::one(alloc, k)?;
    let rows = single(alloc, one)?;
    multiple_of(alloc, k, a, &rows)
}

impl<K: FiniteField<E = u32>> Alg<K> {
    /// The last two multiples of `a` modulo the equation; the value of the last one is a polynomial
    /// in x alone.
    /// Where that is 0, its factor is not 0 and has fewer rows than the equation, and the equation
    /// is the product of this factor and the value before, but for factors in x.
    pub(crate) fn euclid(&self, alloc: Global, a: &[Poly]) -> Result<(Multiple, Multiple), NoMemory>
        requires { ArePolys (K.elements self.now.k) a.now }
        ensures { let L = K.lawful self.now.k in
            IfOk result (λ r. AreLast L self.now.f a.now r.0 r.1) }
    {
        let mut small = first_multiple(alloc, &self.k, a)?;
        let mut large = multiple_of(alloc, &self.k, self.f.rows(), &[])?;
        'euclid: while small.value.rows().len() > 1 {
            let next = remainder(alloc, &self.k, large, &small)?;
            large = small;
            small = next;
        }
        Ok((large, small))
    }
}
