// Elements as vectors over one common denominator.
ghost use Rattle.std.specs.Prelude.{◌≡◌, ◌↔◌, ◌<◌, ◌≤◌, ℕ, length, IfOk};
ghost use Rattle.std.specs.List.{All};
ghost use Rattle.ff_theory.specs.Divides.{Divides};
ghost use Rattle.ff_theory.specs.Values.{poly_of, IsPoly, polys_over, x_size};
ghost use Rattle.ff_lin.specs.Space.{rows_of, AreVectors, IsRelation};
ghost use Rattle.ff_elem.specs.Elem.{IsElem};
ghost use Rattle.ff_data.specs.Combinations.{AreElems, IsRelationOf};
ghost use Rattle.ff_data.specs.Vectors.{IsCommonDenominator, IsNumerator, AreNumerators};
ghost use Rattle.ff_data.specs.Vectors.{AreCoefficients, IsPlaneWithin};

use ff_alg::{FiniteField, NoMemory};
use ff_elem::{Alg, Elem};
use ff_lattice::vector_of_plane;
use ff_poly::rows::{multiples, width};
use ff_poly::{Plane, Poly};
use std::alloc::Global;

/// The quotient of b by its greatest common divisor with a, which is not 0.
fn cofactor<K: FiniteField<E = u32>>(
    alloc: Global,
    k: &K,
    a: &Poly,
    b: &Poly,
) -> Result<Poly, NoMemory>
    requires a { IsPoly (K.elements k.now) a.now }
    requires a_nonzero { 0 < length a.now }
    requires b { IsPoly (K.elements k.now) b.now }
    requires b_nonzero { 0 < length b.now }
    ensures poly { IfOk result (IsPoly (K.elements k.now)) }
    ensures nonzero { IfOk result (λ r. 0 < length r) }
    ensures multiple { let F = K.elements k.now in let P = polys_over F in
        IfOk result (λ r. Divides P (poly_of F b.now) (P.mul (poly_of F a.now) (poly_of F r))) }
{
    let divisor = a.gcd(alloc, k, b)?;
    let (cofactor, _zero) = b.divide(alloc, k, &divisor)?;
    Ok(cofactor)
}

/// A common multiple of the denominators.
fn common_denominator<K: FiniteField<E = u32>>(
    alloc: Global,
    alg: &Alg<K>,
    list: &[Elem],
) -> Result<Poly, NoMemory>
    requires { AreElems (K.lawful alg.now.k) alg.now.f list.now }
    ensures { IfOk result (IsCommonDenominator (K.elements alg.now.k) list.now) }
{
    let mut den = Poly::one(alloc, &alg.k)?;
    for w in list {
        let factor = cofactor(alloc, &alg.k, &den, &w.den)?;
        den = den.mul(alloc, &alg.k, &factor)?;
    }
    Ok(den)
}

/// The product with a multiple of the denominator.
fn numerator<K: FiniteField<E = u32>>(
    alloc: Global,
    alg: &Alg<K>,
    den: &Poly,
    w: &Elem,
) -> Result<Plane, NoMemory>
    requires den { IsPoly (K.elements alg.now.k) den.now }
    requires w { IsElem (K.lawful alg.now.k) alg.now.f w.now }
    requires multiple { let F = K.elements alg.now.k in let P = polys_over F in
        Divides P (poly_of F w.now.den) (poly_of F den.now) }
    ensures { IfOk result (IsNumerator (K.lawful alg.now.k) alg.now.f den.now w.now) }
{
    let (factor, _zero) = den.divide(alloc, &alg.k, &w.den)?;
    let rows = multiples(alloc, &alg.k, &factor, w.num.rows())?;
    Ok(Plane::from_vec(&alg.k, rows))
}

/// The products with a common denominator.
fn numerators<K: FiniteField<E = u32>>(
    alloc: Global,
    alg: &Alg<K>,
    den: &Poly,
    list: &[Elem],
) -> Result<Vec<Plane>, NoMemory>
    requires list { AreElems (K.lawful alg.now.k) alg.now.f list.now }
    requires den { IsCommonDenominator (K.elements alg.now.k) list.now den.now }
    ensures { IfOk result (λ r. AreNumerators (K.lawful alg.now.k) alg.now.f den.now list.now
        r.items) }
{
    let mut numerators = Vec::with_capacity(alloc, list.len())?;
    for w in list {
        numerators.push(numerator(alloc, alg, den, w)?)?;
    }
    Ok(numerators)
}

/// The greatest number of coefficients of a row.
fn width_of(planes: &[Plane]) -> usize
    ensures { All (λ a. x_size a ≤ result) planes.now }
{
    let mut n = 0;
    for a in planes {
        n = n.max(width(a.rows()));
    }
    n
}

/// The vectors of the planes, and their length.
fn vectors_of_planes<K: FiniteField<E = u32>>(
    alloc: Global,
    k: &K,
    planes: &[Plane],
    n: usize,
) -> Result<(usize, Vec<Vec<u32>>), NoMemory>
    requires { All (IsPlaneWithin (K.elements k.now) n) planes.now }
    ensures vectors { IfOk result (λ r. AreVectors (K.elements k.now) r.0 r.1.items) }
    ensures value { let F = K.elements k.now in
        IfOk result (λ r. AreCoefficients F n planes.now (rows_of r.1.items)) }
{
    let l = width_of(planes);
    let mut vectors = Vec::with_capacity(alloc, planes.len())?;
    for a in planes {
        vectors.push(vector_of_plane(alloc, k, a, n, l)?)?;
    }
    match n.checked_mul(l) {
        Some(len) => Ok((len, vectors)),
        None => Err(NoMemory),
    }
}

/// The elements as vectors over the field, all of the length that comes first: the coefficients of
/// their numerators over one common denominator. A combination of the vectors is 0 exactly where
/// that of the elements is. `NoMemory` is the only error.
pub fn flatten<K: FiniteField<E = u32>>(
    alloc: Global,
    alg: &Alg<K>,
    list: &[Elem],
) -> Result<(usize, Vec<Vec<u32>>), NoMemory>
    requires { AreElems (K.lawful alg.now.k) alg.now.f list.now }
    ensures vectors { let F = K.elements alg.now.k in
        IfOk result (λ r. AreVectors F r.0 r.1.items) }
    ensures count { IfOk result (λ r. length r.1.items ≡ length list.now) }
    ensures exact { let F = K.elements alg.now.k in let L = K.lawful alg.now.k in
        let f = alg.now.f in IfOk result (λ r. (c : ℕ → F.carrier) →
        IsRelation F (rows_of r.1.items) c ↔ IsRelationOf L f list.now c) }
{
    let den = common_denominator(alloc, alg, list)?;
    let planes = numerators(alloc, alg, &den, list)?;
    vectors_of_planes(alloc, &alg.k, &planes, alg.f.rows().len() - 1)
}
