// Sums of coordinates, and their products with polynomials in z.
ghost use Rattle.std.specs.Prelude.{◌≡◌, length, IfOk, IsTrue, ◌↔◌, [], ◌≤◌};
ghost use Rattle.std.specs.List.{All};
ghost use Rattle.ff_theory.specs.Span.{unit_at};
ghost use Rattle.ff_theory.specs.Values.{poly_of, IsPoly, ArePolys, polys_over};
ghost use Rattle.ff_ring.specs.Entries.{entry_at, AreEntries};

use ff_alg::{FiniteField, NoMemory};
use ff_poly::Poly;
use std::alloc::Global;

/// The coordinates of 0: `e` zeros. `NoMemory` is the only error.
pub fn zero_coords<K: FiniteField<E = u32>>(
    alloc: Global,
    k: &K,
    e: usize,
) -> Result<Vec<Poly>, NoMemory>
    ensures { let F = K.elements k.now in let P = polys_over F in
        IfOk result (λ r. AreEntries F e (λ l. P.zero) r.items) }
{
    let _field = k;
    let mut zeros = Vec::with_capacity(alloc, e)?;
    for _l in 0..e {
        zeros.push(Poly::zero(alloc))?;
    }
    Ok(zeros)
}

/// The polynomial 1 for l = i, and 0 for other l.
fn unit<K: FiniteField<E = u32>>(alloc: Global, k: &K, i: usize, l: usize) -> Result<Poly, NoMemory>
    ensures poly { IfOk result (IsPoly (K.elements k.now)) }
    ensures value { let F = K.elements k.now in let P = polys_over F in
        IfOk result (λ r. poly_of F r ≡ unit_at P i l) }
{
    if l == i {
        return Poly::one(alloc, k);
    }
    Ok(Poly::zero(alloc))
}

/// The coordinates of the basis element with index `i`, of `e`. `NoMemory` is the only error.
pub fn basis_vector<K: FiniteField<E = u32>>(
    alloc: Global,
    k: &K,
    e: usize,
    i: usize,
) -> Result<Vec<Poly>, NoMemory>
    ensures { let F = K.elements k.now in let P = polys_over F in
        IfOk result (λ r. AreEntries F e (unit_at P i) r.items) }
{
    let mut vector = Vec::with_capacity(alloc, e)?;
    for l in 0..e {
        vector.push(unit(alloc, k, i, l)?)?;
    }
    Ok(vector)
}

/// Whether each polynomial is 0.
pub fn is_zero_each(c: &[Poly]) -> bool
    ensures { IsTrue result ↔ All (λ p. p ≡ []) c.now }
{
    for p in c {
        if !p.is_zero() {
            return false;
        }
    }
    true
}

/// The sum of coordinates, of two lists of one length. `NoMemory` is the only error.
pub fn ring_add<K: FiniteField<E = u32>>(
    alloc: Global,
    k: &K,
    a: &[Poly],
    b: &[Poly],
) -> Result<Vec<Poly>, NoMemory>
    requires a { ArePolys (K.elements k.now) a.now }
    requires b { ArePolys (K.elements k.now) b.now }
    requires count { length b.now ≡ length a.now }
    ensures { let F = K.elements k.now in let P = polys_over F in
        IfOk result (λ r. AreEntries F (length a.now)
        (λ l. P.add (entry_at F a.now l) (entry_at F b.now l)) r.items) }
{
    let mut sums = Vec::with_capacity(alloc, a.len())?;
    for l in 0..a.len() {
        sums.push(a[l].add(alloc, k, &b[l])?)?;
    }
    Ok(sums)
}

/// The product of a polynomial in z and coordinates. `NoMemory` is the only error.
pub fn ring_scale<K: FiniteField<E = u32>>(
    alloc: Global,
    k: &K,
    p: &Poly,
    a: &[Poly],
) -> Result<Vec<Poly>, NoMemory>
    requires p { IsPoly (K.elements k.now) p.now }
    requires a { ArePolys (K.elements k.now) a.now }
    ensures { let F = K.elements k.now in let P = polys_over F in
        IfOk result (λ r. AreEntries F (length a.now)
        (λ l. P.mul (poly_of F p.now) (entry_at F a.now l)) r.items) }
{
    let mut products = Vec::with_capacity(alloc, a.len())?;
    for l in 0..a.len() {
        products.push(p.mul(alloc, k, &a[l])?)?;
    }
    Ok(products)
}

/// Coordinates with the product of p and the basis element with the index `i` added. `NoMemory` is
/// the only error.
pub fn plus_at<K: FiniteField<E = u32>>(
    alloc: Global,
    k: &K,
    a: &[Poly],
    p: &Poly,
    i: usize,
) -> Result<Vec<Poly>, NoMemory>
    requires a { ArePolys (K.elements k.now) a.now }
    requires p { IsPoly (K.elements k.now) p.now }
    ensures { let F = K.elements k.now in let P = polys_over F in
        IfOk result (λ r. AreEntries F (length a.now)
        (λ l. P.add (entry_at F a.now l) (P.mul (poly_of F p.now) (unit_at P i l))) r.items) }
{
    let unit = basis_vector(alloc, k, a.len(), i)?;
    let term = ring_scale(alloc, k, p, &unit)?;
    ring_add(alloc, k, a, &term)
}
