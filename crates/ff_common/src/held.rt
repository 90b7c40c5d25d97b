// A space of numerators over one denominator for all common elements of two lattices.
ghost use Rattle.std.specs.Prelude.{◌≡◌, ℕ, ◌+◌, ◌*◌, ◌-◌, ◌/◌, ◌%◌, ◌<◌, ◌≤◌, length};
ghost use Rattle.std.specs.Prelude.{IfOk, IsTrue, ◌↔◌};
ghost use Rattle.ff_theory.specs.Ring.{IsElement};
ghost use Rattle.ff_theory.specs.Span.{unit_at};
ghost use Rattle.ff_theory.specs.Values.{IsPoly, polys_over};
ghost use Rattle.ff_theory.specs.Vector.{vector_of, IsVector};
ghost use Rattle.ff_lin.specs.Space.{SpaceParts, IsSpaceOf};
ghost use Rattle.ff_data.specs.declared.order.Chart.TheVariants.{Finite, Infinite};
ghost use Rattle.ff_data.specs.Orders.{y_degree};
ghost use Rattle.ff_data.specs.Lattices.{IsLattice, InLatticeOf, InBoth};
ghost use Rattle.ff_common.specs.Common.{HoldsNumerators, IsShortAt, HasShortRows};
ghost use Rattle.ff_common.specs.Common.{IsTimesSpace, HoldsMultiples};

use crate::images::slope_at_infinity;
use crate::times::times_space;
use ff_alg::{FiniteField, NoMemory};
use ff_elem::Alg;
use ff_lin::Space;
use ff_poly::Poly;
use std::alloc::Global;

/// The entry at index `j` of the vector with one at index `s` alone.
fn unit_entry<K: FiniteField<E = u32>>(k: &K, s: usize, j: usize) -> u32
    ensures element { IsElement (K.elements k.now) result }
    ensures value { let F = K.elements k.now in F.value result ≡ unit_at F.ring s j }
{
    if j == s { k.one() } else { k.zero() }
}

/// The vector of length `n` with one at index `s` alone.
fn unit<K: FiniteField<E = u32>>(
    alloc: Global,
    k: &K,
    n: usize,
    s: usize,
) -> Result<Vec<u32>, NoMemory>
    requires { s < n }
    ensures vector { IfOk result (λ v. IsVector (K.elements k.now) n v.items) }
    ensures value { let F = K.elements k.now in
        IfOk result (λ v. (j : ℕ) → vector_of F v.items j ≡ unit_at F.ring s j) }
{
    let mut unit = Vec::with_capacity(alloc, n)?;
    for j in 0..n {
        unit.push(unit_entry(k, s, j))?;
    }
    Ok(unit)
}

/// Whether entry j of a vector with rows of w coefficients is one of the first w - i * e of row i.
fn is_short_at(w: usize, e: u32, j: usize) -> bool
    requires { 0 < w }
    ensures { IsTrue result ↔ IsShortAt w e j }
{
    match (j / w).checked_mul(e as usize) {
        Some(h) => h < w && j % w < w - h,
        None => false,
    }
}

/// The vectors of length n whose rows of w coefficients have at most w - i * e each that are not 0,
/// with i the index of the row.
fn short_rows<K: FiniteField<E = u32>>(
    alloc: Global,
    k: &K,
    n: usize,
    w: usize,
    e: u32,
) -> Result<Space, NoMemory>
    requires { 0 < w }
    ensures space { IfOk result (IsSpaceOf (K.elements k.now) n) }
    ensures whole { IfOk result (HasShortRows (K.elements k.now) n w e) }
{
    let mut space = Space::zero(alloc, n);
    for j in 0..n {
        if is_short_at(w, e, j) {
            space = space.insert(alloc, k, unit(alloc, k, n, j)?)?;
        }
    }
    Ok(space)
}

/// The planes of a space with rows of m coefficients, with rows of l.
fn lengthened<K: FiniteField<E = u32>>(
    alloc: Global,
    alg: &Alg<K>,
    m: usize,
    space: &Space,
    l: usize,
) -> Result<Space, NoMemory>
    requires space { let L = K.lawful alg.now.k in
        IsSpaceOf (K.elements alg.now.k) (y_degree L alg.now.f * m) space.now }
    requires room { m ≤ l }
    ensures space { let L = K.lawful alg.now.k in let f = alg.now.f in
        IfOk result (IsSpaceOf (K.elements alg.now.k) (y_degree L f * l)) }
    ensures times { let F = K.elements alg.now.k in let L = K.lawful alg.now.k in
        let f = alg.now.f in
        IfOk result (IsTimesSpace L f (polys_over F).one m l space.now) }
{
    let one = Poly::one(alloc, &alg.k)?;
    times_space(alloc, alg, &one, m, space, l)
}

/// The multiples of d by planes whose row i has at most w - i * e coefficients, with e the slope,
/// with rows of l coefficients.
fn multiples<K: FiniteField<E = u32>>(
    alloc: Global,
    alg: &Alg<K>,
    d: &Poly,
    w: usize,
    l: usize,
) -> Result<Space, NoMemory>
    requires d { IsPoly (K.elements alg.now.k) d.now }
    requires positive { 0 < w }
    requires room { length d.now + w ≤ l + 1 }
    ensures { let L = K.lawful alg.now.k in
        IfOk result (HoldsMultiples L alg.now.f d.now w l) }
{
    let e = slope_at_infinity(alloc, alg)?;
    match (alg.f.rows().len() - 1).checked_mul(w) {
        Some(n) => {
            let factors = short_rows(alloc, &alg.k, n, w, e)?;
            times_space(alloc, alg, d, w, &factors, l)
        },
        None => Err(NoMemory),
    }
}

/// The numerators over d of elements of the finite lattice, among them those of all that are in a
/// lattice modulo t of the infinite chart as well.
fn held_space<K: FiniteField<E = u32>>(
    alloc: Global,
    alg: &Alg<K>,
    d: &Poly,
    space: &Space,
    t: &Poly,
    l: usize,
) -> Result<Space, NoMemory>
    requires finite { IsLattice (K.lawful alg.now.k) alg.now.f Finite d.now space.now }
    requires nonzero { 0 < length t.now }
    requires len { l ≡ length d.now - 1 + length t.now }
    ensures { let L = K.lawful alg.now.k in let f = alg.now.f in IfOk result (λ r.
        (o : SpaceParts) → IsLattice L f Infinite t.now o → HoldsNumerators L f d.now l
        (InBoth L f d.now space.now t.now o) (InLatticeOf L f Finite d.now space.now) r) }
{
    let low = lengthened(alloc, alg, d.coeffs().len() - 1, space, l)?;
    let high = multiples(alloc, alg, d, t.coeffs().len(), l)?;
    low.sum(alloc, &alg.k, &high)
}

/// The numerators over d of elements of the finite lattice, among them those of all that are in a
/// lattice modulo t of the infinite chart as well; and how long their rows are.
pub(crate) fn held_numerators<K: FiniteField<E = u32>>(
    alloc: Global,
    alg: &Alg<K>,
    d: &Poly,
    space: &Space,
    t: &Poly,
) -> Result<(usize, Space), NoMemory>
    requires finite { IsLattice (K.lawful alg.now.k) alg.now.f Finite d.now space.now }
    requires nonzero { 0 < length t.now }
    ensures { let L = K.lawful alg.now.k in let f = alg.now.f in IfOk result (λ r.
        (o : SpaceParts) → IsLattice L f Infinite t.now o → HoldsNumerators L f d.now r.0
        (InBoth L f d.now space.now t.now o) (InLatticeOf L f Finite d.now space.now) r.1) }
{
    match (d.coeffs().len() - 1).checked_add(t.coeffs().len()) {
        Some(l) => Ok((l, held_space(alloc, alg, d, space, t, l)?)),
        None => Err(NoMemory),
    }
}
