// The vectors of the coefficients of planes.
ghost use Rattle.std.specs.Prelude.{◌≡◌, ℕ, ◌<◌, ◌≤◌, ◌+◌, ◌*◌, length, IfOk};
ghost use Rattle.std.specs.List.{All};
ghost use Rattle.ff_theory.specs.Ring.{IsElement};
ghost use Rattle.ff_theory.specs.Poly.{coeff};
ghost use Rattle.ff_theory.specs.Vector.{vector_of, IsVector};
ghost use Rattle.ff_theory.specs.Values.{poly_of, IsPoly, polys_over, polys_of, ArePolys};
ghost use Rattle.ff_theory.specs.Values.{plane_of, IsPlane};
ghost use Rattle.ff_charts.specs.Lattice.{HasShape, flat};
ghost use Rattle.ff_lattice.specs.Vectors.{IsPart};

use ff_alg::{FiniteField, NoMemory};
use ff_poly::{Plane, Poly};
use std::alloc::Global;

/// The coefficients of `n` rows, `l` of each, row after row; the plane has no more. `NoMemory`
/// comes where memory runs out or `n * l` passes usize. This project's own.
pub fn vector_of_plane<K: FiniteField<E = u32>>(
    alloc: Global,
    k: &K,
    a: &Plane,
    n: usize,
    l: usize,
) -> Result<Vec<u32>, NoMemory>
    requires a { IsPlane (K.elements k.now) a.now }
    requires shape { let F = K.elements k.now in HasShape F.ring n l (plane_of F a.now) }
    ensures vector { IfOk result (λ v. IsVector (K.elements k.now) (n * l) v.items) }
    ensures value { let F = K.elements k.now in
        IfOk result (λ v. (j : ℕ) →
        vector_of F v.items j ≡ flat F.ring l (plane_of F a.now) j) }
{
    match n.checked_mul(l) {
        Some(len) => entries(alloc, k, a.rows(), len, l),
        None => Err(NoMemory),
    }
}

/// The first `len` coefficients, `l` of each row, row after row.
fn entries<K: FiniteField<E = u32>>(
    alloc: Global,
    k: &K,
    rows: &[Poly],
    len: usize,
    l: usize,
) -> Result<Vec<u32>, NoMemory>
    requires rows { ArePolys (K.elements k.now) rows.now }
    requires positive { 0 < len → 0 < l }
    ensures vector { IfOk result (λ v. IsVector (K.elements k.now) len v.items) }
    ensures value { let F = K.elements k.now in
        IfOk result (λ v. (j : ℕ) → j < len →
        vector_of F v.items j ≡ flat F.ring l (plane_of F rows.now) j) }
{
    let mut entries = Vec::with_capacity(alloc, len)?;
    for j in 0..len {
        entries.push(entry(k, rows, j / l, j % l))?;
    }
    Ok(entries)
}

/// The coefficient of power `j` in row `i`, zero past the ends.
fn entry<K: FiniteField<E = u32>>(k: &K, rows: &[Poly], i: usize, j: usize) -> u32
    requires rows { ArePolys (K.elements k.now) rows.now }
    ensures element { IsElement (K.elements k.now) result }
    ensures value { let F = K.elements k.now in let P = polys_over F in
        F.value result ≡ coeff F.ring (coeff P (plane_of F rows.now).coeffs i).coeffs j }
{
    if i < rows.len() {
        rows[i].coeff(k, j)
    } else {
        k.zero()
    }
}

/// The plane of `n` rows of `l` coefficients that has the entries of the vector for coefficients,
/// row after row. `NoMemory` comes where memory runs out. This project's own.
pub fn plane_of_vector<K: FiniteField<E = u32>>(
    alloc: Global,
    k: &K,
    v: &[u32],
    n: usize,
    l: usize,
) -> Result<Plane, NoMemory>
    requires { IsVector (K.elements k.now) (n * l) v.now }
    ensures plane { IfOk result (IsPlane (K.elements k.now)) }
    ensures shape { let F = K.elements k.now in
        IfOk result (λ r. HasShape F.ring n l (plane_of F r)) }
    ensures value { let F = K.elements k.now in
        IfOk result (λ r. (j : ℕ) → flat F.ring l (plane_of F r) j ≡ vector_of F v.now j) }
{
    let mut rows = Vec::with_capacity(alloc, n)?;
    for i in 0..n {
        rows.push(part(alloc, k, v, i * l, l)?)?;
    }
    Ok(Plane::from_vec(k, rows))
}

/// The polynomial with the `l` entries of the vector from index `at` on.
fn part<K: FiniteField<E = u32>>(
    alloc: Global,
    k: &K,
    v: &[u32],
    at: usize,
    l: usize,
) -> Result<Poly, NoMemory>
    requires v { All (IsElement (K.elements k.now)) v.now }
    requires room { at + l ≤ length v.now }
    ensures poly { IfOk result (IsPoly (K.elements k.now)) }
    ensures value { let F = K.elements k.now in
        IfOk result (λ r. IsPart F.ring l (vector_of F v.now) at (poly_of F r)) }
{
    Poly::from_coeffs(alloc, k, &v[at..at + l])
}
