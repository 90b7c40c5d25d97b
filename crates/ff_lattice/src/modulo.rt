// Residues of each row modulo a polynomial in x, and quotients by one.
ghost use Rattle.std.specs.Prelude.{◌≡◌, ℕ, ◌<◌, ◌≤◌, length, IfOk};
ghost use Rattle.ff_theory.specs.Poly.{coeff};
ghost use Rattle.ff_theory.specs.Values.{poly_of, IsPoly, polys_over, polys_of, ArePolys};
ghost use Rattle.ff_theory.specs.Values.{plane_of, IsPlane};
ghost use Rattle.ff_lattice.specs.Residues.{IsRemainder, AreResidues};

use ff_alg::{FiniteField, NoMemory};
use ff_poly::{Plane, Poly};
use std::alloc::Global;

/// Each row modulo `m`, which is not 0: `a = r + m * q` for some q, where r has not more rows than
/// `a`, each with fewer coefficients than `m`. `NoMemory` is the only error.
pub fn residues<K: FiniteField<E = u32>>(
    alloc: Global,
    k: &K,
    a: &Plane,
    m: &Poly,
) -> Result<Plane, NoMemory>
    requires a { IsPlane (K.elements k.now) a.now }
    requires m { IsPoly (K.elements k.now) m.now }
    requires nonzero { 0 < length m.now }
    ensures plane { IfOk result (IsPlane (K.elements k.now)) }
    ensures value { let F = K.elements k.now in
        IfOk result (λ r. AreResidues F.ring (poly_of F m.now) (plane_of F a.now) (plane_of F r)) }
{
    Ok(Plane::from_vec(k, remainders(alloc, k, a.rows(), m)?))
}

/// The remainder of each row by `m`, which is not 0.
fn remainders<K: FiniteField<E = u32>>(
    alloc: Global,
    k: &K,
    rows: &[Poly],
    m: &Poly,
) -> Result<Vec<Poly>, NoMemory>
    requires rows { ArePolys (K.elements k.now) rows.now }
    requires m { IsPoly (K.elements k.now) m.now }
    requires nonzero { 0 < length m.now }
    ensures len { IfOk result (λ r. length r.items ≡ length rows.now) }
    ensures each { IfOk result (λ r. ArePolys (K.elements k.now) r.items) }
    ensures value { let F = K.elements k.now in let P = polys_over F in
        IfOk result (λ r. (i : ℕ) → i < length rows.now → IsRemainder F.ring (poly_of F m.now)
        (coeff P (polys_of F rows.now) i) (coeff P (polys_of F r.items) i)) }
{
    let mut remainders = Vec::with_capacity(alloc, rows.len())?;
    for p in rows {
        remainders.push(p.remainder(alloc, k, m)?)?;
    }
    Ok(remainders)
}
