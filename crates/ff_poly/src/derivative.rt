// The derivative by y.
ghost use Rattle.std.specs.Prelude.{◌≡◌, IfOk};
ghost use Rattle.ff_theory.specs.Values.{polys_over, plane_of, IsPlane, ArePolys};
ghost use Rattle.ff_theory.specs.Derivative.{derivative};

use crate::{Plane, Poly};
use ff_alg::{FiniteField, NoMemory};
use std::alloc::Global;

impl Plane {
    /// The derivative by y: row i is i + 1 times row i + 1.
    pub fn dy<K: FiniteField<E = u32>>(&self, alloc: Global, k: &K) -> Result<Plane, NoMemory>
        requires { IsPlane (K.elements k.now) self.now }
        ensures plane { IfOk result (IsPlane (K.elements k.now)) }
        ensures value { let F = K.elements k.now in let P = polys_over F in
            IfOk result (λ r. plane_of F r ≡ derivative P (plane_of F self.now)) }
    {
        Ok(Plane::from_vec(k, derivative_rows(alloc, k, self.rows())?))
    }
}

/// The rows of the derivative by y.
fn derivative_rows<K: FiniteField<E = u32>>(
    alloc: Global,
    k: &K,
    rows: &[Poly],
) -> Result<Vec<Poly>, NoMemory>
    requires { ArePolys (K.elements k.now) rows.now }
    ensures each { IfOk result (λ r. ArePolys (K.elements k.now) r.items) }
    ensures value { let F = K.elements k.now in let P = polys_over F in
        IfOk result (λ r. plane_of F r.items ≡ derivative P (plane_of F rows.now)) }
{
    let mut multiples = Vec::with_capacity(alloc, rows.len())?;
    let mut factor = k.zero();
    for i in 1..rows.len() {
        factor = k.add(factor, k.one());
        multiples.push(rows[i].copy(alloc)?.times_constant(k, factor))?;
    }
    Ok(multiples)
}
