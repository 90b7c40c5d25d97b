// What two pole systems share, and the relation of one with alpha * z + beta for z.
ghost use Rattle.std.specs.Prelude.{◌≡◌, ◌↔◌, length, IsTrue, IfOk};
ghost use Rattle.ff_theory.specs.Ring.{IsElement};
ghost use Rattle.ff_theory.specs.Values.{ArePolys};
ghost use Rattle.ff_ring.specs.Entries.{entry_at, AreEntries};
ghost use Rattle.ff_ring.specs.Affine.{affine_at};
ghost use Rattle.ff_forms.specs.Forms.{AreAlike};

use ff_alg::{FiniteField, NoMemory};
use ff_data::{Relation, System};
use ff_elem::PolyList;
use ff_ring::affine_each;
use std::alloc::Global;

/// Whether e and the weights of two systems agree. It takes no memory.
pub fn alike(s1: &System, s2: &System) -> bool
    ensures { IsTrue result ↔ AreAlike s1.now s2.now }
{
    s1.e == s2.e && s1.weights.items.as_slice() == s2.weights.items.as_slice()
}

/// The coefficients of the relation at `alpha*z + beta`, as many as it has. `NoMemory` is the only
/// error.
pub fn shifted<K: FiniteField<E = u32>>(
    alloc: Global,
    k: &K,
    r: &Relation,
    alpha: u32,
    beta: u32,
) -> Result<PolyList, NoMemory>
    requires coeffs { ArePolys (K.elements k.now) r.now.coeffs }
    requires alpha { IsElement (K.elements k.now) alpha }
    requires beta { IsElement (K.elements k.now) beta }
    ensures { let F = K.elements k.now in
        IfOk result (AreEntries F (length r.now.coeffs)
        (λ i. affine_at F alpha beta (entry_at F r.now.coeffs i))) }
{
    affine_each(alloc, k, r.coeffs.rows(), alpha, beta)
}
