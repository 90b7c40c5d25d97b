// The quotients at infinity of an element of the finite power order.
ghost use Rattle.std.specs.Prelude.{IfOk};
ghost use Rattle.ff_theory.specs.Values.{poly_of};
ghost use Rattle.ff_elem.specs.Elem.{elem_of};
ghost use Rattle.ff_data.specs.Orders.{IsSep};
ghost use Rattle.ff_order.specs.Quotients.{AreQuotients};

use crate::monic::rows_at_monic;
use ff_alg::{FiniteField, NoMemory};
use ff_data::{Sep, raise, raised_quotients};
use ff_elem::Alg;
use ff_poly::Poly;
use std::alloc::Global;

/// The quotients at infinity of `sep.b`, where the slope is e.
pub(crate) fn quotients_at_infinity<K: FiniteField<E = u32>>(
    alloc: Global,
    alg: &Alg<K>,
    sep: &Sep,
    e: u32,
) -> Result<Vec<Poly>, NoMemory>
    requires { IsSep (K.lawful alg.now.k) alg.now.f sep.now }
    ensures { let F = K.elements alg.now.k in let L = K.lawful alg.now.k in let f = alg.now.f in
        IfOk result (λ r. AreQuotients L f e (poly_of F sep.now.d) (elem_of L f sep.now.b)
        r.items) }
{
    let plane = rows_at_monic(alloc, alg, &sep.b)?;
    let by = raise(alloc, &alg.k, &sep.d, 1)?;
    raised_quotients(alloc, &alg.k, plane.rows(), alg.f.rows().len() - 2, e, &by)
}
