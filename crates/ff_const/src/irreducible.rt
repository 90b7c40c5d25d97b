// The constants of E(f), and whether f is irreducible.
ghost use Rattle.std.specs.Prelude.{◌≡◌, IfOk, IfErr};
ghost use Rattle.ff_data.specs.declared.order.Chart.TheVariants.{Finite, Infinite};
ghost use Rattle.ff_data.specs.Orders.{IsMaximal};
ghost use Rattle.ff_data.specs.Lattices.{IsCommon};
ghost use Rattle.ff_data.specs.Combinations.{IsBasisOf};
ghost use Rattle.ff_const.specs.Fixed.{FixesConstants, IsSplit};
ghost use Rattle.ff_const.specs.Irreducible.{IsIrreducible, IsStrict};

use crate::factors::SplitFault;
use crate::fixed::split_by;
use ff_alg::{FiniteField, NoMemory};
use ff_common::common;
use ff_data::Order;
use ff_elem::{Alg, Elem};
use std::alloc::Global;

/// A basis over k of the elements that are in both maximal orders, the constants of E(f)
/// (Stichtenoth, *Algebraic Function Fields and Codes*, section 1.1). `NoMemory` is the only error.
pub fn constants<K: FiniteField<E = u32>>(
    alloc: Global,
    alg: &Alg<K>,
    finite: &Order,
    infinite: &Order,
) -> Result<Vec<Elem>, NoMemory>
    requires finite { IsMaximal (K.lawful alg.now.k) alg.now.f finite.now }
    requires infinite { IsMaximal (K.lawful alg.now.k) alg.now.f infinite.now }
    requires first { finite.now.chart ≡ Finite }
    requires second { infinite.now.chart ≡ Infinite }
    ensures { let L = K.lawful alg.now.k in let f = alg.now.f in
        IfOk result (λ r. IsBasisOf L f (IsCommon L f finite.now infinite.now) r.items) }
{
    common(
        alloc,
        alg,
        &finite.d,
        &finite.space,
        &infinite.d,
        &infinite.space,
    )
}

/// Whether f is irreducible over k(x), by its maximal orders.
///
/// `Ok` comes exactly where it is. `Reducible` has factors g and h of f: f is a polynomial in x
/// times g * h, both are normalised and of positive y-degree, none of positive y-degree divides
/// both, and the key of g is less than that of h. It comes exactly where some common element w of
/// the orders with w^q = w, q being the number of elements of k, is no constant of k. This
/// project's own.
pub fn split<K: FiniteField<E = u32>>(
    alloc: Global,
    alg: &Alg<K>,
    finite: &Order,
    infinite: &Order,
) -> Result<(), SplitFault>
    requires finite { IsMaximal (K.lawful alg.now.k) alg.now.f finite.now }
    requires infinite { IsMaximal (K.lawful alg.now.k) alg.now.f infinite.now }
    requires first { finite.now.chart ≡ Finite }
    requires second { infinite.now.chart ≡ Infinite }
    ensures irreducible { IfOk result (λ _. IsIrreducible (K.lawful alg.now.k) alg.now.f) }
    ensures constants { let L = K.lawful alg.now.k in let f = alg.now.f in
        IfOk result (λ _. FixesConstants L f (IsCommon L f finite.now infinite.now)) }
    ensures split { let L = K.lawful alg.now.k in let f = alg.now.f in
        IfErr result (IsSplit L f (IsCommon L f finite.now infinite.now)) }
    ensures strict { IfErr result (IsStrict (K.elements alg.now.k)) }
{
    let basis = constants(alloc, alg, finite, infinite)?;
    split_by(alloc, alg, &basis)
}
