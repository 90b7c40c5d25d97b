// The elements of a pole module that are in the order of the other chart.
ghost use Rattle.std.specs.Prelude.{◌≡◌, ℕ, IfOk};
ghost use Rattle.ff_data.specs.declared.order.Order.{Order};
ghost use Rattle.ff_data.specs.Orders.{IsOrder};
ghost use Rattle.ff_data.specs.Poles.{IsPole, IsModuleOf, IsSpaceAt};
ghost use Rattle.ff_data.specs.Combinations.{IsBasisOf};
ghost use Rattle.ff_rr.specs.Functions.{IsFunctionOf};

use ff_alg::{FiniteField, NoMemory};
use ff_common::common;
use ff_data::{Chart, ElemList, Order, Pole, RRSpace};
use ff_elem::{Alg, Elem};
use std::alloc::Global;

/// A basis of the elements that are in the pole module and in the order of the other chart.
fn common_basis<K: FiniteField<E = u32>>(
    alloc: Global,
    alg: &Alg<K>,
    pole: &Pole,
    other: &Order,
) -> Result<Vec<Elem>, NoMemory>
    requires pole { IsPole (K.lawful alg.now.k) alg.now.f pole.now }
    requires other { IsOrder (K.lawful alg.now.k) alg.now.f other.now }
    requires charts { ¬ (other.now.chart ≡ pole.now.point.chart) }
    ensures { let L = K.lawful alg.now.k in let f = alg.now.f in
        IfOk result (λ r. IsBasisOf L f (IsFunctionOf L f pole.now other.now) r.items) }
{
    match pole.point.chart {
        Chart::Finite => common(alloc, alg, &pole.d, &pole.space, &other.d, &other.space),
        Chart::Infinite => common(alloc, alg, &other.d, &other.space, &pole.d, &pole.space),
    }
}

/// A basis over the field of the elements that are in the pole module and in the order of the other
/// chart, whichever chart the point is in. Where the pole module is that of a point of an order,
/// these are the functions of L_j, with j that of the pole (Stichtenoth, section 1.4). `NoMemory`
/// is the only error.
pub fn space<K: FiniteField<E = u32>>(
    alloc: Global,
    alg: &Alg<K>,
    pole: &Pole,
    other: &Order,
) -> Result<RRSpace, NoMemory>
    requires pole { IsPole (K.lawful alg.now.k) alg.now.f pole.now }
    requires other { IsOrder (K.lawful alg.now.k) alg.now.f other.now }
    requires charts { ¬ (other.now.chart ≡ pole.now.point.chart) }
    ensures j { IfOk result (λ r. r.j ≡ pole.now.j) }
    ensures basis { let L = K.lawful alg.now.k in let f = alg.now.f in
        IfOk result (λ r. IsBasisOf L f (IsFunctionOf L f pole.now other.now) r.basis) }
    ensures at_point { let L = K.lawful alg.now.k in let f = alg.now.f in
        IfOk result (λ r. (o : Order) → IsModuleOf L f o pole.now →
        IsSpaceAt L f o pole.now.point other.now r) }
{
    let items = common_basis(alloc, alg, pole, other)?;
    Ok(RRSpace {
        j: pole.j,
        basis: ElemList { items },
    })
}
