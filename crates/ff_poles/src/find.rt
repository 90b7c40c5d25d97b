// The pole system of a point.
ghost use Rattle.std.specs.Prelude.{◌≡◌, IfOk, IfSome};
ghost use Rattle.ff_data.specs.Orders.{IsOrder};
ghost use Rattle.ff_forms.specs.declared.functions.TheConstants.{POLE_LIMIT};
ghost use Rattle.ff_forms.specs.Forms.{HasPointForm, IsWithinLimit, AreAlike};
ghost use Rattle.ff_systems.specs.Places.{IsPlace};
ghost use Rattle.ff_functions.specs.Searches.{HasWeights};
ghost use Rattle.ff_ring.specs.Ring.{HasTable};
ghost use Rattle.ff_describe.specs.Described.{IsDescribed};
ghost use Rattle.ff_poles.specs.Found.{IsSystemAt};

use ff_alg::{FiniteField, NoMemory};
use ff_data::{Order, Point, System};
use ff_describe::describe;
use ff_elem::Alg;
use ff_functions::functions_at;
use std::alloc::Global;

/// The pole system of a point of an order, where `other` is the order of the other chart: of its
/// least functions, as `functions_at` finds them. None comes where there is no pole system of the
/// point within `POLE_LIMIT`, or none with e and the weights of `like`, if there is one. `NoMemory`
/// is the only error. This project's own.
pub fn find_system<K: FiniteField<E = u32>>(
    alloc: Global,
    alg: &Alg<K>,
    order: &Order,
    other: &Order,
    point: &Point,
    like: Option<&System>,
) -> Result<Option<System>, NoMemory>
    requires order { IsOrder (K.lawful alg.now.k) alg.now.f order.now }
    requires other { IsOrder (K.lawful alg.now.k) alg.now.f other.now }
    requires charts { ¬ (other.now.chart ≡ order.now.chart) }
    requires point { HasPointForm (K.elements alg.now.k) order.now point.now }
    requires like { IfSome like (λ s. HasWeights s.now) }
    ensures within { IfOk result (λ o. IfSome o IsWithinLimit) }
    ensures ring { let F = K.elements alg.now.k in IfOk result (λ o. IfSome o (HasTable F)) }
    ensures described { let L = K.lawful alg.now.k in let f = alg.now.f in
        IfOk result (λ o. IfSome o (IsDescribed L f POLE_LIMIT)) }
    ensures exact { let L = K.lawful alg.now.k in let f = alg.now.f in let o = order.now in
        let p = point.now in
        let alike = λ (s : System). IfSome like.entry (λ t. AreAlike s t.now) in
        IsPlace L f o p other.now →
        IfOk result (IsSystemAt L f o p other.now POLE_LIMIT alike) }
{
    match functions_at(alloc, alg, order, other, point, like)? {
        None => Ok(None),
        Some(functions) => describe(alloc, alg, &functions),
    }
}
