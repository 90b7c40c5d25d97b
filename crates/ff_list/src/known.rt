// What the search has of the first field.
ghost use Rattle.std.specs.Prelude.{◌≡◌, IfOk, IfErr};
ghost use Rattle.ff_forms.specs.Forms.{HasRelationForm};
ghost use Rattle.ff_list.specs.Lists.{AreBothOrders};
ghost use Rattle.ff_list.specs.Searches.{ArePlaces, IsStart, IsStartFault, IsKnown};

use crate::curve::Curve;
use crate::starts::{Start, StartFault, start_of};
use ff_alg::{FiniteField, NoMemory};
use ff_data::Relation;
use ff_elem::Alg;
use ff_relation::relation;
use ff_ring::weight_bound;
use std::alloc::Global;

/// What the search has of the first field: its points and a pole system, a relation of that, and a
/// bound for the weight of the relation's element w.
#[derive(Drop)]
pub struct Known {
    pub start: Start,
    pub relation: Relation,
    pub weight: u32,
}

/// A number, or the greatest one of 32 bits.
fn capped(n: u64) -> u32 {
    if n < u32::MAX as u64 {
        n as u32
    } else {
        u32::MAX
    }
}

/// A start with a relation of its system.
fn with_relation<K: FiniteField<E = u32>>(alg: &Alg<K>, start: Start, relation: Relation) -> Known
    requires start { IsStart (K.lawful alg.now.k) alg.now.f start }
    requires relation { HasRelationForm (K.elements alg.now.k) start.system relation }
    ensures start { result.start ≡ start }
    ensures known { IsKnown (K.lawful alg.now.k) alg.now.f result }
{
    let _alg = alg;
    let weight = capped(weight_bound(&start.system, relation.w.rows()));
    Known {
        start,
        relation,
        weight,
    }
}

/// A start with a relation of its system, which is looked for.
fn related<K: FiniteField<E = u32>>(
    alloc: Global,
    curve: &Curve<K>,
    start: Start,
) -> Result<Known, StartFault>
    requires { IsStart (K.lawful curve.now.alg.k) curve.now.alg.f start }
    ensures start { IfOk result (λ r. r.start ≡ start) }
    ensures known { IfOk result (IsKnown (K.lawful curve.now.alg.k) curve.now.alg.f) }
    ensures fault { let c = curve.now in let L = K.lawful c.alg.k in
        IfErr result (IsStartFault L c.alg.f c.finite c.infinite) }
{
    match relation(alloc, &curve.alg, &start.system) {
        Ok(relation) => Ok(with_relation(&curve.alg, start, relation)),
        Err(NoMemory) => {
            drop(start);
            Err(StartFault::NoMemory)
        },
    }
}

/// The points of an equation, the first of them that has a pole system within the pole limit, and
/// one there with a relation; else why there is none.
pub fn known_of<K: FiniteField<E = u32>>(
    alloc: Global,
    curve: &Curve<K>,
) -> Result<Known, StartFault>
    requires { let c = curve.now in
        AreBothOrders (K.lawful c.alg.k) c.alg.f c.finite c.infinite }
    ensures places { let c = curve.now in let L = K.lawful c.alg.k in
        IfOk result (λ r. ArePlaces L c.alg.f c.finite c.infinite r.start.places.items) }
    ensures known { let c = curve.now in IfOk result (IsKnown (K.lawful c.alg.k) c.alg.f) }
    ensures fault { let c = curve.now in let L = K.lawful c.alg.k in
        IfErr result (IsStartFault L c.alg.f c.finite c.infinite) }
{
    match start_of(alloc, curve) {
        Ok(start) => related(alloc, curve, start),
        Err(fault) => Err(fault),
    }
}
