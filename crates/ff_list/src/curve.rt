// An equation with its algebra and its maximal orders, where it is admitted.
ghost use Rattle.std.specs.Prelude.{◌≡◌, ◌<◌, length, IfOk, IfErr};
ghost use Rattle.ff_theory.specs.Values.{IsPlane};
ghost use Rattle.ff_data.specs.declared.order.Chart.TheVariants.{Finite};
ghost use Rattle.ff_data.specs.Orders.{IsSep, IsSeparable, IsMaximal};
ghost use Rattle.ff_list.specs.Lists.{IsAdmitted, AreBothOrders};
ghost use Rattle.ff_list.specs.Searches.{IsNotAdmitted};

use ff_alg::{FiniteField, NoMemory};
use ff_const::{SplitFault, split};
use ff_data::{Chart, Order, Refusal, Sep};
use ff_elem::Alg;
use ff_order::maximal;
use ff_poly::Plane;
use ff_sep::{SepFault, separate};
use std::alloc::Global;

/// An equation with its algebra, why it is separable in y, and the maximal orders of both charts.
#[derive(Drop)]
pub struct Curve<K: FiniteField<E = u32>> {
    pub alg: Alg<K>,
    pub sep: Sep,
    pub finite: Order,
    pub infinite: Order,
}

/// Both maximal orders, where the finite one is known.
fn with_infinite<K: FiniteField<E = u32>>(
    alloc: Global,
    alg: &Alg<K>,
    sep: &Sep,
    finite: Order,
) -> Result<(Order, Order), NoMemory>
    requires sep { IsSep (K.lawful alg.now.k) alg.now.f sep.now }
    requires order { IsMaximal (K.lawful alg.now.k) alg.now.f finite }
    requires chart { finite.chart ≡ Finite }
    ensures { let L = K.lawful alg.now.k in
        IfOk result (λ r. AreBothOrders L alg.now.f r.0 r.1) }
{
    match maximal(alloc, alg, sep, Chart::Infinite) {
        Ok(infinite) => Ok((finite, infinite)),
        Err(NoMemory) => {
            drop(finite);
            Err(NoMemory)
        },
    }
}

/// Both maximal orders.
fn orders<K: FiniteField<E = u32>>(
    alloc: Global,
    alg: &Alg<K>,
    sep: &Sep,
) -> Result<(Order, Order), NoMemory>
    requires { IsSep (K.lawful alg.now.k) alg.now.f sep.now }
    ensures { let L = K.lawful alg.now.k in
        IfOk result (λ r. AreBothOrders L alg.now.f r.0 r.1) }
{
    match maximal(alloc, alg, sep, Chart::Finite) {
        Ok(finite) => with_infinite(alloc, alg, sep, finite),
        Err(NoMemory) => Err(NoMemory),
    }
}

/// Whether the equation is irreducible by its orders, and the refusal of one that is not.
fn irreducible<K: FiniteField<E = u32>>(
    alloc: Global,
    alg: &Alg<K>,
    finite: &Order,
    infinite: &Order,
    which: u8,
) -> Result<(), Refusal>
    requires separable { IsSeparable (K.lawful alg.now.k) alg.now.f }
    requires orders { AreBothOrders (K.lawful alg.now.k) alg.now.f finite.now infinite.now }
    ensures admitted { IfOk result (λ _. IsAdmitted (K.lawful alg.now.k) alg.now.f) }
    ensures refused { let L = K.lawful alg.now.k in
        IfErr result (IsNotAdmitted L alg.now.f which) }
{
    match split(alloc, alg, finite, infinite) {
        Ok(()) => Ok(()),
        Err(SplitFault::Reducible { g, h }) => Err(Refusal::Reducible { which, g, h }),
        Err(SplitFault::NoMemory) => Err(Refusal::NoMemory),
    }
}

/// The same equation with its orders, where they show that it is irreducible.
fn admitted<K: FiniteField<E = u32>>(
    alloc: Global,
    curve: Curve<K>,
    which: u8,
) -> Result<Curve<K>, Refusal>
    requires separable { IsSeparable (K.lawful curve.alg.k) curve.alg.f }
    requires orders { let L = K.lawful curve.alg.k in
        AreBothOrders L curve.alg.f curve.finite curve.infinite }
    ensures same { IfOk result (λ r. r ≡ curve) }
    ensures admitted { IfOk result (λ _. IsAdmitted (K.lawful curve.alg.k) curve.alg.f) }
    ensures refused { let L = K.lawful curve.alg.k in
        IfErr result (IsNotAdmitted L curve.alg.f which) }
{
    match irreducible(alloc, &curve.alg, &curve.finite, &curve.infinite, which) {
        Ok(()) => Ok(curve),
        Err(refusal) => {
            drop(curve);
            Err(refusal)
        },
    }
}

/// The equation of an algebra that is separable in y, where it is irreducible.
fn separated<K: FiniteField<E = u32>>(
    alloc: Global,
    alg: Alg<K>,
    sep: Sep,
    which: u8,
) -> Result<Curve<K>, Refusal>
    requires sep { IsSep (K.lawful alg.k) alg.f sep }
    requires separable { IsSeparable (K.lawful alg.k) alg.f }
    ensures algebra { IfOk result (λ r. r.alg ≡ alg) }
    ensures sep { IfOk result (λ r. IsSep (K.lawful alg.k) alg.f r.sep) }
    ensures orders { let L = K.lawful alg.k in
        IfOk result (λ r. AreBothOrders L alg.f r.finite r.infinite) }
    ensures admitted { IfOk result (λ _. IsAdmitted (K.lawful alg.k) alg.f) }
    ensures refused { let L = K.lawful alg.k in IfErr result (IsNotAdmitted L alg.f which) }
{
    match orders(alloc, &alg, &sep) {
        Ok((finite, infinite)) => admitted(
            alloc,
            Curve {
                alg,
                sep,
                finite,
                infinite,
            },
            which,
        ),
        Err(NoMemory) => {
            drop(sep);
            drop(alg);
            Err(Refusal::NoMemory)
        },
    }
}

/// The equation of an algebra, where it is separable in y and irreducible.
fn separable<K: FiniteField<E = u32>>(
    alloc: Global,
    alg: Alg<K>,
    which: u8,
) -> Result<Curve<K>, Refusal>
    ensures algebra { IfOk result (λ r. r.alg ≡ alg) }
    ensures sep { IfOk result (λ r. IsSep (K.lawful alg.k) alg.f r.sep) }
    ensures orders { let L = K.lawful alg.k in
        IfOk result (λ r. AreBothOrders L alg.f r.finite r.infinite) }
    ensures admitted { IfOk result (λ _. IsAdmitted (K.lawful alg.k) alg.f) }
    ensures refused { let L = K.lawful alg.k in IfErr result (IsNotAdmitted L alg.f which) }
{
    match separate(alloc, &alg) {
        Ok(sep) => separated(alloc, alg, sep, which),
        Err(SepFault::Inseparable) => Err(Refusal::Inseparable { which }),
        Err(SepFault::Square { g, h }) => Err(Refusal::Reducible { which, g, h }),
        Err(SepFault::NoMemory) => Err(Refusal::NoMemory),
    }
}

/// The equation f, which is number `which`, with its algebra and its orders, where it is separable
/// in y and irreducible over k(x).
///
/// `Inseparable` comes exactly where its derivative in y is 0, and `Reducible` exactly where that
/// is not 0 and f is reducible. `NoMemory` is the only other error.
pub fn curve_of<K: FiniteField<E = u32>>(
    alloc: Global,
    k: &K,
    f: &Plane,
    which: u8,
) -> Result<Curve<K>, Refusal>
    requires plane { IsPlane (K.elements k.now) f.now }
    requires has_y { 1 < length f.now }
    ensures field { IfOk result (λ r. r.alg.k ≡ k.now) }
    ensures equation { IfOk result (λ r. r.alg.f ≡ f.now) }
    ensures sep { IfOk result (λ r. IsSep (K.lawful k.now) f.now r.sep) }
    ensures orders { let L = K.lawful k.now in
        IfOk result (λ r. AreBothOrders L f.now r.finite r.infinite) }
    ensures admitted { IfOk result (λ _. IsAdmitted (K.lawful k.now) f.now) }
    ensures refused { let L = K.lawful k.now in IfErr result (IsNotAdmitted L f.now which) }
{
    match Alg::new(alloc, *k, f) {
        Ok(alg) => separable(alloc, alg, which),
        Err(NoMemory) => Err(Refusal::NoMemory),
    }
}
