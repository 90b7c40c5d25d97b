// The pole modules of a point of an order.
ghost use Rattle.std.specs.Prelude.{◌≡◌, ℕ, ◌+◌, ◌*◌, ◌<◌, pred, length, IfOk};
ghost use Rattle.ff_theory.specs.Values.{poly_of, IsPoly};
ghost use Rattle.ff_lin.specs.Space.{rows_of, AreVectors, IsSpaceOf, SameSpace};
ghost use Rattle.ff_data.specs.Orders.{chart_of, y_degree, IsOrder};
ghost use Rattle.ff_data.specs.Lattices.{IsLattice};
ghost use Rattle.ff_data.specs.Poles.{IsPole, IsModuleOf};
ghost use Rattle.ff_forms.specs.Forms.{HasPointForm};
ghost use Rattle.ff_frac.specs.Powers.{HasPowersForm};
ghost use Rattle.ff_frac.specs.Places.{IsMaximalPlace, IsOrderLattice, IsModuleLattice};
ghost use Rattle.ff_frac.specs.Numerators.{HasNumeratorsForm, AreNumeratorsAt};

use crate::numerators::Numerators;
use ff_alg::{FiniteField, NoMemory};
use ff_data::{NumberList, Order, Point, Pole};
use ff_elem::Alg;
use ff_lin::Space;
use ff_poly::Poly;
use std::alloc::Global;

/// The numerators for the pole module of a positive order j.
fn numerators<K: FiniteField<E = u32>>(
    alloc: Global,
    alg: &Alg<K>,
    order: &Order,
    point: &Point,
    j: usize,
) -> Result<Numerators, NoMemory>
    requires order { IsOrder (K.lawful alg.now.k) alg.now.f order.now }
    requires point { HasPointForm (K.elements alg.now.k) order.now point.now }
    requires positive { 0 < j }
    ensures form { let L = K.lawful alg.now.k in
        IfOk result (HasNumeratorsForm L alg.now.f order.now j) }
    ensures exact { let L = K.lawful alg.now.k in let f = alg.now.f in
        IsMaximalPlace L f order.now point.now →
        IfOk result (AreNumeratorsAt L f order.now point.now j) }
{
    let mut numerators = Numerators::start(alloc, alg, order, point)?;
    for i in 1..j {
        numerators = numerators.step(alloc, alg, order, i)?;
    }
    Ok(numerators)
}

/// The span of vectors with rows of `l` coefficients.
pub(crate) fn span_of<K: FiniteField<E = u32>>(
    alloc: Global,
    alg: &Alg<K>,
    l: usize,
    vectors: &[Vec<u32>],
) -> Result<Space, NoMemory>
    requires { let L = K.lawful alg.now.k in
        AreVectors (K.elements alg.now.k) (y_degree L alg.now.f * l) vectors.now }
    ensures space { let L = K.lawful alg.now.k in
        IfOk result (IsSpaceOf (K.elements alg.now.k) (y_degree L alg.now.f * l)) }
    ensures same { let F = K.elements alg.now.k in
        IfOk result (λ s. SameSpace F s.basis (rows_of vectors.now)) }
{
    match (alg.f.rows().len() - 1).checked_mul(l) {
        Some(len) => Space::span(alloc, &alg.k, len, vectors),
        None => Err(NoMemory),
    }
}

/// The modulus d*(u - a)^j and the space of a pole module of a positive order j.
fn power_module<K: FiniteField<E = u32>>(
    alloc: Global,
    alg: &Alg<K>,
    order: &Order,
    point: &Point,
    j: usize,
) -> Result<(Poly, Space), NoMemory>
    requires order { IsOrder (K.lawful alg.now.k) alg.now.f order.now }
    requires point { HasPointForm (K.elements alg.now.k) order.now point.now }
    requires positive { 0 < j }
    ensures lattice { let L = K.lawful alg.now.k in
        IfOk result (λ r. IsLattice L alg.now.f order.now.chart r.0 r.1) }
    ensures exact { let L = K.lawful alg.now.k in let f = alg.now.f in let o = order.now in
        IsMaximalPlace L f o point.now →
        IfOk result (λ r. IsModuleLattice L f o point.now j r.0 r.1) }
{
    let numerators = numerators(alloc, alg, order, point, j)?;
    let d = numerators.powers.modulus.copy(alloc)?;
    let l = d.coeffs().len() - 1;
    let space = span_of(alloc, alg, l, &numerators.vectors)?;
    Ok((d, space))
}

/// The modulus and the space of the order.
fn own_module<K: FiniteField<E = u32>>(
    alloc: Global,
    alg: &Alg<K>,
    order: &Order,
) -> Result<(Poly, Space), NoMemory>
    requires order { IsOrder (K.lawful alg.now.k) alg.now.f order.now }
    ensures lattice { let L = K.lawful alg.now.k in
        IfOk result (λ r. IsLattice L alg.now.f order.now.chart r.0 r.1) }
    ensures same { let L = K.lawful alg.now.k in
        IfOk result (λ r. IsOrderLattice L alg.now.f order.now r.0 r.1) }
{
    let d = order.d.copy(alloc)?;
    let space = Space::span(alloc, &alg.k, order.space.len(), order.space.basis())?;
    Ok((d, space))
}

/// The modulus and the space of a pole module.
fn modulus_and_space<K: FiniteField<E = u32>>(
    alloc: Global,
    alg: &Alg<K>,
    order: &Order,
    point: &Point,
    j: usize,
) -> Result<(Poly, Space), NoMemory>
    requires order { IsOrder (K.lawful alg.now.k) alg.now.f order.now }
    requires point { HasPointForm (K.elements alg.now.k) order.now point.now }
    ensures lattice { let L = K.lawful alg.now.k in
        IfOk result (λ r. IsLattice L alg.now.f order.now.chart r.0 r.1) }
    ensures exact { let L = K.lawful alg.now.k in let f = alg.now.f in let o = order.now in
        IsMaximalPlace L f o point.now →
        IfOk result (λ r. IsModuleLattice L f o point.now j r.0 r.1) }
{
    if j == 0 {
        return own_module(alloc, alg, order);
    }
    power_module(alloc, alg, order, point, j)
}

/// An equal point.
fn copy_of(alloc: Global, point: &Point) -> Result<Point, NoMemory>
    ensures { IfOk result (λ r. r ≡ point.now) }
{
    let items = Vec::from_slice(alloc, &point.values.items)?;
    Ok(Point {
        chart: point.chart,
        a: point.a,
        theta: point.theta,
        values: NumberList { items },
    })
}

/// The pole module of order j of a point of an order: the elements w for which w times any j
/// elements of value 0 is in the order. It is read over d*(u - a)^j, with d that of the order.
/// `NoMemory` is the only error. This project's own, after Stichtenoth, section 1.4.
pub fn pole_module<K: FiniteField<E = u32>>(
    alloc: Global,
    alg: &Alg<K>,
    order: &Order,
    point: &Point,
    j: u32,
) -> Result<Pole, NoMemory>
    requires order { IsOrder (K.lawful alg.now.k) alg.now.f order.now }
    requires point { HasPointForm (K.elements alg.now.k) order.now point.now }
    ensures j { IfOk result (λ r. r.j ≡ j) }
    ensures point { IfOk result (λ r. r.point ≡ point.now) }
    ensures form { IfOk result (IsPole (K.lawful alg.now.k) alg.now.f) }
    ensures exact { let L = K.lawful alg.now.k in let f = alg.now.f in
        IsMaximalPlace L f order.now point.now → IfOk result (IsModuleOf L f order.now) }
{
    let (d, space) = modulus_and_space(alloc, alg, order, point, j as usize)?;
    let point = copy_of(alloc, point)?;
    Ok(Pole { point, j, d, space })
}
