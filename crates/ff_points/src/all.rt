// All points of an order.
ghost use Rattle.std.specs.Prelude.{◌≡◌, IfOk, OnOk};
ghost use Rattle.std.specs.List.{All};
ghost use Rattle.ff_theory.specs.Ring.{IsElement};
ghost use Rattle.ff_theory.specs.Values.{plane_of, IsPlane};
ghost use Rattle.ff_data.specs.declared.order.Chart.TheVariants.{Finite, Infinite};
ghost use Rattle.ff_data.specs.Orders.{chart_of, IsOrder};
ghost use Rattle.ff_data.specs.Points.{IsPoint};
ghost use Rattle.ff_forms.specs.Forms.{HasPointForm};
ghost use Rattle.ff_points.specs.PointLists.{IsClosedOrder, AreAmong, AreRising};
ghost use Rattle.ff_points.specs.PointLists.{AreRisingPoints, HasPointsOver, HasAllPoints};

use crate::fibres::insert_points_at;
use crate::list::PointList;
use crate::values::has_root_over;
use ff_alg::{FiniteField, NoMemory};
use ff_data::{Chart, Order, Point, chart_equation};
use ff_elem::Alg;
use ff_fibre::fibre_at;
use ff_poly::Plane;
use std::alloc::Global;

/// Puts the points over a into a list.
fn insert_points_over<K: FiniteField<E = u32>>(
    alloc: Global,
    alg: &Alg<K>,
    order: &Order,
    equation: &Plane,
    a: u32,
    list: &mut Vec<Point>,
) -> Result<(), NoMemory>
    requires order { IsOrder (K.lawful alg.now.k) alg.now.f order.now }
    requires equation { IsPlane (K.elements alg.now.k) equation.now }
    requires equation_is { let F = K.elements alg.now.k in let L = K.lawful alg.now.k in
        plane_of F equation.now ≡ (chart_of L alg.now.f order.now.chart).equation }
    requires a { IsElement (K.elements alg.now.k) a }
    requires at_infinity { let F = K.elements alg.now.k in
        order.now.chart ≡ Infinite → F.value a ≡ F.zero }
    requires list { let L = K.lawful alg.now.k in
        AreRisingPoints L alg.now.f order.now list.old.items }
    ensures list { let L = K.lawful alg.now.k in
        OnOk result (AreRisingPoints L alg.now.f order.now list.new.items) }
    ensures kept { OnOk result (AreAmong list.old.items list.new.items) }
    ensures over { let L = K.lawful alg.now.k in
        OnOk result (HasPointsOver L alg.now.f order.now a list.new.items) }
{
    if !has_root_over(alloc, &alg.k, equation.rows(), a)? {
        return Ok(());
    }
    let fibre = fibre_at(alloc, alg, order, a)?;
    insert_points_at(alloc, alg, order, a, &fibre, equation, list)
}

/// The points over each element of the field.
fn points_over_all<K: FiniteField<E = u32>>(
    alloc: Global,
    alg: &Alg<K>,
    order: &Order,
    equation: &Plane,
) -> Result<Vec<Point>, NoMemory>
    requires order { IsOrder (K.lawful alg.now.k) alg.now.f order.now }
    requires finite { order.now.chart ≡ Finite }
    requires equation { IsPlane (K.elements alg.now.k) equation.now }
    requires equation_is { let F = K.elements alg.now.k in let L = K.lawful alg.now.k in
        plane_of F equation.now ≡ (chart_of L alg.now.f order.now.chart).equation }
    ensures list { let L = K.lawful alg.now.k in
        IfOk result (λ r. AreRisingPoints L alg.now.f order.now r.items) }
    ensures all { let L = K.lawful alg.now.k in
        IfOk result (λ r. HasAllPoints L alg.now.f order.now r.items) }
{
    let mut list = Vec::new(alloc);
    for i in 0..alg.k.count() {
        insert_points_over(alloc, alg, order, equation, alg.k.nth(i), &mut list)?;
    }
    Ok(list)
}

/// The points over zero.
fn points_over_zero<K: FiniteField<E = u32>>(
    alloc: Global,
    alg: &Alg<K>,
    order: &Order,
    equation: &Plane,
) -> Result<Vec<Point>, NoMemory>
    requires order { IsOrder (K.lawful alg.now.k) alg.now.f order.now }
    requires infinite { order.now.chart ≡ Infinite }
    requires equation { IsPlane (K.elements alg.now.k) equation.now }
    requires equation_is { let F = K.elements alg.now.k in let L = K.lawful alg.now.k in
        plane_of F equation.now ≡ (chart_of L alg.now.f order.now.chart).equation }
    ensures list { let L = K.lawful alg.now.k in
        IfOk result (λ r. AreRisingPoints L alg.now.f order.now r.items) }
    ensures all { let L = K.lawful alg.now.k in
        IfOk result (λ r. HasAllPoints L alg.now.f order.now r.items) }
{
    let mut list = Vec::new(alloc);
    insert_points_over(alloc, alg, order, equation, alg.k.zero(), &mut list)?;
    Ok(list)
}

/// The points over the elements of the field that the chart of the order covers.
fn points_in_chart<K: FiniteField<E = u32>>(
    alloc: Global,
    alg: &Alg<K>,
    order: &Order,
) -> Result<Vec<Point>, NoMemory>
    requires { IsOrder (K.lawful alg.now.k) alg.now.f order.now }
    ensures list { let L = K.lawful alg.now.k in
        IfOk result (λ r. AreRisingPoints L alg.now.f order.now r.items) }
    ensures all { let L = K.lawful alg.now.k in
        IfOk result (λ r. HasAllPoints L alg.now.f order.now r.items) }
{
    let equation = chart_equation(alloc, alg, order.chart)?;
    match order.chart {
        Chart::Finite => points_over_all(alloc, alg, order, &equation),
        Chart::Infinite => points_over_zero(alloc, alg, order, &equation),
    }
}

/// The points of the order, by rising a, theta and values, each by the indices of elements. Where
/// the order is maximal and the equation irreducible these are the rational places that the chart
/// covers (Stichtenoth, section 1.1). `NoMemory` is the only error. This project's own.
pub fn points<K: FiniteField<E = u32>>(
    alloc: Global,
    alg: &Alg<K>,
    order: &Order,
) -> Result<PointList, NoMemory>
    requires { IsOrder (K.lawful alg.now.k) alg.now.f order.now }
    ensures form { let F = K.elements alg.now.k in
        IfOk result (All (HasPointForm F order.now)) }
    ensures sound { let L = K.lawful alg.now.k in let f = alg.now.f in
        IfOk result (λ r. IsClosedOrder L f order.now → All (IsPoint L f order.now) r) }
    ensures complete { let L = K.lawful alg.now.k in let f = alg.now.f in
        IfOk result (HasAllPoints L f order.now) }
    ensures rising { IfOk result (AreRising (K.elements alg.now.k)) }
{
    let items = points_in_chart(alloc, alg, order)?;
    Ok(PointList { items })
}
