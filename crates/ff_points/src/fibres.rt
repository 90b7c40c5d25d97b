// The points of an order over an element of the field, by the characters of its algebra there.
ghost use Rattle.std.specs.Prelude.{◌≡◌, ℕ, ◌*◌, ◌<◌, pred, length, IfOk, OnOk};
ghost use Rattle.std.specs.List.{All};
ghost use Rattle.ff_theory.specs.Ring.{IsElement};
ghost use Rattle.ff_theory.specs.Values.{plane_of, IsPlane};
ghost use Rattle.ff_theory.specs.Span.{product};
ghost use Rattle.ff_theory.specs.Vector.{vector_of, vectors_of, IsVector};
ghost use Rattle.ff_lin.specs.Space.{rows_of, AreVectors};
ghost use Rattle.ff_data.specs.declared.order.Chart.TheVariants.{Infinite};
ghost use Rattle.ff_data.specs.Orders.{chart_of, y_degree, IsOrder};
ghost use Rattle.ff_fibre.specs.Fibres.{HasBasisForm, HasFibreForm, IsFibreAt};
ghost use Rattle.ff_forms.specs.Forms.{HasPointForm};
ghost use Rattle.ff_points.specs.PointLists.{ArePowerCoordinates, AreVectorCoordinates};
ghost use Rattle.ff_points.specs.PointLists.{AreCharactersOf, IsPointBy, AreWithCharacters};
ghost use Rattle.ff_points.specs.PointLists.{AreAmong, AreRising, AreRisingPoints, HasPointsOver};

use crate::keys::insert;
use ff_alg::{FiniteField, NoMemory};
use ff_characters::{characters, dot};
use ff_data::{NumberList, Order, Point};
use ff_elem::Alg;
use ff_fibre::{Fibre, basis_numerator, coordinates, power_numerator};
use ff_lattice::remainder;
use ff_lin::Space;
use ff_poly::Plane;
use std::alloc::Global;

/// The coordinates of a power of theta.
fn power_coordinates<K: FiniteField<E = u32>>(
    alloc: Global,
    alg: &Alg<K>,
    order: &Order,
    fibre: &Fibre,
    equation: &Plane,
    i: usize,
) -> Result<Vec<u32>, NoMemory>
    requires order { IsOrder (K.lawful alg.now.k) alg.now.f order.now }
    requires fibre { HasBasisForm (K.lawful alg.now.k) alg.now.f fibre.now }
    requires equation { IsPlane (K.elements alg.now.k) equation.now }
    requires equation_is { let F = K.elements alg.now.k in let L = K.lawful alg.now.k in
        plane_of F equation.now ≡ (chart_of L alg.now.f order.now.chart).equation }
    ensures vector { let F = K.elements alg.now.k in
        IfOk result (λ r. IsVector F (length fibre.now.planes.items) r.items) }
    ensures value { let F = K.elements alg.now.k in let L = K.lawful alg.now.k in
        IfOk result (λ r. ArePowerCoordinates L alg.now.f order.now fibre.now i
        (vector_of F r.items)) }
{
    let power = power_numerator(alloc, &alg.k, &order.d, i)?;
    let plane = remainder(alloc, &alg.k, &power, equation)?;
    coordinates(alloc, alg, fibre, &plane)
}

/// The coordinates of the element that a vector of the order's space stands for.
fn vector_coordinates<K: FiniteField<E = u32>>(
    alloc: Global,
    alg: &Alg<K>,
    order: &Order,
    fibre: &Fibre,
    v: &[u32],
) -> Result<Vec<u32>, NoMemory>
    requires order { IsOrder (K.lawful alg.now.k) alg.now.f order.now }
    requires fibre { HasBasisForm (K.lawful alg.now.k) alg.now.f fibre.now }
    requires vector { let L = K.lawful alg.now.k in
        IsVector (K.elements alg.now.k) (y_degree L alg.now.f * pred (length order.now.d)) v.now }
    ensures vector { let F = K.elements alg.now.k in
        IfOk result (λ r. IsVector F (length fibre.now.planes.items) r.items) }
    ensures value { let F = K.elements alg.now.k in let L = K.lawful alg.now.k in
        IfOk result (λ r. AreVectorCoordinates L alg.now.f order.now fibre.now
        (vector_of F v.now) (vector_of F r.items)) }
{
    let plane = basis_numerator(alloc, alg, order, v)?;
    coordinates(alloc, alg, fibre, &plane)
}

/// The coordinates of the elements that the basis of the order's space stands for.
fn basis_coordinates<K: FiniteField<E = u32>>(
    alloc: Global,
    alg: &Alg<K>,
    order: &Order,
    fibre: &Fibre,
) -> Result<Vec<Vec<u32>>, NoMemory>
    requires order { IsOrder (K.lawful alg.now.k) alg.now.f order.now }
    requires fibre { HasBasisForm (K.lawful alg.now.k) alg.now.f fibre.now }
    ensures count { IfOk result (λ r. length r.items ≡ length order.now.space.basis) }
    ensures vectors { let F = K.elements alg.now.k in
        IfOk result (λ r. AreVectors F (length fibre.now.planes.items) r.items) }
    ensures value { let F = K.elements alg.now.k in let L = K.lawful alg.now.k in
        IfOk result (λ r. (i : ℕ) → i < length order.now.space.basis →
        AreVectorCoordinates L alg.now.f order.now fibre.now
        (vectors_of F order.now.space.basis i) (vectors_of F (rows_of r.items) i)) }
{
    let mut list = Vec::new(alloc);
    for v in order.space.basis() {
        list.push(vector_coordinates(alloc, alg, order, fibre, v)?)?;
    }
    Ok(list)
}

/// The characters of the algebra.
fn characters_of<K: FiniteField<E = u32>>(
    alloc: Global,
    alg: &Alg<K>,
    order: &Order,
    fibre: &Fibre,
    equation: &Plane,
) -> Result<Vec<Vec<u32>>, NoMemory>
    requires order { IsOrder (K.lawful alg.now.k) alg.now.f order.now }
    requires fibre { HasFibreForm (K.lawful alg.now.k) alg.now.f fibre.now }
    requires equation { IsPlane (K.elements alg.now.k) equation.now }
    requires equation_is { let F = K.elements alg.now.k in let L = K.lawful alg.now.k in
        plane_of F equation.now ≡ (chart_of L alg.now.f order.now.chart).equation }
    ensures { let L = K.lawful alg.now.k in
        IfOk result (λ r. AreCharactersOf L alg.now.f order.now fibre.now r.items) }
{
    let one = power_coordinates(alloc, alg, order, fibre, equation, 0)?;
    let whole = Space::kernel(alloc, &alg.k, one.len(), &[])?;
    characters(alloc, &alg.k, &fibre.table, &one, &whole)
}

/// The products of vectors and one vector.
fn products<K: FiniteField<E = u32>>(
    alloc: Global,
    k: &K,
    vectors: &[Vec<u32>],
    chi: &[u32],
) -> Result<Vec<u32>, NoMemory>
    requires vectors { AreVectors (K.elements k.now) (length chi.now) vectors.now }
    requires chi { All (IsElement (K.elements k.now)) chi.now }
    ensures vector { IfOk result (λ r. IsVector (K.elements k.now) (length vectors.now) r.items) }
    ensures value { let F = K.elements k.now in
        IfOk result (λ r. (i : ℕ) → i < length vectors.now → vector_of F r.items i ≡
        product F.ring (length chi.now) (vectors_of F (rows_of vectors.now) i)
        (vector_of F chi.now)) }
{
    let mut products = Vec::with_capacity(alloc, vectors.len())?;
    for v in vectors {
        products.push(dot(k, v, chi))?;
    }
    Ok(products)
}

/// The point over a with a character, by the coordinates of theta and of the basis.
fn point_of<K: FiniteField<E = u32>>(
    alloc: Global,
    k: &K,
    order: &Order,
    a: u32,
    theta: &[u32],
    basis: &[Vec<u32>],
    chi: &[u32],
) -> Result<Point, NoMemory>
    requires a { IsElement (K.elements k.now) a }
    requires at_infinity { let F = K.elements k.now in
        order.now.chart ≡ Infinite → F.value a ≡ F.zero }
    requires theta { IsVector (K.elements k.now) (length chi.now) theta.now }
    requires basis { AreVectors (K.elements k.now) (length chi.now) basis.now }
    requires count { length basis.now ≡ length order.now.space.basis }
    requires chi { All (IsElement (K.elements k.now)) chi.now }
    ensures { let F = K.elements k.now in IfOk result
        (IsPointBy F order.now a theta.now (rows_of basis.now) chi.now) }
{
    let items = products(alloc, k, basis, chi)?;
    Ok(Point {
        chart: order.chart,
        a,
        theta: dot(k, theta, chi),
        values: NumberList { items },
    })
}

/// Puts the points over a with the characters into a list.
fn insert_points<K: FiniteField<E = u32>>(
    alloc: Global,
    k: &K,
    order: &Order,
    a: u32,
    theta: &[u32],
    basis: &[Vec<u32>],
    characters: &[Vec<u32>],
    list: &mut Vec<Point>,
) -> Result<(), NoMemory>
    requires a { IsElement (K.elements k.now) a }
    requires at_infinity { let F = K.elements k.now in
        order.now.chart ≡ Infinite → F.value a ≡ F.zero }
    requires theta { All (IsElement (K.elements k.now)) theta.now }
    requires basis { AreVectors (K.elements k.now) (length theta.now) basis.now }
    requires count { length basis.now ≡ length order.now.space.basis }
    requires characters { AreVectors (K.elements k.now) (length theta.now) characters.now }
    requires list { All (HasPointForm (K.elements k.now) order.now) list.old.items }
    requires rising { AreRising (K.elements k.now) list.old.items }
    ensures { let F = K.elements k.now in OnOk result (AreWithCharacters F order.now a theta.now
        (rows_of basis.now) (rows_of characters.now) (length characters.now) list.old.items
        list.new.items) }
{
    for chi in characters {
        let p = point_of(alloc, k, order, a, theta, basis, chi)?;
        insert(k, list, p)?;
    }
    Ok(())
}

/// Puts the points over a into a list.
pub(crate) fn insert_points_at<K: FiniteField<E = u32>>(
    alloc: Global,
    alg: &Alg<K>,
    order: &Order,
    a: u32,
    fibre: &Fibre,
    equation: &Plane,
    list: &mut Vec<Point>,
) -> Result<(), NoMemory>
    requires order { IsOrder (K.lawful alg.now.k) alg.now.f order.now }
    requires a { IsElement (K.elements alg.now.k) a }
    requires at_infinity { let F = K.elements alg.now.k in
        order.now.chart ≡ Infinite → F.value a ≡ F.zero }
    requires fibre { HasFibreForm (K.lawful alg.now.k) alg.now.f fibre.now }
    requires fibre_is { let F = K.elements alg.now.k in let L = K.lawful alg.now.k in
        IsFibreAt L alg.now.f order.now (F.value a) fibre.now }
    requires equation { IsPlane (K.elements alg.now.k) equation.now }
    requires equation_is { let F = K.elements alg.now.k in let L = K.lawful alg.now.k in
        plane_of F equation.now ≡ (chart_of L alg.now.f order.now.chart).equation }
    requires list { let L = K.lawful alg.now.k in
        AreRisingPoints L alg.now.f order.now list.old.items }
    ensures list { let L = K.lawful alg.now.k in
        OnOk result (AreRisingPoints L alg.now.f order.now list.new.items) }
    ensures kept { OnOk result (AreAmong list.old.items list.new.items) }
    ensures over { let L = K.lawful alg.now.k in
        OnOk result (HasPointsOver L alg.now.f order.now a list.new.items) }
{
    let theta = power_coordinates(alloc, alg, order, fibre, equation, 1)?;
    let basis = basis_coordinates(alloc, alg, order, fibre)?;
    let characters = characters_of(alloc, alg, order, fibre, equation)?;
    insert_points(alloc, &alg.k, order, a, &theta, &basis, &characters, list)
}
