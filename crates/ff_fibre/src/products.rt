// The table of the products of a basis of an order modulo u - a.
ghost use Rattle.std.specs.Prelude.{◌≡◌, ◌<◌, ◌≤◌, length, IfOk};
ghost use Rattle.std.specs.List.{All};
ghost use Rattle.ff_theory.specs.Ring.{IsElement};
ghost use Rattle.ff_theory.specs.Values.{plane_of, IsPlane};
ghost use Rattle.ff_theory.specs.Vector.{vector_of, IsVector};
ghost use Rattle.ff_lin.specs.Space.{rows_of};
ghost use Rattle.ff_characters.specs.Characters.{tables_of, IsMatrix, IsTable};
ghost use Rattle.ff_data.specs.Orders.{chart_of, y_degree, IsOrder};
ghost use Rattle.ff_data.specs.Vectors.{IsPlaneWithin};
ghost use Rattle.ff_fibre.specs.Fibres.{HasBasisForm, HasFibreForm, IsProductOver, IsEntryOf};
ghost use Rattle.ff_fibre.specs.Fibres.{AreRowEntries, AreEntries, IsFibreAt, with_table};

use crate::parts::{Fibre, basis_at};
use crate::readings::coordinates;
use ff_alg::{FiniteField, NoMemory};
use ff_data::{Order, chart_equation, quotients_by};
use ff_elem::Alg;
use ff_lattice::product;
use ff_poly::Plane;
use std::alloc::Global;

/// The numerator over d of the product of two elements of the order with the numerators a and b.
fn product_numerator<K: FiniteField<E = u32>>(
    alloc: Global,
    alg: &Alg<K>,
    order: &Order,
    equation: &Plane,
    a: &Plane,
    b: &Plane,
) -> Result<Plane, NoMemory>
    requires order { IsOrder (K.lawful alg.now.k) alg.now.f order.now }
    requires equation { IsPlane (K.elements alg.now.k) equation.now }
    requires equation_is { let F = K.elements alg.now.k in let L = K.lawful alg.now.k in
        plane_of F equation.now ≡ (chart_of L alg.now.f order.now.chart).equation }
    requires a { IsPlane (K.elements alg.now.k) a.now }
    requires b { IsPlane (K.elements alg.now.k) b.now }
    ensures plane { let F = K.elements alg.now.k in let L = K.lawful alg.now.k in
        IfOk result (IsPlaneWithin F (y_degree L alg.now.f)) }
    ensures value { let F = K.elements alg.now.k in let L = K.lawful alg.now.k in
        IfOk result (λ r. IsProductOver L alg.now.f order.now (plane_of F a.now)
        (plane_of F b.now) (plane_of F r)) }
{
    let square = product(alloc, &alg.k, a, b, equation)?;
    quotients_by(alloc, &alg.k, &square, &order.d)
}

/// The coordinates of the product of the elements i and j of the basis.
fn product_coordinates<K: FiniteField<E = u32>>(
    alloc: Global,
    alg: &Alg<K>,
    order: &Order,
    fibre: &Fibre,
    equation: &Plane,
    i: usize,
    j: usize,
) -> Result<Vec<u32>, NoMemory>
    requires order { IsOrder (K.lawful alg.now.k) alg.now.f order.now }
    requires fibre { HasBasisForm (K.lawful alg.now.k) alg.now.f fibre.now }
    requires equation { IsPlane (K.elements alg.now.k) equation.now }
    requires equation_is { let F = K.elements alg.now.k in let L = K.lawful alg.now.k in
        plane_of F equation.now ≡ (chart_of L alg.now.f order.now.chart).equation }
    requires i { i < length fibre.now.planes.items }
    requires j { j < length fibre.now.planes.items }
    ensures vector { let F = K.elements alg.now.k in
        IfOk result (λ r. IsVector F (length fibre.now.planes.items) r.items) }
    ensures value { let F = K.elements alg.now.k in let L = K.lawful alg.now.k in
        IfOk result (λ r. IsEntryOf L alg.now.f order.now fibre.now i j (vector_of F r.items)) }
{
    let (a, b) = (&fibre.planes[i], &fibre.planes[j]);
    let plane = product_numerator(alloc, alg, order, equation, a, b)?;
    coordinates(alloc, alg, fibre, &plane)
}

/// Row j of matrix i of the table, whose first i matrices are given.
fn entry<K: FiniteField<E = u32>>(
    alloc: Global,
    alg: &Alg<K>,
    order: &Order,
    fibre: &Fibre,
    equation: &Plane,
    table: &[Vec<Vec<u32>>],
    j: usize,
) -> Result<Vec<u32>, NoMemory>
    requires order { IsOrder (K.lawful alg.now.k) alg.now.f order.now }
    requires fibre { HasBasisForm (K.lawful alg.now.k) alg.now.f fibre.now }
    requires equation { IsPlane (K.elements alg.now.k) equation.now }
    requires equation_is { let F = K.elements alg.now.k in let L = K.lawful alg.now.k in
        plane_of F equation.now ≡ (chart_of L alg.now.f order.now.chart).equation }
    requires table { let F = K.elements alg.now.k in
        All (IsMatrix F (length fibre.now.planes.items)) table.now }
    requires entries { let L = K.lawful alg.now.k in
        AreEntries L alg.now.f order.now fibre.now (tables_of table.now) (length table.now) }
    requires i { length table.now < length fibre.now.planes.items }
    requires j { j < length fibre.now.planes.items }
    ensures vector { let F = K.elements alg.now.k in
        IfOk result (λ r. IsVector F (length fibre.now.planes.items) r.items) }
    ensures value { let F = K.elements alg.now.k in let L = K.lawful alg.now.k in
        IfOk result (λ r. IsEntryOf L alg.now.f order.now fibre.now (length table.now) j
        (vector_of F r.items)) }
{
    let i = table.len();
    if j < i {
        return Ok(Vec::from_slice(alloc, &table[j][i])?);
    }
    product_coordinates(alloc, alg, order, fibre, equation, i, j)
}

/// The matrix of the table that comes after the given ones.
fn next_matrix<K: FiniteField<E = u32>>(
    alloc: Global,
    alg: &Alg<K>,
    order: &Order,
    fibre: &Fibre,
    equation: &Plane,
    table: &[Vec<Vec<u32>>],
) -> Result<Vec<Vec<u32>>, NoMemory>
    requires order { IsOrder (K.lawful alg.now.k) alg.now.f order.now }
    requires fibre { HasBasisForm (K.lawful alg.now.k) alg.now.f fibre.now }
    requires equation { IsPlane (K.elements alg.now.k) equation.now }
    requires equation_is { let F = K.elements alg.now.k in let L = K.lawful alg.now.k in
        plane_of F equation.now ≡ (chart_of L alg.now.f order.now.chart).equation }
    requires table { let F = K.elements alg.now.k in
        All (IsMatrix F (length fibre.now.planes.items)) table.now }
    requires entries { let L = K.lawful alg.now.k in
        AreEntries L alg.now.f order.now fibre.now (tables_of table.now) (length table.now) }
    requires i { length table.now < length fibre.now.planes.items }
    ensures matrix { let F = K.elements alg.now.k in
        IfOk result (IsMatrix F (length fibre.now.planes.items)) }
    ensures value { let L = K.lawful alg.now.k in IfOk result (λ r. AreRowEntries L alg.now.f
        order.now fibre.now (length table.now) (rows_of r.items) (length r.items)) }
{
    let n = fibre.planes.len();
    let mut matrix = Vec::with_capacity(alloc, n)?;
    for j in 0..n {
        matrix.push(entry(alloc, alg, order, fibre, equation, table, j)?)?;
    }
    Ok(matrix)
}

/// The table of the products of the basis.
fn table_of<K: FiniteField<E = u32>>(
    alloc: Global,
    alg: &Alg<K>,
    order: &Order,
    fibre: &Fibre,
    equation: &Plane,
) -> Result<Vec<Vec<Vec<u32>>>, NoMemory>
    requires order { IsOrder (K.lawful alg.now.k) alg.now.f order.now }
    requires fibre { HasBasisForm (K.lawful alg.now.k) alg.now.f fibre.now }
    requires equation { IsPlane (K.elements alg.now.k) equation.now }
    requires equation_is { let F = K.elements alg.now.k in let L = K.lawful alg.now.k in
        plane_of F equation.now ≡ (chart_of L alg.now.f order.now.chart).equation }
    ensures table { let F = K.elements alg.now.k in
        IfOk result (λ r. IsTable F (length fibre.now.planes.items) r.items) }
    ensures value { let L = K.lawful alg.now.k in IfOk result (λ r. AreEntries L alg.now.f
        order.now fibre.now (tables_of r.items) (length r.items)) }
{
    let n = fibre.planes.len();
    let mut table = Vec::with_capacity(alloc, n)?;
    for _i in 0..n {
        table.push(next_matrix(alloc, alg, order, fibre, equation, &table)?)?;
    }
    Ok(table)
}

/// The algebra with another table.
fn with_table(fibre: Fibre, table: Vec<Vec<Vec<u32>>>) -> Fibre
    ensures { result ≡ with_table fibre table }
{
    Fibre {
        modulus: fibre.modulus,
        space: fibre.space,
        planes: fibre.planes,
        rows: fibre.rows,
        table,
    }
}

/// The algebra O/(u-a)O of an order O, where u is the variable of the order's chart. `NoMemory` is
/// the only error. This project's own.
pub fn fibre_at<K: FiniteField<E = u32>>(
    alloc: Global,
    alg: &Alg<K>,
    order: &Order,
    a: u32,
) -> Result<Fibre, NoMemory>
    requires order { IsOrder (K.lawful alg.now.k) alg.now.f order.now }
    requires a { IsElement (K.elements alg.now.k) a }
    ensures form { let L = K.lawful alg.now.k in IfOk result (HasFibreForm L alg.now.f) }
    ensures fibre { let F = K.elements alg.now.k in let L = K.lawful alg.now.k in
        IfOk result (IsFibreAt L alg.now.f order.now (F.value a)) }
{
    let equation = chart_equation(alloc, alg, order.chart)?;
    let basis = basis_at(alloc, alg, order, a)?;
    let table = table_of(alloc, alg, order, &basis, &equation)?;
    Ok(with_table(basis, table))
}
