// An element of an order that its point's kernel carries into the multiples of u - a.
ghost use Rattle.std.specs.Prelude.{◌≡◌, ℕ, ◌<◌, ◌≤◌, length, IfOk};
ghost use Rattle.std.specs.List.{All};
ghost use Rattle.ff_theory.specs.Ring.{IsElement};
ghost use Rattle.ff_theory.specs.Vector.{vector_of, vectors_of, IsVector};
ghost use Rattle.ff_theory.specs.Values.{IsPlane};
ghost use Rattle.ff_lin.specs.Space.{rows_of, AreVectors, IsSpaceOf};
ghost use Rattle.ff_characters.specs.Characters.{IsTable, tables_of};
ghost use Rattle.ff_data.specs.Orders.{y_degree, IsOrder};
ghost use Rattle.ff_forms.specs.Forms.{HasPointForm};
ghost use Rattle.ff_fibre.specs.Fibres.{HasFibreForm, IsFibreAt};
ghost use Rattle.ff_frac.specs.Places.{IsMaximalPlace, IsPoleNumerator, first_modulus};
ghost use Rattle.ff_frac.specs.Socle.{shifted_value, IsSocleRow, AreSocleRows, IsSocleSpace};
ghost use Rattle.ff_frac.specs.Socle.{IsCombinedPlane, IsFirstPlane};

use crate::values::values;
use ff_alg::{FiniteField, NoMemory, sub};
use ff_data::{Order, Point, combination};
use ff_elem::Alg;
use ff_fibre::Fibre;
use ff_lattice::plane_of_vector;
use ff_lin::Space;
use ff_poly::Plane;
use std::alloc::Global;

/// Entry l of a row, less `chi` where the row is that of element l.
fn shifted<K: FiniteField<E = u32>>(k: &K, row: &[u32], chi: u32, is_own: bool, l: usize) -> u32
    requires row { All (IsElement (K.elements k.now)) row.now }
    requires chi { IsElement (K.elements k.now) chi }
    requires index { l < length row.now }
    ensures element { IsElement (K.elements k.now) result }
    ensures value { let F = K.elements k.now in
        F.value result ≡ shifted_value F (vector_of F row.now l) (F.value chi) is_own }
{
    if is_own { sub(k, row[l], chi) } else { row[l] }
}

/// Coordinate l of the product of element j and of the element with this matrix, less `chi` where
/// that is element l.
fn shifted_entry<K: FiniteField<E = u32>>(
    k: &K,
    matrix: &[Vec<u32>],
    chi: u32,
    is_own: bool,
    j: usize,
    l: usize,
) -> u32
    requires matrix { AreVectors (K.elements k.now) (length matrix.now) matrix.now }
    requires chi { IsElement (K.elements k.now) chi }
    requires row { j < length matrix.now }
    requires index { l < length matrix.now }
    ensures element { IsElement (K.elements k.now) result }
    ensures value { let F = K.elements k.now in F.value result ≡
        shifted_value F (vectors_of F (rows_of matrix.now) j l) (F.value chi) is_own }
{
    shifted(k, &matrix[j], chi, is_own, l)
}

/// Coordinate l of the product of each element of a basis and of element j less its value `chi`.
fn shifted_row<K: FiniteField<E = u32>>(
    alloc: Global,
    k: &K,
    table: &[Vec<Vec<u32>>],
    chi: u32,
    j: usize,
    l: usize,
) -> Result<Vec<u32>, NoMemory>
    requires table { IsTable (K.elements k.now) (length table.now) table.now }
    requires chi { IsElement (K.elements k.now) chi }
    requires row { j < length table.now }
    requires index { l < length table.now }
    ensures vector { IfOk result (λ r. IsVector (K.elements k.now) (length table.now) r.items) }
    ensures value { let F = K.elements k.now in IfOk result (λ r. IsSocleRow F (length table.now)
        (tables_of table.now) (F.value chi) j l (vector_of F r.items)) }
{
    let mut row = Vec::with_capacity(alloc, table.len())?;
    for i in 0..table.len() {
        row.push(shifted_entry(k, &table[i], chi, i == l, j, l))?;
    }
    Ok(row)
}

/// The rows, and those of all coordinates of the products of the elements of a basis and of element
/// j less its value.
fn with_rows<K: FiniteField<E = u32>>(
    alloc: Global,
    k: &K,
    table: &[Vec<Vec<u32>>],
    chi: &[u32],
    j: usize,
    rows: Vec<Vec<u32>>,
) -> Result<Vec<Vec<u32>>, NoMemory>
    requires table { IsTable (K.elements k.now) (length table.now) table.now }
    requires chi { IsVector (K.elements k.now) (length table.now) chi.now }
    requires row { j < length table.now }
    requires rows { AreVectors (K.elements k.now) (length table.now) rows.items }
    requires value { let F = K.elements k.now in AreSocleRows F (length table.now)
        (tables_of table.now) (vector_of F chi.now) j 0 (rows_of rows.items) }
    ensures vectors { IfOk result (λ r. AreVectors (K.elements k.now) (length table.now) r.items) }
    ensures value { let F = K.elements k.now in
        IfOk result (λ r. AreSocleRows F (length table.now) (tables_of table.now)
        (vector_of F chi.now) j (length table.now) (rows_of r.items)) }
{
    let mut rows = rows;
    for l in 0..table.len() {
        rows.push(shifted_row(alloc, k, table, chi[j], j, l)?)?;
    }
    Ok(rows)
}

/// The rows of all coordinates of the products of the elements of a basis and of each of them less
/// its value.
fn shifted_rows<K: FiniteField<E = u32>>(
    alloc: Global,
    k: &K,
    table: &[Vec<Vec<u32>>],
    chi: &[u32],
) -> Result<Vec<Vec<u32>>, NoMemory>
    requires table { IsTable (K.elements k.now) (length table.now) table.now }
    requires chi { IsVector (K.elements k.now) (length table.now) chi.now }
    ensures vectors { IfOk result (λ r. AreVectors (K.elements k.now) (length table.now) r.items) }
    ensures value { let F = K.elements k.now in
        IfOk result (λ r. AreSocleRows F (length table.now) (tables_of table.now)
        (vector_of F chi.now) (length table.now) 0 (rows_of r.items)) }
{
    let mut rows = Vec::new(alloc);
    for j in 0..chi.len() {
        rows = with_rows(alloc, k, table, chi, j, rows)?;
    }
    Ok(rows)
}

/// The coordinates of the elements whose products with all elements of value 0 are 0, by the table
/// of the products of a basis and the values of its elements.
fn socle_space<K: FiniteField<E = u32>>(
    alloc: Global,
    k: &K,
    table: &[Vec<Vec<u32>>],
    chi: &[u32],
) -> Result<Space, NoMemory>
    requires table { IsTable (K.elements k.now) (length table.now) table.now }
    requires chi { IsVector (K.elements k.now) (length table.now) chi.now }
    ensures space { IfOk result (IsSpaceOf (K.elements k.now) (length table.now)) }
    ensures exact { let F = K.elements k.now in IfOk result (λ s. IsSocleSpace F
        (length table.now) (tables_of table.now) (vector_of F chi.now) s) }
{
    let rows = shifted_rows(alloc, k, table, chi)?;
    Space::kernel(alloc, k, table.len(), &rows)
}

/// The numerator with the coordinates.
fn plane_with<K: FiniteField<E = u32>>(
    alloc: Global,
    alg: &Alg<K>,
    fibre: &Fibre,
    c: &[u32],
) -> Result<Plane, NoMemory>
    requires fibre { HasFibreForm (K.lawful alg.now.k) alg.now.f fibre.now }
    requires c { IsVector (K.elements alg.now.k) (length fibre.now.table.items) c.now }
    ensures plane { IfOk result (IsPlane (K.elements alg.now.k)) }
    ensures few { let L = K.lawful alg.now.k in
        IfOk result (λ r. length r ≤ y_degree L alg.now.f) }
    ensures value { let F = K.elements alg.now.k in let L = K.lawful alg.now.k in
        IfOk result (IsCombinedPlane L alg.now.f fibre.now (vector_of F c.now)) }
{
    let l = fibre.modulus.coeffs().len() - 1;
    let v = combination(alloc, &alg.k, fibre.space.len(), c, &fibre.rows)?;
    let plane = plane_of_vector(alloc, &alg.k, &v, alg.f.rows().len() - 1, l)?;
    Ok(plane)
}

/// The numerator with the coordinates that the first vector of a space has, and 0 where there is
/// none.
fn first_plane<K: FiniteField<E = u32>>(
    alloc: Global,
    alg: &Alg<K>,
    fibre: &Fibre,
    space: &Space,
) -> Result<Plane, NoMemory>
    requires fibre { HasFibreForm (K.lawful alg.now.k) alg.now.f fibre.now }
    requires space { let F = K.elements alg.now.k in
        IsSpaceOf F (length fibre.now.table.items) space.now }
    ensures plane { IfOk result (IsPlane (K.elements alg.now.k)) }
    ensures few { let L = K.lawful alg.now.k in
        IfOk result (λ r. length r ≤ y_degree L alg.now.f) }
    ensures value { let L = K.lawful alg.now.k in 0 < length space.now.basis →
        IfOk result (IsFirstPlane L alg.now.f fibre.now space.now) }
{
    let basis = space.basis();
    if basis.len() == 0 {
        return Ok(Plane::from_vec(&alg.k, Vec::new(alloc)));
    }
    plane_with(alloc, alg, fibre, &basis[0])
}

/// The numerator over d of an element of the order, not a multiple of u - a, whose products with
/// all elements of value 0 are.
pub(crate) fn socle<K: FiniteField<E = u32>>(
    alloc: Global,
    alg: &Alg<K>,
    order: &Order,
    point: &Point,
    fibre: &Fibre,
) -> Result<Plane, NoMemory>
    requires order { IsOrder (K.lawful alg.now.k) alg.now.f order.now }
    requires point { HasPointForm (K.elements alg.now.k) order.now point.now }
    requires form { HasFibreForm (K.lawful alg.now.k) alg.now.f fibre.now }
    requires fibre { let F = K.elements alg.now.k in let L = K.lawful alg.now.k in
        IsFibreAt L alg.now.f order.now (F.value point.now.a) fibre.now }
    ensures plane { IfOk result (IsPlane (K.elements alg.now.k)) }
    ensures few { let L = K.lawful alg.now.k in
        IfOk result (λ r. length r ≤ y_degree L alg.now.f) }
    ensures value { let L = K.lawful alg.now.k in let f = alg.now.f in
        IsMaximalPlace L f order.now point.now → IfOk result (IsPoleNumerator L f order.now
        point.now 1 (first_modulus L f order.now point.now)) }
{
    let chi = values(alloc, alg, order, point, &fibre.planes)?;
    let space = socle_space(alloc, &alg.k, &fibre.table, &chi)?;
    first_plane(alloc, alg, fibre, &space)
}
