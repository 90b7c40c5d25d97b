// One turn of the descent: the residues whose p-th power is, modulo d^p, d^(p-1) times a residue.
ghost use Rattle.std.specs.Prelude.{◌≡◌, ◌*◌, pred, length, IfOk};
ghost use Rattle.ff_theory.specs.Values.{poly_of};
ghost use Rattle.ff_theory.specs.Vector.{vector_of, IsVector};
ghost use Rattle.ff_lin.specs.Space.{rows_of, AreVectors, IsSpaceOf};
ghost use Rattle.ff_data.specs.Orders.{y_degree};
ghost use Rattle.ff_order.specs.Rows.{IsChartRows};
ghost use Rattle.ff_order.specs.Steps.{IsScaledRow, AreScaled, ArePowerImages, IsResidueSpace};
ghost use Rattle.ff_order.specs.Steps.{IsScaledSpace, AreCoefficients, IsTurn};

use crate::chart::ChartRows;
use crate::combine::semi_combinations;
use crate::images::{PowerImages, vector_len};
use ff_alg::{FiniteField, NoMemory};
use ff_data::{Chart, combinations};
use ff_elem::Alg;
use ff_lattice::{plane_of_vector, vector_of_plane};
use ff_lin::Space;
use std::alloc::Global;

/// The vector of the product of d^(p-1) and of the plane with the vector `v`.
fn scaled_row<K: FiniteField<E = u32>>(
    alloc: Global,
    alg: &Alg<K>,
    chart: Chart,
    rows: &ChartRows,
    powers: &PowerImages,
    v: &[u32],
) -> Result<Vec<u32>, NoMemory>
    requires rows { let L = K.lawful alg.now.k in IsChartRows L alg.now.f chart rows.now }
    requires powers { let L = K.lawful alg.now.k in
        ArePowerImages L alg.now.f chart rows.now.d powers.now }
    requires vector { let F = K.elements alg.now.k in let L = K.lawful alg.now.k in
        IsVector F (y_degree L alg.now.f * pred (length rows.now.d)) v.now }
    ensures vector { let F = K.elements alg.now.k in let L = K.lawful alg.now.k in
        let n = y_degree L alg.now.f * pred (length powers.now.top) in
        IfOk result (λ r. IsVector F n r.items) }
    ensures value { let F = K.elements alg.now.k in let L = K.lawful alg.now.k in
        let f = alg.now.f in IfOk result (λ r. IsScaledRow L f chart rows.now.d powers.now.top
        (poly_of F powers.now.below) (vector_of F v.now) (vector_of F r.items)) }
{
    let _chart = chart;
    let k = &alg.k;
    let n = alg.f.rows().len() - 1;
    let plane = plane_of_vector(alloc, k, v, n, rows.d.coeffs().len() - 1)?;
    let scaled = plane.scale(alloc, k, &powers.below)?;
    vector_of_plane(alloc, k, &scaled, n, powers.top.coeffs().len() - 1)
}

/// The vectors of the products of d^(p-1) and of the planes of the basis.
fn scaled_rows<K: FiniteField<E = u32>>(
    alloc: Global,
    alg: &Alg<K>,
    chart: Chart,
    rows: &ChartRows,
    powers: &PowerImages,
    basis: &[Vec<u32>],
) -> Result<Vec<Vec<u32>>, NoMemory>
    requires rows { let L = K.lawful alg.now.k in IsChartRows L alg.now.f chart rows.now }
    requires powers { let L = K.lawful alg.now.k in
        ArePowerImages L alg.now.f chart rows.now.d powers.now }
    requires basis { let F = K.elements alg.now.k in let L = K.lawful alg.now.k in
        AreVectors F (y_degree L alg.now.f * pred (length rows.now.d)) basis.now }
    ensures len { IfOk result (λ r. length r.items ≡ length basis.now) }
    ensures vectors { let F = K.elements alg.now.k in let L = K.lawful alg.now.k in
        let n = y_degree L alg.now.f * pred (length powers.now.top) in
        IfOk result (λ r. AreVectors F n r.items) }
    ensures value { let F = K.elements alg.now.k in let L = K.lawful alg.now.k in
        let f = alg.now.f in IfOk result (λ r. AreScaled L f chart rows.now.d powers.now.top
        (poly_of F powers.now.below) (rows_of basis.now) (rows_of r.items)) }
{
    let mut list = Vec::with_capacity(alloc, basis.len())?;
    for v in basis {
        list.push(scaled_row(alloc, alg, chart, rows, powers, v)?)?;
    }
    Ok(list)
}

/// The space of the products of d^(p-1) and of the planes of a space, as residues modulo d^p.
fn scaled_space<K: FiniteField<E = u32>>(
    alloc: Global,
    alg: &Alg<K>,
    chart: Chart,
    rows: &ChartRows,
    powers: &PowerImages,
    space: &Space,
) -> Result<Space, NoMemory>
    requires rows { let L = K.lawful alg.now.k in IsChartRows L alg.now.f chart rows.now }
    requires powers { let L = K.lawful alg.now.k in
        ArePowerImages L alg.now.f chart rows.now.d powers.now }
    requires space { let L = K.lawful alg.now.k in
        IsResidueSpace L alg.now.f chart rows.now.d space.now }
    ensures space { let F = K.elements alg.now.k in let L = K.lawful alg.now.k in
        IfOk result (IsSpaceOf F (y_degree L alg.now.f * pred (length powers.now.top))) }
    ensures value { let F = K.elements alg.now.k in let L = K.lawful alg.now.k in
        let f = alg.now.f in IfOk result (IsScaledSpace L f chart rows.now.d powers.now.top
        (poly_of F powers.now.below) space.now) }
{
    let width = vector_len(alg, &powers.top)?;
    let scaled = scaled_rows(alloc, alg, chart, rows, powers, space.basis())?;
    Space::span(alloc, &alg.k, width, &scaled)
}

/// The coefficients of the combinations of the basis whose p-th power is, modulo d^p, d^(p-1) times
/// a residue of the space.
fn coefficients<K: FiniteField<E = u32>>(
    alloc: Global,
    alg: &Alg<K>,
    chart: Chart,
    rows: &ChartRows,
    powers: &PowerImages,
    space: &Space,
) -> Result<Space, NoMemory>
    requires rows { let L = K.lawful alg.now.k in IsChartRows L alg.now.f chart rows.now }
    requires powers { let L = K.lawful alg.now.k in
        ArePowerImages L alg.now.f chart rows.now.d powers.now }
    requires space { let L = K.lawful alg.now.k in
        IsResidueSpace L alg.now.f chart rows.now.d space.now }
    ensures space { let F = K.elements alg.now.k in
        IfOk result (IsSpaceOf F (length space.now.basis)) }
    ensures exact { let L = K.lawful alg.now.k in
        IfOk result (AreCoefficients L alg.now.f chart rows.now.d powers.now space.now) }
{
    let target = scaled_space(alloc, alg, chart, rows, powers, space)?;
    let basis = space.basis();
    let images = semi_combinations(alloc, &alg.k, target.len(), &powers.images, basis)?;
    target.semi_preimage(alloc, &alg.k, &images)
}

/// The residues of the space whose p-th power is, modulo d^p, d^(p-1) times a residue of the space.
pub(crate) fn turn<K: FiniteField<E = u32>>(
    alloc: Global,
    alg: &Alg<K>,
    chart: Chart,
    rows: &ChartRows,
    powers: &PowerImages,
    space: &Space,
) -> Result<Space, NoMemory>
    requires rows { let L = K.lawful alg.now.k in IsChartRows L alg.now.f chart rows.now }
    requires powers { let L = K.lawful alg.now.k in
        ArePowerImages L alg.now.f chart rows.now.d powers.now }
    requires space { let L = K.lawful alg.now.k in
        IsResidueSpace L alg.now.f chart rows.now.d space.now }
    ensures space { let L = K.lawful alg.now.k in
        IfOk result (IsResidueSpace L alg.now.f chart rows.now.d) }
    ensures exact { let L = K.lawful alg.now.k in
        IfOk result (IsTurn L alg.now.f chart rows.now.d space.now) }
{
    let lists = coefficients(alloc, alg, chart, rows, powers, space)?;
    combinations(alloc, &alg.k, space.len(), lists.basis(), space.basis())
}
