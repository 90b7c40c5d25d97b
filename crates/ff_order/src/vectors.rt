// The vectors of residues modulo d.
ghost use Rattle.std.specs.Prelude.{◌≡◌, ℕ, ◌*◌, pred, length, IfOk};
ghost use Rattle.ff_theory.specs.Vector.{vector_of, IsVector};
ghost use Rattle.ff_theory.specs.Values.{plane_of, IsPlane};
ghost use Rattle.ff_charts.specs.Lattice.{flat};
ghost use Rattle.ff_data.specs.Orders.{y_degree};
ghost use Rattle.ff_order.specs.Rows.{IsChartRows};
ghost use Rattle.ff_order.specs.Steps.{HasResidueShape, row_len};
ghost use Rattle.ff_order.specs.Closing.{IsPlaneOf};

use crate::chart::ChartRows;
use ff_alg::{FiniteField, NoMemory};
use ff_data::Chart;
use ff_elem::Alg;
use ff_lattice::{plane_of_vector, vector_of_plane};
use ff_poly::Plane;
use std::alloc::Global;

/// The vector of a residue modulo d.
pub(crate) fn residue_vector<K: FiniteField<E = u32>>(
    alloc: Global,
    alg: &Alg<K>,
    chart: Chart,
    rows: &ChartRows,
    residue: &Plane,
) -> Result<Vec<u32>, NoMemory>
    requires rows { let L = K.lawful alg.now.k in IsChartRows L alg.now.f chart rows.now }
    requires plane { IsPlane (K.elements alg.now.k) residue.now }
    requires shape { let F = K.elements alg.now.k in let L = K.lawful alg.now.k in
        HasResidueShape L alg.now.f chart rows.now.d (plane_of F residue.now) }
    ensures vector { let F = K.elements alg.now.k in let L = K.lawful alg.now.k in
        let n = y_degree L alg.now.f * pred (length rows.now.d) in
        IfOk result (λ v. IsVector F n v.items) }
    ensures value { let F = K.elements alg.now.k in
        IfOk result (λ v. (j : ℕ) → vector_of F v.items j ≡
        flat F.ring (pred (length rows.now.d)) (plane_of F residue.now) j) }
{
    let _chart = chart;
    let n = alg.f.rows().len() - 1;
    let l = rows.d.coeffs().len() - 1;
    vector_of_plane(alloc, &alg.k, residue, n, l)
}

/// The residue modulo d with the vector.
pub(crate) fn residue_plane<K: FiniteField<E = u32>>(
    alloc: Global,
    alg: &Alg<K>,
    chart: Chart,
    rows: &ChartRows,
    v: &[u32],
) -> Result<Plane, NoMemory>
    requires rows { let L = K.lawful alg.now.k in IsChartRows L alg.now.f chart rows.now }
    requires v { let F = K.elements alg.now.k in let L = K.lawful alg.now.k in
        IsVector F (y_degree L alg.now.f * pred (length rows.now.d)) v.now }
    ensures { let F = K.elements alg.now.k in let L = K.lawful alg.now.k in IfOk result (λ r.
        IsPlaneOf L alg.now.f chart rows.now.d (vector_of F v.now) r) }
{
    let _chart = chart;
    let n = alg.f.rows().len() - 1;
    let l = rows.d.coeffs().len() - 1;
    plane_of_vector(alloc, &alg.k, v, n, l)
}
