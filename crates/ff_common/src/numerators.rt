// Elements from their coordinates in powers of y'.
ghost use Rattle.std.specs.Prelude.{◌≡◌, ℕ, ◌-◌, ◌<◌, ◌≤◌, length, IfOk};
ghost use Rattle.ff_theory.specs.Ring.{power};
ghost use Rattle.ff_theory.specs.Lawful.{lawful_field};
ghost use Rattle.ff_theory.specs.Poly.{coeff};
ghost use Rattle.ff_theory.specs.Values.{IsPoly, polys_over, polys_of, ArePolys, plane_of};
ghost use Rattle.ff_charts.specs.FieldCharts.{leading_row};
ghost use Rattle.ff_elem.specs.Elem.{elem_of, IsElem};
ghost use Rattle.ff_common.specs.Common.{IsOver};

use ff_alg::{FiniteField, NoMemory};
use ff_data::{leading, times_power};
use ff_elem::{Alg, Elem};
use ff_poly::{Plane, Poly};
use std::alloc::Global;

/// The rows times the powers of the leading row that are their indices.
fn rows_in_y<K: FiniteField<E = u32>>(
    alloc: Global,
    alg: &Alg<K>,
    rows: &[Poly],
) -> Result<Vec<Poly>, NoMemory>
    requires { ArePolys (K.elements alg.now.k) rows.now }
    ensures len { IfOk result (λ r. length r.items ≡ length rows.now) }
    ensures each { IfOk result (λ r. ArePolys (K.elements alg.now.k) r.items) }
    ensures value { let F = K.elements alg.now.k in let L = K.lawful alg.now.k in
        let P = polys_over F in IfOk result (λ r. (i : ℕ) → i < length rows.now →
        coeff P (polys_of F r.items) i ≡ P.mul (coeff P (polys_of F rows.now) i)
        (power P (leading_row (lawful_field L) (plane_of F alg.now.f)) i)) }
{
    let lead = leading(alg);
    let mut list = Vec::with_capacity(alloc, rows.len())?;
    for i in 0..rows.len() {
        list.push(times_power(alloc, &alg.k, &rows[i], lead, i)?)?;
    }
    Ok(list)
}

/// The rows, by powers of y', over a denominator in x, as an element. `NoMemory` is the only error.
pub fn element<K: FiniteField<E = u32>>(
    alloc: Global,
    alg: &Alg<K>,
    rows: &[Poly],
    den: &Poly,
) -> Result<Elem, NoMemory>
    requires rows { ArePolys (K.elements alg.now.k) rows.now }
    requires few { length rows.now ≤ length alg.now.f - 1 }
    requires den { IsPoly (K.elements alg.now.k) den.now }
    requires nonzero { 0 < length den.now }
    ensures element { let L = K.lawful alg.now.k in IfOk result (IsElem L alg.now.f) }
    ensures value { let F = K.elements alg.now.k in let L = K.lawful alg.now.k in
        let f = alg.now.f in
        IfOk result (λ r. IsOver L f den.now (plane_of F rows.now) (elem_of L f r)) }
{
    let num = Plane::from_vec(&alg.k, rows_in_y(alloc, alg, rows)?);
    alg.from_parts(alloc, &num, den)
}
