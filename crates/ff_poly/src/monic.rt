// The monic form of an equation.
ghost use Rattle.std.specs.Prelude.{◌≡◌, ℕ, ◌<◌, ◌≤◌, ◌+◌, ◌-◌, ◌*◌, ◌^◌, ◌↔◌};
ghost use Rattle.std.specs.Prelude.{cond, length, nat_eq, IfOk};
ghost use Rattle.ff_theory.specs.Ring.{power};
ghost use Rattle.ff_theory.specs.Values.{poly_of, IsPoly, polys_over};
ghost use Rattle.ff_theory.specs.Values.{plane_of, IsPlane, ArePolys, x_size};
ghost use Rattle.ff_theory.specs.Monic.{monic_form, rows_of};

use crate::limits::MAX_MONIC_DEGREE;
use crate::{Plane, Poly};
use ff_alg::{FiniteField, NoMemory};
use std::alloc::Global;

/// Why there is no monic form.
#[derive(Clone, Copy, PartialEq, Eq, Debug)]
pub enum FormFault {
    /// Its degree in x is `deg`, which is greater than `MAX_MONIC_DEGREE`.
    Wide { deg: usize },
    NoMemory,
}

impl From<NoMemory> for FormFault {
    ghost use Rattle.std.specs.Prelude.{◌≡◌};
    ghost use Rattle.ff_poly.specs.declared.monic.FormFault.{FormFault};

    ghost from_gives = { λ _ e. e ≡ FormFault.NoMemory };

    fn from(_fault: NoMemory) -> FormFault {
        FormFault::NoMemory
    }
}

impl Plane {
    /// The monic form: with n the degree in y and `a_i` the rows, row i is `a_i * a_n^(n-1-i)`
    /// below row n, which is 1.
    ///
    /// `Wide` comes exactly where its degree in x is greater than `MAX_MONIC_DEGREE`.
    pub fn monic_form<K: FiniteField<E = u32>>(
        &self,
        alloc: Global,
        k: &K,
    ) -> Result<Plane, FormFault>
        requires plane { IsPlane (K.elements k.now) self.now }
        requires has_y { 1 < length self.now }
        requires height { length self.now ≤ 2 ^ 31 }
        requires width { x_size self.now ≤ 2 ^ 31 }
        ensures plane { IfOk result (IsPlane (K.elements k.now)) }
        ensures value { let F = K.elements k.now in let P = polys_over F in
            IfOk result (λ r. plane_of F r ≡ monic_form P (plane_of F self.now)) }
        ensures wide { let F = K.elements k.now in let P = polys_over F in
            let width = x_size (rows_of F.ring (monic_form P (plane_of F self.now))) in
            (d : ℕ) → (result ≡ Err (FormFault.Wide d)) ↔
            ((MAX_MONIC_DEGREE < d) × (d + 1 ≡ width)) }
    {
        let deg = monic_degree(k, self.rows());
        if deg > MAX_MONIC_DEGREE {
            return Err(FormFault::Wide { deg });
        }
        let rows = monic_rows(alloc, k, self.rows())?;
        Ok(Plane::from_vec(k, rows))
    }
}

/// The degree in x of the monic form.
fn monic_degree<K: FiniteField<E = u32>>(k: &K, rows: &[Poly]) -> usize
    requires plane { IsPlane (K.elements k.now) rows.now }
    requires has_y { 1 < length rows.now }
    requires height { length rows.now ≤ 2 ^ 31 }
    requires width { x_size rows.now ≤ 2 ^ 31 }
    ensures { let F = K.elements k.now in let P = polys_over F in
        result + 1 ≡ x_size (rows_of F.ring (monic_form P (plane_of F rows.now))) }
{
    let _field = k;
    let n = rows.len() - 1;
    let lead = rows[n].coeffs().len() - 1;
    let mut degree = 0;
    for i in 0..n {
        degree = degree.max(row_degree(rows[i].coeffs().len(), n - 1 - i, lead));
    }
    degree
}

/// The degree of a row with `len` coefficients times a power of a polynomial of the degree `lead`;
/// 0 for a row without coefficients.
fn row_degree(len: usize, exponent: usize, lead: usize) -> usize
    requires len { len ≤ 2 ^ 31 }
    requires exponent { exponent < 2 ^ 31 }
    requires lead { lead < 2 ^ 31 }
    ensures { result ≡ cond (nat_eq len 0) 0 (len - 1 + exponent * lead) }
{
    if len == 0 {
        0
    } else {
        len - 1 + exponent * lead
    }
}

/// The rows of the monic form.
fn monic_rows<K: FiniteField<E = u32>>(
    alloc: Global,
    k: &K,
    rows: &[Poly],
) -> Result<Vec<Poly>, NoMemory>
    requires plane { IsPlane (K.elements k.now) rows.now }
    requires has_y { 1 < length rows.now }
    requires height { length rows.now ≤ 2 ^ 31 }
    ensures each { IfOk result (λ r. ArePolys (K.elements k.now) r.items) }
    ensures value { let F = K.elements k.now in let P = polys_over F in
        IfOk result (λ r. plane_of F r.items ≡ monic_form P (plane_of F rows.now)) }
{
    let n = rows.len() - 1;
    let mut form = Vec::with_capacity(alloc, rows.len())?;
    for i in 0..n {
        form.push(monic_row(alloc, k, &rows[i], &rows[n], (n - 1 - i) as u32)?)?;
    }
    form.push(Poly::one(alloc, k)?)?;
    Ok(form)
}

/// The product of a row and a power of the leading row.
fn monic_row<K: FiniteField<E = u32>>(
    alloc: Global,
    k: &K,
    row: &Poly,
    lead: &Poly,
    exponent: u32,
) -> Result<Poly, NoMemory>
    requires row { IsPoly (K.elements k.now) row.now }
    requires lead { IsPoly (K.elements k.now) lead.now }
    ensures poly { IfOk result (IsPoly (K.elements k.now)) }
    ensures value { let F = K.elements k.now in let P = polys_over F in
        IfOk result (λ r. poly_of F r ≡
        P.mul (poly_of F row.now) (power P (poly_of F lead.now) exponent)) }
{
    let factor = lead.power(alloc, k, exponent)?;
    row.mul(alloc, k, &factor)
}
