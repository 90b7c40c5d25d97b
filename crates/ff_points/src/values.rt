// Roots of the equation of a chart over an element of the field.
ghost use Rattle.std.specs.Prelude.{◌≡◌, ℕ, IsTrue, IfOk, map};
ghost use Rattle.std.specs.List.{All};
ghost use Rattle.ff_theory.specs.Ring.{IsElement};
ghost use Rattle.ff_theory.specs.Eval.{eval_list};
ghost use Rattle.ff_theory.specs.Values.{ArePolys};
ghost use Rattle.ff_points.specs.PointLists.{IsRootOver};

use ff_alg::{FiniteField, NoMemory, is_zero};
use ff_poly::Poly;
use std::alloc::Global;

/// The polynomial with the coefficients at a.
fn evaluate<K: FiniteField<E = u32>>(k: &K, coeffs: &[u32], a: u32) -> u32
    requires coeffs { All (IsElement (K.elements k.now)) coeffs.now }
    requires a { IsElement (K.elements k.now) a }
    ensures element { IsElement (K.elements k.now) result }
    ensures value { let F = K.elements k.now in
        F.value result ≡ eval_list F.ring F.value (F.value a) coeffs.now }
{
    let mut value = k.zero();
    let mut i = coeffs.len();
    while i > 0 {
        i -= 1;
        value = k.add(coeffs[i], k.mul(a, value));
    }
    value
}

/// The values of the rows at a.
fn values_at<K: FiniteField<E = u32>>(
    alloc: Global,
    k: &K,
    rows: &[Poly],
    a: u32,
) -> Result<Vec<u32>, NoMemory>
    requires rows { ArePolys (K.elements k.now) rows.now }
    requires a { IsElement (K.elements k.now) a }
    ensures each { IfOk result (λ r. All (IsElement (K.elements k.now)) r.items) }
    ensures value { let F = K.elements k.now in IfOk result (λ r.
        map F.value r.items ≡ map (eval_list F.ring F.value (F.value a)) rows.now) }
{
    let mut values = Vec::with_capacity(alloc, rows.len())?;
    for p in rows {
        values.push(evaluate(k, p.coeffs(), a))?;
    }
    Ok(values)
}

/// Whether the polynomial with the coefficients has a root in the field.
fn has_root<K: FiniteField<E = u32>>(k: &K, coeffs: &[u32]) -> bool
    requires { All (IsElement (K.elements k.now)) coeffs.now }
    ensures { let F = K.elements k.now in (t : F.carrier) →
        eval_list F.ring F.value t coeffs.now ≡ F.zero → IsTrue result }
{
    for i in 0..k.count() {
        if is_zero(k, evaluate(k, coeffs, k.nth(i))) {
            return true;
        }
    }
    false
}

/// Whether the polynomial in theta that the rows are at a has a root in the field.
pub(crate) fn has_root_over<K: FiniteField<E = u32>>(
    alloc: Global,
    k: &K,
    rows: &[Poly],
    a: u32,
) -> Result<bool, NoMemory>
    requires rows { ArePolys (K.elements k.now) rows.now }
    requires a { IsElement (K.elements k.now) a }
    ensures { let F = K.elements k.now in IfOk result (λ r. (t : ℕ) →
        IsRootOver F rows.now a t → IsTrue r) }
{
    let coeffs = values_at(alloc, k, rows, a)?;
    Ok(has_root(k, &coeffs))
}
