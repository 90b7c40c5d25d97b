// The residues at infinity of elements by their numerators.
ghost use Rattle.std.specs.Prelude.{◌≡◌, ℕ, ◌+◌, ◌*◌, ◌<◌, ◌≤◌, pred, length, IfOk};
ghost use Rattle.ff_theory.specs.Ring.{power};
ghost use Rattle.ff_theory.specs.Monomial.{variable};
ghost use Rattle.ff_theory.specs.Values.{IsPoly, polys_over};
ghost use Rattle.ff_theory.specs.Vector.{vector_of, IsVector};
ghost use Rattle.ff_data.specs.Orders.{y_degree, slope_of};
ghost use Rattle.ff_common.specs.Common.{IsImage, IsTimesVector};
ghost use Rattle.ff_functions.specs.Images.{IsShortOver};

use ff_alg::{FiniteField, NoMemory};
use ff_common::{quotient_rows, reversed_vector, times_vector};
use ff_data::{raise, variable_power};
use ff_elem::Alg;
use ff_poly::Poly;
use std::alloc::Global;

/// The vector of the residue modulo t^h of t^h times the element with a numerator over d, whose
/// vector v has rows of `l` coefficients in powers of y'.
pub(crate) fn image<K: FiniteField<E = u32>>(
    alloc: Global,
    alg: &Alg<K>,
    slope: u32,
    h: usize,
    v: &[u32],
    l: usize,
    d: &Poly,
) -> Result<Vec<u32>, NoMemory>
    requires slope { slope ≡ slope_of (K.lawful alg.now.k) alg.now.f }
    requires positive { 0 < h }
    requires vector { let L = K.lawful alg.now.k in
        IsVector (K.elements alg.now.k) (y_degree L alg.now.f * l) v.now }
    requires d { IsPoly (K.elements alg.now.k) d.now }
    requires nonzero { 0 < length d.now }
    ensures vector { let L = K.lawful alg.now.k in
        IfOk result (λ r. IsVector (K.elements alg.now.k) (y_degree L alg.now.f * h) r.items) }
    ensures value { let F = K.elements alg.now.k in let L = K.lawful alg.now.k in
        let f = alg.now.f in let V = vector_of F v.now in
        IfOk result (λ r. IsShortOver L f d.now l h V → IsImage L f d.now l h V
        (vector_of F r.items)) }
{
    let by = raise(alloc, &alg.k, d, 1)?;
    let quotients = quotient_rows(alloc, alg, slope, &by, l, v)?;
    reversed_vector(alloc, alg, &quotients, h)
}

/// The vector, with rows of h coefficients, of the product of t^s and of the plane with the vector
/// v, which has rows of m.
pub(crate) fn raised<K: FiniteField<E = u32>>(
    alloc: Global,
    alg: &Alg<K>,
    s: usize,
    m: usize,
    h: usize,
    v: &[u32],
) -> Result<Vec<u32>, NoMemory>
    requires room { s + m ≤ h }
    requires vector { let L = K.lawful alg.now.k in
        IsVector (K.elements alg.now.k) (y_degree L alg.now.f * m) v.now }
    ensures vector { let L = K.lawful alg.now.k in
        IfOk result (λ r. IsVector (K.elements alg.now.k) (y_degree L alg.now.f * h) r.items) }
    ensures value { let F = K.elements alg.now.k in let L = K.lawful alg.now.k in
        let f = alg.now.f in let X = power (polys_over F) (variable F.ring) s in
        IfOk result (λ r. IsTimesVector L f X m h (vector_of F v.now) (vector_of F r.items)) }
{
    let factor = variable_power(alloc, &alg.k, s)?;
    times_vector(alloc, alg, &factor, m, h, v)
}
