// The canonical list of an order.
ghost use Rattle.std.specs.Prelude.{◌≡◌, ℕ, ◌*◌, ◌<◌, ◌≤◌, pred, List, length, IfOk};
ghost use Rattle.ff_theory.specs.Poly.{coeff};
ghost use Rattle.ff_theory.specs.Division.{size};
ghost use Rattle.ff_theory.specs.Values.{poly_of, IsPoly, polys_over, polys_of, ArePolys};
ghost use Rattle.ff_lin.specs.Space.{IsSpaceOf, SpansFamily, HasExactly};
ghost use Rattle.ff_elem.specs.declared.elem.Elem.{Elem};
ghost use Rattle.ff_data.specs.Orders.{y_degree, IsOrder, InOrder, IsMaximal, IsIntegral};
ghost use Rattle.ff_basis.specs.Blocks.{AreLowestRows, reversed_part};
ghost use Rattle.ff_basis.specs.OrderList.{IsLeastDenominator, IsVectorIn, IsOrderList};
ghost use Rattle.ff_basis.specs.OrderList.{numerators_len};

use crate::parts::{basis_rows, reversed_vectors};
use crate::reading::elements;
use ff_alg::{FiniteField, NoMemory};
use ff_data::Order;
use ff_elem::{Alg, Elem};
use ff_lin::Space;
use ff_poly::Poly;
use std::alloc::Global;

/// The least denominator of an order, and the rows of its vectors over it.
fn lowest_rows<K: FiniteField<E = u32>>(
    alloc: Global,
    alg: &Alg<K>,
    order: &Order,
) -> Result<(Poly, Vec<Poly>), NoMemory>
    requires { IsOrder (K.lawful alg.now.k) alg.now.f order.now }
    ensures { let L = K.lawful alg.now.k in
        IfOk result (λ r. AreLowestRows L alg.now.f order.now r.0 r.1.items) }
{
    let n = alg.f.rows().len() - 1;
    let l = order.d.coeffs().len() - 1;
    let basis = order.space.basis();
    match basis.len().checked_mul(n) {
        Some(count) => {
            let rows = basis_rows(alloc, &alg.k, basis, n, l, count)?;
            Poly::lowest(alloc, &alg.k, &order.d, &rows)
        },
        None => Err(NoMemory),
    }
}

/// The span of the reversed vectors of `count` planes of `n` rows with at most `l` coefficients.
fn reversed_span<K: FiniteField<E = u32>>(
    alloc: Global,
    k: &K,
    rows: &[Poly],
    count: usize,
    n: usize,
    l: usize,
) -> Result<Space, NoMemory>
    requires rows { ArePolys (K.elements k.now) rows.now }
    requires room { length rows.now ≡ count * n }
    requires few { let F = K.elements k.now in let P = polys_over F in
        (s : ℕ) → s < length rows.now → size F.ring (coeff P (polys_of F rows.now) s) ≤ l }
    ensures space { IfOk result (IsSpaceOf (K.elements k.now) (n * l)) }
    ensures same { let F = K.elements k.now in IfOk result (λ s.
        SpansFamily F s.basis count (reversed_part F.ring (polys_of F rows.now) n l)) }
{
    match n.checked_mul(l) {
        Some(len) => {
            let vectors = reversed_vectors(alloc, k, rows, count, n, l, len)?;
            Space::span(alloc, k, len, &vectors)
        },
        None => Err(NoMemory),
    }
}

/// The least denominator of an order, and the space of the vectors of its elements over it.
fn numerators<K: FiniteField<E = u32>>(
    alloc: Global,
    alg: &Alg<K>,
    order: &Order,
) -> Result<(Poly, Space), NoMemory>
    requires { IsOrder (K.lawful alg.now.k) alg.now.f order.now }
    ensures den { IfOk result (λ r. IsPoly (K.elements alg.now.k) r.0) }
    ensures least { let F = K.elements alg.now.k in let L = K.lawful alg.now.k in
        let f = alg.now.f in let o = order.now in IfOk result (λ r.
        IsLeastDenominator L f o.chart (InOrder L f o) (poly_of F r.0)) }
    ensures space { let F = K.elements alg.now.k in let L = K.lawful alg.now.k in
        let f = alg.now.f in let c = order.now.chart in IfOk result (λ r.
        IsSpaceOf F (numerators_len L f c (poly_of F r.0)) r.1) }
    ensures exact { let F = K.elements alg.now.k in let L = K.lawful alg.now.k in
        let f = alg.now.f in let o = order.now in IfOk result (λ r.
        HasExactly F r.1 (IsVectorIn L f o.chart (InOrder L f o) (poly_of F r.0))) }
{
    let (den, rows) = lowest_rows(alloc, alg, order)?;
    let n = alg.f.rows().len() - 1;
    let l = den.coeffs().len() - 1;
    let space = reversed_span(alloc, &alg.k, &rows, order.space.dim(), n, l)?;
    Ok((den, space))
}

/// The canonical list of an order: as many elements as the order has dimensions modulo the power
/// order of its chart, which are determined by the set of its elements alone.
///
/// Let D be the monic polynomial in u of least degree (in the infinite chart a power of t) whose
/// product with each element is in the power order. Each class modulo the power order has one
/// element `(N_0 + N_1 * theta + ..) / D` with each `N_i` of lower degree than D; its vector lists
/// the coefficients of `N_(n-1)` down to `N_0`, each from the highest power down. The list has the
/// elements of the row-reduced echelon basis of these vectors, by rising pivots. `NoMemory` comes
/// where memory runs out or a length passes usize, and is the only error. This project's own.
pub fn order_basis<K: FiniteField<E = u32>>(
    alloc: Global,
    alg: &Alg<K>,
    order: &Order,
) -> Result<Vec<Elem>, NoMemory>
    requires { IsOrder (K.lawful alg.now.k) alg.now.f order.now }
    ensures list { let L = K.lawful alg.now.k in let f = alg.now.f in let o = order.now in
        IfOk result (λ r. IsOrderList L f o.chart (InOrder L f o) r.items) }
    ensures only { let L = K.lawful alg.now.k in let f = alg.now.f in let o = order.now in
        IfOk result (λ r. (elems : List Elem) →
        IsOrderList L f o.chart (InOrder L f o) elems → r.items ≡ elems) }
    ensures maximal { let L = K.lawful alg.now.k in let f = alg.now.f in let o = order.now in
        IsMaximal L f o →
        IfOk result (λ r. IsOrderList L f o.chart (IsIntegral L f o.chart) r.items) }
{
    let (den, space) = numerators(alloc, alg, order)?;
    elements(alloc, alg, order.chart, &order.theta, &den, space.basis())
}
