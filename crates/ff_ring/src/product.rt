// Products of coordinates by the table.
ghost use Rattle.std.specs.Prelude.{◌≡◌, ◌+◌, ◌<◌, ◌≤◌, [], length, get_or, IfOk};
ghost use Rattle.std.specs.List.{All};
ghost use Rattle.ff_theory.specs.Ring.{IsElement};
ghost use Rattle.ff_theory.specs.Sum.{sum_below};
ghost use Rattle.ff_theory.specs.Values.{poly_of, IsPoly, ArePolys, polys_over, x_size};
ghost use Rattle.ff_data.specs.Systems.{AreCoords};
ghost use Rattle.ff_ring.specs.Entries.{entry_at, AreEntries};
ghost use Rattle.ff_ring.specs.Ring.{HasTable, basis_product, plus_basis_product_at};
ghost use Rattle.ff_ring.specs.Ring.{plus_product_at, product};

use crate::linear::{ring_scale, zero_coords};
use ff_alg::{FiniteField, NoMemory};
use ff_data::System;
use ff_elem::PolyList;
use ff_poly::Poly;
use ff_poly::rows::{row, width};
use std::alloc::Global;

/// Adds `a * b` to `sum`, a row for each entry of the shorter list.
fn add_product<K: FiniteField<E = u32>>(k: &K, sum: &mut [u32], a: &[u32], b: &[u32])
    requires sum { All (IsElement (K.elements k.now)) sum.old }
    requires a { All (IsElement (K.elements k.now)) a.now }
    requires b { All (IsElement (K.elements k.now)) b.now }
    requires room { length a.now + length b.now ≤ length sum.old + 1 }
    ensures len { length sum.new ≡ length sum.old }
    ensures each { All (IsElement (K.elements k.now)) sum.new }
    ensures value { let F = K.elements k.now in let P = polys_over F in
        poly_of F sum.new ≡ P.add (poly_of F sum.old) (P.mul (poly_of F a.now) (poly_of F b.now)) }
{
    if a.len() <= b.len() {
        k.add_product(sum, a, b);
    } else {
        k.add_product(sum, b, a);
    }
}

/// The coefficients of polynomial `l` of list `j`, none past the end.
fn entry(lists: &[PolyList], j: usize, l: usize) -> &[u32]
    ensures { result.now ≡ get_or (get_or lists.now j []) l [] }
{
    if j < lists.len() {
        row(lists[j].rows(), l)
    } else {
        &[]
    }
}

/// Adds to `sum` coordinate `l` of the product of y and the basis element whose products are
/// `products`.
fn add_coordinate<K: FiniteField<E = u32>>(
    k: &K,
    sum: &mut [u32],
    products: &[PolyList],
    y: &[Poly],
    l: usize,
)
    requires sum { All (IsElement (K.elements k.now)) sum.old }
    requires products { All (ArePolys (K.elements k.now)) products.now }
    requires y { ArePolys (K.elements k.now) y.now }
    requires count { length products.now ≡ length y.now }
    requires room { All (λ c. x_size y.now + x_size c ≤ length sum.old + 1) products.now }
    ensures len { length sum.new ≡ length sum.old }
    ensures each { All (IsElement (K.elements k.now)) sum.new }
    ensures value { let F = K.elements k.now in let P = polys_over F in
        poly_of F sum.new ≡ P.add (poly_of F sum.old) (basis_product F products.now y.now l) }
{
    for j in 0..y.len() {
        add_product(k, sum, row(y, j), entry(products, j, l));
    }
}

/// The greatest number of coefficients of a polynomial in the lists.
fn greatest_width(lists: &[PolyList]) -> usize
    ensures { All (λ c. x_size c ≤ result) lists.now }
{
    let mut n = 0;
    for list in lists {
        n = n.max(width(list.rows()));
    }
    n
}

/// A sum of two lengths; `NoMemory` where it passes usize.
fn room_for(a: usize, b: usize) -> Result<usize, NoMemory>
    ensures { IfOk result (λ n. n ≡ a + b) }
{
    match a.checked_add(b) {
        Some(n) => Ok(n),
        None => Err(NoMemory),
    }
}

/// `n` zeros.
fn zeros<K: FiniteField<E = u32>>(alloc: Global, k: &K, n: usize) -> Result<Vec<u32>, NoMemory>
    ensures len { IfOk result (λ v. length v.items ≡ n) }
    ensures each { IfOk result (λ v. All (IsElement (K.elements k.now)) v.items) }
    ensures value { let F = K.elements k.now in let P = polys_over F in
        IfOk result (λ v. poly_of F v.items ≡ P.zero) }
{
    let mut zeros = Vec::with_capacity(alloc, n)?;
    for _j in 0..n {
        zeros.push(k.zero())?;
    }
    Ok(zeros)
}

/// Coordinate `l` of the product of y and the basis element whose products are `products`, in room
/// for `n` coefficients.
fn coordinate<K: FiniteField<E = u32>>(
    alloc: Global,
    k: &K,
    products: &[PolyList],
    y: &[Poly],
    l: usize,
    n: usize,
) -> Result<Poly, NoMemory>
    requires products { All (ArePolys (K.elements k.now)) products.now }
    requires y { ArePolys (K.elements k.now) y.now }
    requires count { length products.now ≡ length y.now }
    requires room { All (λ c. x_size y.now + x_size c ≤ n) products.now }
    ensures poly { IfOk result (IsPoly (K.elements k.now)) }
    ensures value { let F = K.elements k.now in
        IfOk result (λ r. poly_of F r ≡ basis_product F products.now y.now l) }
{
    let mut sum = zeros(alloc, k, n)?;
    add_coordinate(k, &mut sum, products, y, l);
    Poly::from_coeffs(alloc, k, &sum)
}

/// Coordinate `l` of the sum of h and such a product.
fn plus_coordinate<K: FiniteField<E = u32>>(
    alloc: Global,
    k: &K,
    products: &[PolyList],
    h: &Poly,
    y: &[Poly],
    l: usize,
    n: usize,
) -> Result<Poly, NoMemory>
    requires products { All (ArePolys (K.elements k.now)) products.now }
    requires h { IsPoly (K.elements k.now) h.now }
    requires y { ArePolys (K.elements k.now) y.now }
    requires count { length products.now ≡ length y.now }
    requires room { All (λ c. x_size y.now + x_size c ≤ n) products.now }
    ensures poly { IfOk result (IsPoly (K.elements k.now)) }
    ensures value { let F = K.elements k.now in let P = polys_over F in
        IfOk result (λ r. poly_of F r ≡
        P.add (poly_of F h.now) (basis_product F products.now y.now l)) }
{
    let product = coordinate(alloc, k, products, y, l, n)?;
    h.add(alloc, k, &product)
}

/// The sum of h and the product of y and the basis element whose products are `products`.
fn plus_products<K: FiniteField<E = u32>>(
    alloc: Global,
    k: &K,
    products: &[PolyList],
    h: &[Poly],
    y: &[Poly],
) -> Result<Vec<Poly>, NoMemory>
    requires products { All (ArePolys (K.elements k.now)) products.now }
    requires h { ArePolys (K.elements k.now) h.now }
    requires y { ArePolys (K.elements k.now) y.now }
    requires count { length products.now ≡ length y.now }
    ensures { let F = K.elements k.now in let P = polys_over F in
        IfOk result (λ r. AreEntries F (length h.now) (λ l.
        P.add (entry_at F h.now l) (basis_product F products.now y.now l)) r.items) }
{
    let n = room_for(width(y), greatest_width(products))?;
    let mut sum = Vec::with_capacity(alloc, h.len())?;
    for l in 0..h.len() {
        sum.push(plus_coordinate(alloc, k, products, &h[l], y, l, n)?)?;
    }
    Ok(sum)
}

/// The sum of h and the product of y and the basis element with the index `i`: coordinates of one
/// system. `NoMemory` is the only error.
pub fn plus_basis_product<K: FiniteField<E = u32>>(
    alloc: Global,
    k: &K,
    s: &System,
    h: &[Poly],
    i: usize,
    y: &[Poly],
) -> Result<Vec<Poly>, NoMemory>
    requires table { HasTable (K.elements k.now) s.now }
    requires i { i < s.now.e }
    requires h { AreCoords (K.elements k.now) s.now h.now }
    requires y { AreCoords (K.elements k.now) s.now y.now }
    ensures { let F = K.elements k.now in
        IfOk result (λ r. AreEntries F s.now.e
        (plus_basis_product_at F s.now h.now i y.now) r.items) }
{
    plus_products(alloc, k, &s.table.rows[i].items, h, y)
}

/// The sum of h and the product of b, the polynomial p and the basis element with the index `i`; it
/// is h where p is 0.
fn plus_product<K: FiniteField<E = u32>>(
    alloc: Global,
    k: &K,
    s: &System,
    h: Vec<Poly>,
    i: usize,
    p: &Poly,
    b: &[Poly],
) -> Result<Vec<Poly>, NoMemory>
    requires table { HasTable (K.elements k.now) s.now }
    requires i { i < s.now.e }
    requires h { AreCoords (K.elements k.now) s.now h.items }
    requires p { IsPoly (K.elements k.now) p.now }
    requires b { AreCoords (K.elements k.now) s.now b.now }
    ensures { let F = K.elements k.now in
        IfOk result (λ r. AreEntries F s.now.e
        (plus_product_at F s.now h.items i (poly_of F p.now) b.now) r.items) }
{
    if p.is_zero() {
        return Ok(h);
    }
    let y = ring_scale(alloc, k, p, b)?;
    plus_basis_product(alloc, k, s, &h, i, &y)
}

/// The coordinates of the product by the table. `NoMemory` is the only error.
pub fn ring_mul<K: FiniteField<E = u32>>(
    alloc: Global,
    k: &K,
    s: &System,
    a: &[Poly],
    b: &[Poly],
) -> Result<Vec<Poly>, NoMemory>
    requires table { HasTable (K.elements k.now) s.now }
    requires a { AreCoords (K.elements k.now) s.now a.now }
    requires b { AreCoords (K.elements k.now) s.now b.now }
    ensures { let F = K.elements k.now in
        IfOk result (λ r. AreEntries F s.now.e (product F s.now a.now b.now) r.items) }
{
    let mut sum = zero_coords(alloc, k, a.len())?;
    for i in 0..a.len() {
        sum = plus_product(alloc, k, s, sum, i, &a[i], b)?;
    }
    Ok(sum)
}
