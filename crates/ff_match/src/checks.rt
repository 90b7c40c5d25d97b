// What is checked of the images of the basis elements of the first system.
ghost use Rattle.std.specs.Prelude.{◌≡◌, ℕ, ◌<◌, ◌≤◌, [], length, get_or, IsTrue, IfOk};
ghost use Rattle.ff_theory.specs.Values.{ArePolys};
ghost use Rattle.ff_data.specs.Systems.{AreCoords, HasWeight, weight_at};
ghost use Rattle.ff_ring.specs.Ring.{AreCoordsList};
ghost use Rattle.ff_match.specs.Candidates.{IsUnit, IsImage, IsImageOfProduct, IsMap, AreParts};

use ff_alg::{FiniteField, NoMemory};
use ff_data::{Relation, System};
use ff_elem::PolyList;
use ff_poly::Poly;
use ff_poly::rows::same_rows;
use ff_ring::{basis_vector, ring_mul, sum_at, top};
use std::alloc::Global;

/// Whether coordinates are those of 1.
fn is_unit<K: FiniteField<E = u32>>(
    alloc: Global,
    k: &K,
    s2: &System,
    c: &[Poly],
) -> Result<bool, NoMemory>
    ensures { IfOk result (λ b. IsTrue b → IsUnit (K.elements k.now) s2.now c.now) }
{
    let one = basis_vector(alloc, k, s2.e as usize, 0)?;
    Ok(same_rows(k, c, &one))
}

/// Whether coordinates have the weight m.
fn has_weight(s2: &System, c: &[Poly], m: u32) -> bool
    requires { length c.now ≤ length s2.now.weights }
    ensures { IsTrue result → HasWeight s2.now m c.now }
{
    match top(s2, c) {
        Some(term) => term.weight == m as u128,
        None => false,
    }
}

/// Whether each image has the weight of its basis element.
fn have_weights<K: FiniteField<E = u32>>(
    k: &K,
    s1: &System,
    s2: &System,
    images: &[PolyList],
) -> bool
    requires first { length s1.now.weights ≡ s2.now.e }
    requires second { length s2.now.weights ≡ s2.now.e }
    requires images { AreCoordsList (K.elements k.now) s2.now s2.now.e images.now }
    ensures { IsTrue result → (i : ℕ) → i < s2.now.e →
        HasWeight s2.now (weight_at s1.now i) (get_or images.now i []) }
{
    let _field = k;
    for i in 0..images.len() {
        if !has_weight(s2, images[i].rows(), s1.weights.items[i]) {
            return false;
        }
    }
    true
}

/// Whether `want` is the combination of the images with c at `alpha*z + beta`.
fn is_image<K: FiniteField<E = u32>>(
    alloc: Global,
    k: &K,
    s1: &System,
    s2: &System,
    r: &Relation,
    alpha: u32,
    beta: u32,
    images: &[PolyList],
    c: &[Poly],
    want: &[Poly],
) -> Result<bool, NoMemory>
    requires parts { AreParts (K.elements k.now) s1.now s2.now r.now alpha beta }
    requires images { AreCoordsList (K.elements k.now) s2.now s2.now.e images.now }
    requires c { AreCoords (K.elements k.now) s1.now c.now }
    ensures { let F = K.elements k.now in
        IfOk result (λ b. IsTrue b → IsImage F s2.now alpha beta images.now c.now want.now) }
{
    let _first = s1;
    let _relation = r;
    let sum = sum_at(alloc, k, s2.e as usize, c, alpha, beta, images)?;
    Ok(same_rows(k, want, &sum))
}

/// Whether the product of the images i and j is the image of the product.
fn is_product<K: FiniteField<E = u32>>(
    alloc: Global,
    k: &K,
    s1: &System,
    s2: &System,
    r: &Relation,
    alpha: u32,
    beta: u32,
    images: &[PolyList],
    i: usize,
    j: usize,
) -> Result<bool, NoMemory>
    requires parts { AreParts (K.elements k.now) s1.now s2.now r.now alpha beta }
    requires images { AreCoordsList (K.elements k.now) s2.now s2.now.e images.now }
    requires i { i < s2.now.e }
    requires j { j < s2.now.e }
    ensures { let F = K.elements k.now in
        IfOk result (λ b. IsTrue b →
        IsImageOfProduct F s1.now s2.now alpha beta images.now i j) }
{
    let product = ring_mul(alloc, k, s2, images[i].rows(), images[j].rows())?;
    let c = s1.table.rows[i].items[j].rows();
    is_image(alloc, k, s1, s2, r, alpha, beta, images, c, &product)
}

/// Whether these are the images of the products of image i and those from it on.
fn are_products_of<K: FiniteField<E = u32>>(
    alloc: Global,
    k: &K,
    s1: &System,
    s2: &System,
    r: &Relation,
    alpha: u32,
    beta: u32,
    images: &[PolyList],
    i: usize,
) -> Result<bool, NoMemory>
    requires parts { AreParts (K.elements k.now) s1.now s2.now r.now alpha beta }
    requires images { AreCoordsList (K.elements k.now) s2.now s2.now.e images.now }
    requires i { i < s2.now.e }
    ensures { let F = K.elements k.now in
        IfOk result (λ b. IsTrue b → (j : ℕ) → i ≤ j → j < s2.now.e →
        IsImageOfProduct F s1.now s2.now alpha beta images.now i j) }
{
    for j in i..images.len() {
        if !is_product(alloc, k, s1, s2, r, alpha, beta, images, i, j)? {
            return Ok(false);
        }
    }
    Ok(true)
}

/// Whether the products of the images are the images of the products.
fn are_products<K: FiniteField<E = u32>>(
    alloc: Global,
    k: &K,
    s1: &System,
    s2: &System,
    r: &Relation,
    alpha: u32,
    beta: u32,
    images: &[PolyList],
) -> Result<bool, NoMemory>
    requires parts { AreParts (K.elements k.now) s1.now s2.now r.now alpha beta }
    requires images { AreCoordsList (K.elements k.now) s2.now s2.now.e images.now }
    ensures { let F = K.elements k.now in
        IfOk result (λ b. IsTrue b → (i j : ℕ) → i ≤ j → j < s2.now.e →
        IsImageOfProduct F s1.now s2.now alpha beta images.now i j) }
{
    for i in 0..images.len() {
        if !are_products_of(alloc, k, s1, s2, r, alpha, beta, images, i)? {
            return Ok(false);
        }
    }
    Ok(true)
}

/// Whether the images are those of a map that keeps 1, weights and products, and sends w to the
/// root: first what takes little time.
pub fn is_map<K: FiniteField<E = u32>>(
    alloc: Global,
    k: &K,
    s1: &System,
    s2: &System,
    r: &Relation,
    alpha: u32,
    beta: u32,
    root: &[Poly],
    images: &[PolyList],
) -> Result<bool, NoMemory>
    requires parts { AreParts (K.elements k.now) s1.now s2.now r.now alpha beta }
    requires images { AreCoordsList (K.elements k.now) s2.now s2.now.e images.now }
    ensures { let F = K.elements k.now in
        IfOk result (λ b. IsTrue b →
        IsMap F s1.now s2.now r.now alpha beta root.now images.now) }
{
    if !have_weights(k, s1, s2, images) {
        return Ok(false);
    }
    let keeps_one = is_unit(alloc, k, s2, images[0].rows())?;
    let sends_w = is_image(alloc, k, s1, s2, r, alpha, beta, images, r.w.rows(), root)?;
    if !keeps_one || !sends_w {
        return Ok(false);
    }
    are_products(alloc, k, s1, s2, r, alpha, beta, images)
}
