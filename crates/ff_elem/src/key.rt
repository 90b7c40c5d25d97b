// Keys of elements, and their dictionary order.
ghost use Rattle.std.specs.Prelude.{◌≡◌, ◌↔◌, ◌++◌, IfOk, OnOk, length};
ghost use Rattle.std.specs.List.{All};
ghost use Rattle.std.specs.declared.cmp.Ordering.TheVariants.{Equal};
ghost use Rattle.ff_theory.specs.Ring.{IsElement};
ghost use Rattle.ff_theory.specs.Values.{IsPoly, ArePolys};
ghost use Rattle.ff_elem.specs.Elem.{elem_of, IsElem};
ghost use Rattle.ff_elem.specs.Key.{indices, poly_key, rows_key, elem_key, key_cmp};

use crate::algebra::Alg;
use crate::elem::Elem;
use ff_alg::{FiniteField, NoMemory};
use ff_poly::Poly;
use std::alloc::Global;
use std::cmp::Ordering;

/// Adds the key of a polynomial in x.
fn push_poly<K: FiniteField<E = u32>>(k: &K, key: &mut Vec<u64>, p: &Poly) -> Result<(), NoMemory>
    requires { IsPoly (K.elements k.now) p.now }
    ensures { let F = K.elements k.now in
        OnOk result (key.new.items ≡ key.old.items ++ poly_key F p.now) }
{
    let coeffs = p.coeffs();
    let mut i = coeffs.len();
    key.push(i as u64)?;
    while i > 0 {
        i -= 1;
        key.push(k.index(coeffs[i]))?;
    }
    Ok(())
}

/// Adds the keys of rows.
fn push_rows<K: FiniteField<E = u32>>(
    k: &K,
    key: &mut Vec<u64>,
    rows: &[Poly],
) -> Result<(), NoMemory>
    requires { ArePolys (K.elements k.now) rows.now }
    ensures { let F = K.elements k.now in
        OnOk result (key.new.items ≡ key.old.items ++ rows_key F rows.now) }
{
    for p in rows {
        push_poly(k, key, p)?;
    }
    Ok(())
}

/// The order of two lists of as many coefficients, from the last one down.
fn compare_coeffs<K: FiniteField<E = u32>>(k: &K, a: &[u32], b: &[u32]) -> Ordering
    requires a { All (IsElement (K.elements k.now)) a.now }
    requires b { All (IsElement (K.elements k.now)) b.now }
    requires same { length a.now ≡ length b.now }
    ensures { let F = K.elements k.now in result ≡ key_cmp (indices F a.now) (indices F b.now) }
{
    let mut i = a.len();
    while i > 0 {
        i -= 1;
        let order = k.index(a[i]).cmp(&k.index(b[i]));
        if order.is_ne() {
            return order;
        }
    }
    Ordering::Equal
}

/// The order of the keys of two polynomials in x.
fn compare_polys<K: FiniteField<E = u32>>(k: &K, a: &Poly, b: &Poly) -> Ordering
    requires a { IsPoly (K.elements k.now) a.now }
    requires b { IsPoly (K.elements k.now) b.now }
    ensures { let F = K.elements k.now in result ≡ key_cmp (poly_key F a.now) (poly_key F b.now) }
{
    let order = a.coeffs().len().cmp(&b.coeffs().len());
    if order.is_ne() {
        return order;
    }
    compare_coeffs(k, a.coeffs(), b.coeffs())
}

/// The order of the keys of as many rows.
fn compare_rows<K: FiniteField<E = u32>>(k: &K, a: &[Poly], b: &[Poly]) -> Ordering
    requires a { ArePolys (K.elements k.now) a.now }
    requires b { ArePolys (K.elements k.now) b.now }
    requires same { length a.now ≡ length b.now }
    ensures { let F = K.elements k.now in result ≡ key_cmp (rows_key F a.now) (rows_key F b.now) }
{
    for i in 0..a.len() {
        let order = compare_polys(k, &a[i], &b[i]);
        if order.is_ne() {
            return order;
        }
    }
    Ordering::Equal
}

impl<K: FiniteField<E = u32>> Alg<K> {
    /// The key: the number of coefficients of the denominator and these from the leading one down,
    /// by their index, and then the same of each numerator, by rising power of y.
    /// The key and its order are this project's own.
    pub fn key(&self, alloc: Global, a: &Elem) -> Result<Vec<u64>, NoMemory>
        requires { IsElem (K.lawful self.now.k) self.now.f a.now }
        ensures { let F = K.elements self.now.k in
            IfOk result (λ r. r.items ≡ elem_key F a.now) }
    {
        let mut key = Vec::new(alloc);
        push_poly(&self.k, &mut key, &a.den)?;
        push_rows(&self.k, &mut key, a.num.rows())?;
        Ok(key)
    }

    /// The dictionary order of the keys. Elements with the same key are the same.
    pub fn compare(&self, a: &Elem, b: &Elem) -> Ordering
        requires a { IsElem (K.lawful self.now.k) self.now.f a.now }
        requires b { IsElem (K.lawful self.now.k) self.now.f b.now }
        ensures order { let F = K.elements self.now.k in
            result ≡ key_cmp (elem_key F a.now) (elem_key F b.now) }
        ensures equal { let L = K.lawful self.now.k in let f = self.now.f in
            (result ≡ Equal) ↔ (elem_of L f a.now ≡ elem_of L f b.now) }
    {
        let order = compare_polys(&self.k, &a.den, &b.den);
        if order.is_ne() {
            return order;
        }
        compare_rows(&self.k, a.num.rows(), b.num.rows())
    }
}
