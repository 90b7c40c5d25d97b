// Polynomials in x.
ghost use Rattle.std.specs.Prelude.{◌≡◌, ◌<◌, ◌≤◌, ◌+◌, ◌^◌, [], length, map, nat_eq, ◌↔◌};
ghost use Rattle.std.specs.Prelude.{IsTrue, IfOk, IsSome, IfSome};
ghost use Rattle.std.specs.List.{All};
ghost use Rattle.ff_theory.specs.Ring.{IsElement, power};
ghost use Rattle.ff_theory.specs.Poly.{coeff};
ghost use Rattle.ff_theory.specs.Values.{poly_of, IsPoly, polys_over};
ghost use Rattle.ff_theory.specs.Monomial.{variable};

use crate::coefficients::{add_product, add_to, negate, significant_len};
use crate::halves::{LONG, set_long_product};
use ff_alg::{FiniteField, NoMemory, same};
use smallvec::SmallVec;
use std::alloc::Global;
use std::marker::Model;

/// Zeros are made by so many at a time.
const BLOCK: usize = 32;

/// A polynomial in x: its coefficients by rising power, the last one not zero.
///
/// Where a call is handed a polynomial or a list of values, these are of the field of the call.
/// `NoMemory` is the only error, and comes only where memory runs out or a length passes usize.
#[derive(Drop)]
pub struct Poly {
    pub(crate) items: SmallVec<u32, 8>,
}

impl Model for Poly {
    ghost use Rattle.std.specs.Prelude.{List, ℕ};

    ghost Value = { List ℕ };

    ghost view = { λ p. p.items.items };
}

impl Poly {
    /// The polynomial 0.
    pub fn zero(alloc: Global) -> Poly
        ensures { result ≡ [] }
    {
        Poly {
            items: SmallVec::new(alloc),
        }
    }

    /// The polynomial 1.
    pub fn one<K: FiniteField<E = u32>>(alloc: Global, k: &K) -> Result<Poly, NoMemory>
        ensures len { IfOk result (λ r. length r ≡ 1) }
        ensures poly { IfOk result (IsPoly (K.elements k.now)) }
        ensures value { let F = K.elements k.now in let P = polys_over F in
            IfOk result (λ r. poly_of F r ≡ P.one) }
    {
        let mut items = SmallVec::new(alloc);
        items.push(k.one())?;
        Ok(Poly { items })
    }

    /// Whether it is the polynomial 0.
    pub fn is_zero(&self) -> bool
        ensures { result ≡ nat_eq (length self.now) 0 }
    {
        self.items.len() == 0
    }

    /// Whether it is the polynomial 1.
    pub fn is_one<K: FiniteField<E = u32>>(&self, k: &K) -> bool
        requires { IsPoly (K.elements k.now) self.now }
        ensures { let F = K.elements k.now in let P = polys_over F in
            IsTrue result ↔ (poly_of F self.now ≡ P.one) }
    {
        let coeffs = self.items.as_slice();
        if coeffs.len() != 1 {
            return false;
        }
        same(k, coeffs[0], k.one())
    }

    /// The coefficients by rising power, the last one not zero.
    pub fn coeffs(&self) -> &[u32]
        ensures { result.now ≡ self.now }
    {
        self.items.as_slice()
    }

    /// The degree; `None` exactly for the polynomial 0.
    pub fn degree(&self) -> Option<usize>
        ensures some { IsSome result ↔ (0 < length self.now) }
        ensures degree { IfSome result (λ d. d + 1 ≡ length self.now) }
    {
        let n = self.items.len();
        if n == 0 { None } else { Some(n - 1) }
    }

    /// The coefficient of `x^i`, which is 0 past the end.
    pub fn coeff<K: FiniteField<E = u32>>(&self, k: &K, i: usize) -> u32
        requires { All (IsElement (K.elements k.now)) self.now }
        ensures element { IsElement (K.elements k.now) result }
        ensures value { let F = K.elements k.now in
            F.value result ≡ coeff F.ring (map F.value self.now) i }
    {
        let items = self.items.as_slice();
        if i < items.len() { items[i] } else { k.zero() }
    }

    /// Whether two polynomials are the same.
    pub fn same<K: FiniteField<E = u32>>(&self, k: &K, b: &Poly) -> bool
        ensures { IsTrue result ↔ (self.now ≡ b.now) }
    {
        same_lists(k, self.items.as_slice(), b.items.as_slice())
    }

    /// The polynomial of a list, whose zeros at the end are dropped.
    pub(crate) fn trim<K: FiniteField<E = u32>>(k: &K, mut items: SmallVec<u32, 8>) -> Poly
        requires { All (IsElement (K.elements k.now)) items.items }
        ensures poly { IsPoly (K.elements k.now) result }
        ensures value { let F = K.elements k.now in poly_of F result ≡ poly_of F items.items }
    {
        let n = significant_len(k, items.as_slice());
        items.truncate(n);
        Poly { items }
    }

    /// The polynomial with the coefficients `c` by rising power; zeros at the end are dropped.
    pub fn from_coeffs<K: FiniteField<E = u32>>(
        alloc: Global,
        k: &K,
        c: &[u32],
    ) -> Result<Poly, NoMemory>
        requires { All (IsElement (K.elements k.now)) c.now }
        ensures poly { IfOk result (IsPoly (K.elements k.now)) }
        ensures value { let F = K.elements k.now in
            IfOk result (λ r. poly_of F r ≡ poly_of F c.now) }
    {
        let n = significant_len(k, c);
        let items = SmallVec::from_slice(alloc, &c[..n])?;
        Ok(Poly { items })
    }

    /// An equal polynomial.
    pub fn copy(&self, alloc: Global) -> Result<Poly, NoMemory>
        ensures { IfOk result (λ r. r ≡ self.now) }
    {
        let items = SmallVec::from_slice(alloc, self.items.as_slice())?;
        Ok(Poly { items })
    }

    /// The sum of a list and a list that is not longer.
    fn sum_of<K: FiniteField<E = u32>>(
        alloc: Global,
        k: &K,
        long: &[u32],
        short: &[u32],
    ) -> Result<Poly, NoMemory>
        requires long { All (IsElement (K.elements k.now)) long.now }
        requires short { All (IsElement (K.elements k.now)) short.now }
        requires room { length short.now ≤ length long.now }
        ensures poly { IfOk result (IsPoly (K.elements k.now)) }
        ensures value { let F = K.elements k.now in let P = polys_over F in
            IfOk result (λ r. poly_of F r ≡ P.add (poly_of F long.now) (poly_of F short.now)) }
    {
        let mut sum = SmallVec::from_slice(alloc, long)?;
        add_to(k, sum.as_mut_slice(), short);
        Ok(Poly::trim(k, sum))
    }

    /// The sum of two lists.
    pub(crate) fn sum<K: FiniteField<E = u32>>(
        alloc: Global,
        k: &K,
        a: &[u32],
        b: &[u32],
    ) -> Result<Poly, NoMemory>
        requires a { All (IsElement (K.elements k.now)) a.now }
        requires b { All (IsElement (K.elements k.now)) b.now }
        ensures poly { IfOk result (IsPoly (K.elements k.now)) }
        ensures value { let F = K.elements k.now in let P = polys_over F in
            IfOk result (λ r. poly_of F r ≡ P.add (poly_of F a.now) (poly_of F b.now)) }
    {
        if a.len() < b.len() {
            return Poly::sum_of(alloc, k, b, a);
        }
        Poly::sum_of(alloc, k, a, b)
    }

    /// The sum.
    pub fn add<K: FiniteField<E = u32>>(
        &self,
        alloc: Global,
        k: &K,
        b: &Poly,
    ) -> Result<Poly, NoMemory>
        requires a { All (IsElement (K.elements k.now)) self.now }
        requires b { All (IsElement (K.elements k.now)) b.now }
        ensures poly { IfOk result (IsPoly (K.elements k.now)) }
        ensures value { let F = K.elements k.now in let P = polys_over F in
            IfOk result (λ r. poly_of F r ≡ P.add (poly_of F self.now) (poly_of F b.now)) }
    {
        Poly::sum(alloc, k, self.items.as_slice(), b.items.as_slice())
    }

    /// The negative.
    pub fn neg<K: FiniteField<E = u32>>(&self, alloc: Global, k: &K) -> Result<Poly, NoMemory>
        requires { All (IsElement (K.elements k.now)) self.now }
        ensures poly { IfOk result (IsPoly (K.elements k.now)) }
        ensures value { let F = K.elements k.now in let P = polys_over F in
            IfOk result (λ r. poly_of F r ≡ P.neg (poly_of F self.now)) }
    {
        let mut negative = SmallVec::from_slice(alloc, self.items.as_slice())?;
        negate(k, negative.as_mut_slice());
        Ok(Poly::trim(k, negative))
    }

    /// A list of `n` zeros.
    pub(crate) fn zeros<K: FiniteField<E = u32>>(
        alloc: Global,
        k: &K,
        n: usize,
    ) -> Result<SmallVec<u32, 8>, NoMemory>
        ensures len { IfOk result (λ r. length r.items ≡ n) }
        ensures each { IfOk result (λ r. All (IsElement (K.elements k.now)) r.items) }
        ensures value { let F = K.elements k.now in let P = polys_over F in
            IfOk result (λ r. poly_of F r.items ≡ P.zero) }
    {
        let block = [k.zero(); BLOCK];
        let mut zeros = SmallVec::with_capacity(alloc, n)?;
        for _i in 0..n / BLOCK {
            zeros.extend_from_slice(&block)?;
        }
        zeros.extend_from_slice(&block[..n % BLOCK])?;
        Ok(zeros)
    }

    /// The product of two lists; `NoMemory` where its length passes usize too.
    pub(crate) fn product<K: FiniteField<E = u32>>(
        alloc: Global,
        k: &K,
        a: &[u32],
        b: &[u32],
    ) -> Result<Poly, NoMemory>
        requires a { All (IsElement (K.elements k.now)) a.now }
        requires b { All (IsElement (K.elements k.now)) b.now }
        ensures poly { IfOk result (IsPoly (K.elements k.now)) }
        ensures value { let F = K.elements k.now in let P = polys_over F in
            IfOk result (λ r. poly_of F r ≡ P.mul (poly_of F a.now) (poly_of F b.now)) }
    {
        if is_long(a.len(), b.len()) {
            return Poly::product_by_halves(alloc, k, a, b);
        }
        Poly::product_by_rows(alloc, k, a, b)
    }

    /// The product of two lists, row by row.
    fn product_by_rows<K: FiniteField<E = u32>>(
        alloc: Global,
        k: &K,
        a: &[u32],
        b: &[u32],
    ) -> Result<Poly, NoMemory>
        requires a { All (IsElement (K.elements k.now)) a.now }
        requires b { All (IsElement (K.elements k.now)) b.now }
        ensures poly { IfOk result (IsPoly (K.elements k.now)) }
        ensures value { let F = K.elements k.now in let P = polys_over F in
            IfOk result (λ r. poly_of F r ≡ P.mul (poly_of F a.now) (poly_of F b.now)) }
    {
        let mut product = Poly::zeros(alloc, k, product_len(a.len(), b.len())?)?;
        add_product(k, product.as_mut_slice(), a, b);
        Ok(Poly::trim(k, product))
    }

    /// The product of two long lists, by halves.
    fn product_by_halves<K: FiniteField<E = u32>>(
        alloc: Global,
        k: &K,
        a: &[u32],
        b: &[u32],
    ) -> Result<Poly, NoMemory>
        requires a { All (IsElement (K.elements k.now)) a.now }
        requires b { All (IsElement (K.elements k.now)) b.now }
        ensures poly { IfOk result (IsPoly (K.elements k.now)) }
        ensures value { let F = K.elements k.now in let P = polys_over F in
            IfOk result (λ r. poly_of F r ≡ P.mul (poly_of F a.now) (poly_of F b.now)) }
    {
        let n = padded_len(a.len().max(b.len()))?;
        let mut work = Poly::zeros(alloc, k, 8 * n)?;
        set_long_product(k, work.as_mut_slice(), a, b, n);
        work.truncate(2 * n);
        Ok(Poly::trim(k, work))
    }

    /// The product.
    pub fn mul<K: FiniteField<E = u32>>(
        &self,
        alloc: Global,
        k: &K,
        b: &Poly,
    ) -> Result<Poly, NoMemory>
        requires a { All (IsElement (K.elements k.now)) self.now }
        requires b { All (IsElement (K.elements k.now)) b.now }
        ensures poly { IfOk result (IsPoly (K.elements k.now)) }
        ensures value { let F = K.elements k.now in let P = polys_over F in
            IfOk result (λ r. poly_of F r ≡ P.mul (poly_of F self.now) (poly_of F b.now)) }
    {
        Poly::product(alloc, k, self.items.as_slice(), b.items.as_slice())
    }

    /// The sum `c * a + t * b`.
    pub(crate) fn combination<K: FiniteField<E = u32>>(
        alloc: Global,
        k: &K,
        c: &[u32],
        a: &[u32],
        t: &[u32],
        b: &[u32],
    ) -> Result<Poly, NoMemory>
        requires c { All (IsElement (K.elements k.now)) c.now }
        requires a { All (IsElement (K.elements k.now)) a.now }
        requires t { All (IsElement (K.elements k.now)) t.now }
        requires b { All (IsElement (K.elements k.now)) b.now }
        ensures poly { IfOk result (IsPoly (K.elements k.now)) }
        ensures value { let F = K.elements k.now in let P = polys_over F in
            IfOk result (λ r. poly_of F r ≡ P.add
            (P.mul (poly_of F c.now) (poly_of F a.now))
            (P.mul (poly_of F t.now) (poly_of F b.now))) }
    {
        let width = product_len(c.len(), a.len())?.max(product_len(t.len(), b.len())?);
        let mut sum = Poly::zeros(alloc, k, width)?;
        add_combination(k, sum.as_mut_slice(), c, a, t, b);
        Ok(Poly::trim(k, sum))
    }

    /// The product with `x^i`.
    pub fn shift<K: FiniteField<E = u32>>(
        &self,
        alloc: Global,
        k: &K,
        i: usize,
    ) -> Result<Poly, NoMemory>
        requires a { All (IsElement (K.elements k.now)) self.now }
        requires room { length self.now + i < 2 ^ 64 }
        ensures poly { IfOk result (IsPoly (K.elements k.now)) }
        ensures value { let F = K.elements k.now in let P = polys_over F in
            IfOk result (λ r. poly_of F r ≡
            P.mul (power P (variable F.ring) i) (poly_of F self.now)) }
    {
        if self.items.is_empty() {
            return Ok(Poly::zero(alloc));
        }
        let mut items = Poly::zeros(alloc, k, i)?;
        items.extend_from_slice(self.items.as_slice())?;
        Ok(Poly::trim(k, items))
    }
}

/// Whether two lists have the same entries.
fn same_lists<K: FiniteField<E = u32>>(k: &K, a: &[u32], b: &[u32]) -> bool
    ensures { IsTrue result ↔ (a.now ≡ b.now) }
{
    let _field = k;
    if a.len() != b.len() {
        return false;
    }
    for i in 0..a.len() {
        if a[i] != b[i] {
            return false;
        }
    }
    true
}

/// Whether two lists are long, and of about one length.
fn is_long(a: usize, b: usize) -> bool {
    a > LONG && b > LONG && a / 2 < b && b / 2 < a
}

/// A multiple of 32 that is not below a length, so that it has halves; `NoMemory` past `2^60`.
fn padded_len(len: usize) -> Result<usize, NoMemory>
    ensures { IfOk result (λ n. (len ≤ n) × (n < 2 ^ 61)) }
{
    if len > 1 << 60 {
        return Err(NoMemory);
    }
    Ok((len + 31) / 32 * 32)
}

/// The number of coefficients of a product, or one more; `NoMemory` where it passes usize.
pub(crate) fn product_len(a: usize, b: usize) -> Result<usize, NoMemory>
    ensures { IfOk result (λ n. a + b ≤ n + 1) }
{
    match a.checked_add(b) {
        Some(n) => Ok(n.saturating_sub(1)),
        None => Err(NoMemory),
    }
}

/// Adds `c * a + t * b` to `sum`.
fn add_combination<K: FiniteField<E = u32>>(
    k: &K,
    sum: &mut [u32],
    c: &[u32],
    a: &[u32],
    t: &[u32],
    b: &[u32],
)
    requires sum { All (IsElement (K.elements k.now)) sum.old }
    requires c { All (IsElement (K.elements k.now)) c.now }
    requires a { All (IsElement (K.elements k.now)) a.now }
    requires t { All (IsElement (K.elements k.now)) t.now }
    requires b { All (IsElement (K.elements k.now)) b.now }
    requires first { length c.now + length a.now ≤ length sum.old + 1 }
    requires second { length t.now + length b.now ≤ length sum.old + 1 }
    ensures len { length sum.new ≡ length sum.old }
    ensures each { All (IsElement (K.elements k.now)) sum.new }
    ensures value { let F = K.elements k.now in let P = polys_over F in
        poly_of F sum.new ≡ P.add
        (P.add (poly_of F sum.old) (P.mul (poly_of F c.now) (poly_of F a.now)))
        (P.mul (poly_of F t.now) (poly_of F b.now)) }
{
    add_product(k, sum, c, a);
    add_product(k, sum, t, b);
}
