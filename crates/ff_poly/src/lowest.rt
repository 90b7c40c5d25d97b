// Fractions in lowest terms.
ghost use Rattle.std.specs.Prelude.{◌≡◌, ℕ, ◌<◌, length, IfOk};
ghost use Rattle.ff_theory.specs.Lawful.{lawful_field};
ghost use Rattle.ff_theory.specs.Poly.{coeff};
ghost use Rattle.ff_theory.specs.LowestTerms.{IsLowest};
ghost use Rattle.ff_theory.specs.Divides.{Divides, IsGcdOfAll};
ghost use Rattle.ff_theory.specs.Values.{poly_of, IsPoly, polys_over, leading};
ghost use Rattle.ff_theory.specs.Values.{polys_of, ArePolys, products_with};

use crate::Poly;
use crate::divisors::common_divisor;
use ff_alg::{FiniteField, NoMemory};
use std::alloc::Global;

impl Poly {
    /// The fractions `nums[i] / den`, where `den` is not 0, in lowest terms: their common
    /// denominator, which is monic, and their numerators, as many as there were.
    ///
    /// No polynomial of positive degree divides the denominator and all numerators.
    pub fn lowest<K: FiniteField<E = u32>>(
        alloc: Global,
        k: &K,
        den: &Poly,
        nums: &[Poly],
    ) -> Result<(Poly, Vec<Poly>), NoMemory>
        requires den { IsPoly (K.elements k.now) den.now }
        requires nonzero { 0 < length den.now }
        requires nums { ArePolys (K.elements k.now) nums.now }
        ensures den { IfOk result (λ r. IsPoly (K.elements k.now) r.0) }
        ensures nums { IfOk result (λ r. ArePolys (K.elements k.now) r.1.items) }
        ensures lowest { let F = K.elements k.now in let L = K.lawful k.now in
            IfOk result (λ r. IsLowest (lawful_field L) (length nums.now)
            (poly_of F r.0) (polys_of F r.1.items)) }
        ensures equal { let F = K.elements k.now in let P = polys_over F in
            IfOk result (λ r. (i : ℕ) → i < length nums.now →
            P.mul (coeff P (polys_of F r.1.items) i) (poly_of F den.now) ≡
            P.mul (coeff P (polys_of F nums.now) i) (poly_of F r.0)) }
    {
        let common = shared_divisor(alloc, k, den, nums)?;
        let low = den.quotient(alloc, k, &common)?;
        let lows = quotients(alloc, k, nums, &common)?;
        Ok((low, lows))
    }

    /// The quotient by the divisor `b`, which is not 0; a copy where `b` is 1.
    pub(crate) fn quotient<K: FiniteField<E = u32>>(
        &self,
        alloc: Global,
        k: &K,
        b: &Poly,
    ) -> Result<Poly, NoMemory>
        requires a { IsPoly (K.elements k.now) self.now }
        requires b { IsPoly (K.elements k.now) b.now }
        requires nonzero { 0 < length b.now }
        requires divisor { let F = K.elements k.now in let P = polys_over F in
            Divides P (poly_of F b.now) (poly_of F self.now) }
        ensures poly { IfOk result (IsPoly (K.elements k.now)) }
        ensures value { let F = K.elements k.now in let P = polys_over F in
            IfOk result (λ r. P.mul (poly_of F r) (poly_of F b.now) ≡ poly_of F self.now) }
    {
        if b.is_one(k) {
            return self.copy(alloc);
        }
        let (quotient, _zero) = self.divide(alloc, k, b)?;
        Ok(quotient)
    }
}

/// The quotients by a divisor of all, one for each.
fn quotients<K: FiniteField<E = u32>>(
    alloc: Global,
    k: &K,
    list: &[Poly],
    b: &Poly,
) -> Result<Vec<Poly>, NoMemory>
    requires list { ArePolys (K.elements k.now) list.now }
    requires b { IsPoly (K.elements k.now) b.now }
    requires nonzero { 0 < length b.now }
    requires divisor { let F = K.elements k.now in let P = polys_over F in
        (i : ℕ) → i < length list.now →
        Divides P (poly_of F b.now) (coeff P (polys_of F list.now) i) }
    ensures each { IfOk result (λ r. ArePolys (K.elements k.now) r.items) }
    ensures value { let F = K.elements k.now in
        IfOk result (λ r. products_with F (poly_of F b.now) r.items ≡ polys_of F list.now) }
{
    let mut quotients = Vec::with_capacity(alloc, list.len())?;
    for p in list {
        quotients.push(p.quotient(alloc, k, b)?)?;
    }
    Ok(quotients)
}

/// A greatest common divisor of a polynomial and of those of a list; nothing is read once it is a
/// constant.
fn divisor_of_all<K: FiniteField<E = u32>>(
    alloc: Global,
    k: &K,
    den: &Poly,
    nums: &[Poly],
) -> Result<Poly, NoMemory>
    requires den { IsPoly (K.elements k.now) den.now }
    requires nums { ArePolys (K.elements k.now) nums.now }
    ensures poly { IfOk result (IsPoly (K.elements k.now)) }
    ensures gcd { let F = K.elements k.now in let P = polys_over F in
        IfOk result (λ r. IsGcdOfAll P (poly_of F den.now) (polys_of F nums.now)
        (length nums.now) (poly_of F r)) }
{
    let mut divisor = den.copy(alloc)?;
    for num in nums {
        if divisor.coeffs().len() == 1 {
            return Ok(divisor);
        }
        divisor = common_divisor(k, divisor, num.copy(alloc)?);
    }
    Ok(divisor)
}

/// The greatest common divisor of `den`, which is not 0, and `nums` that has the leading
/// coefficient of `den`.
fn shared_divisor<K: FiniteField<E = u32>>(
    alloc: Global,
    k: &K,
    den: &Poly,
    nums: &[Poly],
) -> Result<Poly, NoMemory>
    requires den { IsPoly (K.elements k.now) den.now }
    requires nonzero { 0 < length den.now }
    requires nums { ArePolys (K.elements k.now) nums.now }
    ensures poly { IfOk result (IsPoly (K.elements k.now)) }
    ensures nonzero { IfOk result (λ r. 0 < length r) }
    ensures leading { let F = K.elements k.now in
        IfOk result (λ r. leading F r ≡ leading F den.now) }
    ensures gcd { let F = K.elements k.now in let P = polys_over F in
        IfOk result (λ r. IsGcdOfAll P (poly_of F den.now) (polys_of F nums.now)
        (length nums.now) (poly_of F r)) }
{
    let lead = den.coeffs()[den.coeffs().len() - 1];
    Ok(divisor_of_all(alloc, k, den, nums)?.with_leading(k, lead))
}
