// The field and the equations of a number.
ghost use Rattle.std.specs.Prelude.{◌≡◌, ℕ, ◌<◌, ◌+◌, ◌%◌, length, get_or, IfOk};
ghost use Rattle.ff_theory.specs.PrimeTable.{primes};
ghost use Rattle.ff_prime.specs.Number.{number_of};
ghost use Rattle.ff_make.specs.Generator.{exponents_for, IsGenerated};

use crate::curve::{curve, quintic};
use ff_alg::NoMemory;
use ff_poly::{Plane, Poly};
use ff_prime::Prime;
use std::alloc::Global;

const ODD_PRIMES: [u32; 24] = [
    3, 5, 7, 11, 13, 17, 19, 23, 29, 31, 37, 41, 43, 47, 53, 59, 61, 67, 71, 73, 79, 83, 89, 97,
];

/// The field of the odd prime at an index.
fn odd_prime(i: usize) -> Prime
    requires { i < 24 }
    ensures { number_of result ≡ get_or primes (i + 1) 0 }
{
    Prime::of(ODD_PRIMES[i] as u64).unwrap()
}

/// The exponents 11, 9, 7 and 5 without multiples of p, an odd prime of the table: the one whose
/// index is the remainder of q by their number.
fn exponent(p: u32, q: u32) -> u32
    requires { (i : ℕ) × ((i < 24) × (p ≡ get_or primes (i + 1) 0)) }
    ensures { result ≡ get_or (exponents_for p) (q % length (exponents_for p)) 0 }
{
    let q = q as usize;
    if p == 3 {
        return [11, 7, 5][q % 3];
    }
    if p == 5 {
        return [11, 9, 7][q % 3];
    }
    if p == 7 {
        return [11, 9, 5][q % 3];
    }
    if p == 11 {
        return [9, 7, 5][q % 3];
    }
    [11, 9, 7, 5][q % 4]
}

/// A field and two equations f and g for a number n, where (x + s, y + h) is a pair of E(g) that
/// satisfies f: the prime p is the odd prime of the table at the remainder of n by 24, and q the
/// whole part of n / 24; m is one of 11, 9, 7 and 5 without multiples of p, s the remainder of
/// q + 1 by p, h is `x^5 + c*x` with c the remainder of n by p; f is `y^2 - x^m - 1`, and g is
/// `(y + h)^2 - (x + s)^m - 1`, multiplied out. Both are within the limits of an equation.
/// `NoMemory` is the only error. This project's own.
pub fn generate(alloc: Global, n: u32) -> Result<(Prime, Plane, Plane), NoMemory>
    ensures { IfOk result (λ r. IsGenerated n r.0 r.1 r.2) }
{
    let k = odd_prime(n as usize % 24);
    let p = k.number() as u32;
    let m = exponent(p, n / 24);
    let first = curve(alloc, &k, Poly::zero(alloc), 0, m)?;
    let second = curve(alloc, &k, quintic(alloc, &k, n % p)?, (n / 24 + 1) % p, m)?;
    Ok((k, first, second))
}
