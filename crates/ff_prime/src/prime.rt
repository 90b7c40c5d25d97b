// A prime field: residues modulo a prime of the table, kept as numbers below it.
ghost use Rattle.std.specs.Prelude.{◌≡◌, ℕ, ◌↔◌, ◌<◌, ◌≤◌, ◌+◌, ◌*◌, ◌/◌, ◌%◌, ◌^◌};
ghost use Rattle.std.specs.Prelude.{IsTrue, IfSome, IsSome, length, get_or};
ghost use Rattle.ff_theory.specs.PrimeTable.{primes, is_in};

use ff_alg::{Field, FiniteField, Ring, pow};

const PRIMES: [u32; 25] = [
    2, 3, 5, 7, 11, 13, 17, 19, 23, 29, 31, 37, 41, 43, 47, 53, 59, 61, 67, 71, 73, 79, 83, 89, 97,
];

/// The field with a prime number of elements, which are the numbers below it.
///
/// The primes are those below one hundred.
#[derive(Clone, Copy)]
pub struct Prime {
    number: u32,
    // 2^24 over the prime, rounded up past it: by it a remainder costs two products and a shift.
    reciprocal: u32,
    // 2^32 over the prime: by it a quotient of any number is at most one too small.
    quotient: u64,
    ghost known: { IsTrue (is_in number primes) },
    ghost reciprocal_is: { reciprocal ≡ 2 ^ 24 / number + 1 },
    ghost quotient_is: { quotient ≡ 2 ^ 32 / number },
}

impl Prime {
    ghost use Rattle.ff_prime.specs.Number.{number_of};

    /// The field with `n` elements. `None` comes exactly where n is no prime below one hundred.
    pub fn of(n: u64) -> Option<Prime>
        ensures some { IsSome result ↔ IsTrue (is_in n primes) }
        ensures number { IfSome result (λ k. number_of k ≡ n) }
    {
        for p in PRIMES {
            if p as u64 == n {
                return Some(Prime {
                    number: p,
                    reciprocal: (1 << 24) / p + 1,
                    quotient: (1 << 32) / p as u64,
                });
            }
        }
        None
    }

    /// The prime itself.
    pub fn number(&self) -> u64
        ensures { result ≡ number_of self.now }
    {
        self.number as u64
    }

    // The remainder of a number below the square of the prime.
    fn reduced(&self, x: u32) -> u32
        requires { x < number_of self.now * number_of self.now }
        ensures { result ≡ x % number_of self.now }
    {
        x - ((x * self.reciprocal) >> 24) * self.number
    }

    // Adds `c * b` to `sum`, entry by entry, and takes no remainder.
    fn accumulate(&self, sum: &mut [u32], c: u32, b: &[u32])
        requires c { c < number_of self.now }
        requires b { (j : ℕ) → j < length b.now → get_or b.now j 0 < number_of self.now }
        requires len { length b.now ≡ length sum.old }
        requires room { (j : ℕ) → j < length sum.old → get_or sum.old j 0 + 9216 < 2 ^ 32 }
        ensures len { length sum.new ≡ length sum.old }
        ensures entries { (j : ℕ) → j < length sum.old →
            get_or sum.new j 0 ≡ get_or sum.old j 0 + c * get_or b.now j 0 }
    {
        for j in 0..b.len() {
            sum[j] += c * b[j];
        }
    }

    // Adds `c * b` to the entries of `sum` from `at` on, and takes no remainder.
    fn accumulate_at(&self, sum: &mut [u32], at: usize, c: u32, b: &[u32])
        requires c { c < number_of self.now }
        requires b { (j : ℕ) → j < length b.now → get_or b.now j 0 < number_of self.now }
        requires len { at + length b.now ≤ length sum.old }
        requires room { (j : ℕ) → j < length sum.old → get_or sum.old j 0 + 9216 < 2 ^ 32 }
        ensures len { length sum.new ≡ length sum.old }
        ensures before { (i : ℕ) → i < at → get_or sum.new i 0 ≡ get_or sum.old i 0 }
        ensures entries { (j : ℕ) → j < length b.now →
            get_or sum.new (at + j) 0 ≡ get_or sum.old (at + j) 0 + c * get_or b.now j 0 }
        ensures after { (i : ℕ) → at + length b.now ≤ i →
            get_or sum.new i 0 ≡ get_or sum.old i 0 }
    {
        for j in 0..b.len() {
            sum[at + j] += c * b[j];
        }
    }

    // Adds `c * b` to the entries of `sum` from `at` on, entry by entry.
    #[inline(never)]
    fn add_multiple_at(&self, sum: &mut [u32], at: usize, c: u32, b: &[u32])
        requires sum { let p = number_of self.now in
            (j : ℕ) → j < length sum.old → get_or sum.old j 0 < p }
        requires c { c < number_of self.now }
        requires b { (j : ℕ) → j < length b.now → get_or b.now j 0 < number_of self.now }
        requires len { at + length b.now ≤ length sum.old }
        ensures len { length sum.new ≡ length sum.old }
        ensures before { (i : ℕ) → i < at → get_or sum.new i 0 ≡ get_or sum.old i 0 }
        ensures entries { let p = number_of self.now in (j : ℕ) → j < length b.now →
            get_or sum.new (at + j) 0 ≡ (get_or sum.old (at + j) 0 + c * get_or b.now j 0) % p }
        ensures after { (i : ℕ) → at + length b.now ≤ i →
            get_or sum.new i 0 ≡ get_or sum.old i 0 }
    {
        let prime = *self;
        for j in 0..b.len() {
            sum[at + j] = prime.reduced(sum[at + j] + c * b[j]);
        }
    }

    // Takes remainders where 400,000 products were added to each entry, so that one more fits, and
    // tells how many products are in each entry.
    fn make_room(&self, sum: &mut [u32], terms: u32) -> u32
        requires bound { (j : ℕ) → j < length sum.old → get_or sum.old j 0 ≤ 96 + terms * 9216 }
        ensures len { length sum.new ≡ length sum.old }
        ensures terms { result < 400000 }
        ensures bound { (j : ℕ) → j < length sum.old → get_or sum.new j 0 ≤ 96 + result * 9216 }
        ensures remainders { let p = number_of self.now in
            (j : ℕ) → j < length sum.old → get_or sum.new j 0 % p ≡ get_or sum.old j 0 % p }
    {
        if terms < 400000 {
            return terms;
        }
        self.reduce(sum);
        0
    }

    // The remainder of any number.
    fn remainder(&self, x: u32) -> u32
        ensures { result ≡ x % number_of self.now }
    {
        let quotient = ((x as u64 * self.quotient) >> 32) as u32;
        let rest = x - quotient * self.number;
        if rest < self.number {
            rest
        } else {
            rest - self.number
        }
    }

    // Each entry's remainder.
    fn reduce(&self, sum: &mut [u32])
        ensures len { length sum.new ≡ length sum.old }
        ensures entries { (j : ℕ) → j < length sum.old →
            get_or sum.new j 0 ≡ get_or sum.old j 0 % number_of self.now }
    {
        let prime = *self;
        for j in 0..sum.len() {
            sum[j] = prime.remainder(sum[j]);
        }
    }
}

impl Ring for Prime {
    ghost use Rattle.std.proofs.Common.{lit≤};
    ghost use Rattle.ff_theory.specs.PrimeTable.{prime_elements};
    ghost use Rattle.ff_theory.proofs.Prime.{prime_ring_laws, prime_tests, prime_laws};
    ghost use Rattle.ff_theory.proofs.Prime.{same_residue, eq_same};

    type E = u32;

    ghost elements = { λ k. prime_elements k.number };

    ghost lawful = { λ k. record {
      laws = prime_ring_laws k.number k.known;
      tests = prime_tests k.number;
      finite = prime_laws k.number k.known;
    } };

    ghost laws = { λ k. prime_ring_laws k.number k.known };

    ghost tests = { λ k. prime_tests k.number };

    ghost one_value = { λ k a b. same_residue k.number a b };

    ghost eq_is_same = { λ a b. eq_same a b };

    ghost small = { lit≤ tt };

    fn zero(&self) -> u32 {
        0
    }

    fn one(&self) -> u32 {
        1
    }

    fn add(&self, a: u32, b: u32) -> u32 {
        let sum = a + b;
        if sum < self.number {
            sum
        } else {
            sum - self.number
        }
    }

    fn neg(&self, a: u32) -> u32 {
        if a == 0 { 0 } else { self.number - a }
    }

    fn mul(&self, a: u32, b: u32) -> u32 {
        self.reduced(a * b)
    }

    fn add_scaled(&self, sum: &mut [u32], at: usize, c: u32, b: &[u32]) {
        self.add_multiple_at(sum, at, c, b);
    }

    fn add_product(&self, sum: &mut [u32], a: &[u32], b: &[u32]) {
        let mut terms = 0;
        for i in 0..a.len() {
            terms = self.make_room(sum, terms);
            self.accumulate_at(sum, i, a[i], b);
            terms += 1;
        }
        self.reduce(sum);
    }

    fn add_combination(&self, sum: &mut [u32], factors: &[u32], rows: &[Vec<u32>]) {
        let mut terms = 0;
        for i in 0..rows.len() {
            terms = self.make_room(sum, terms);
            self.accumulate(sum, factors[i], &rows[i]);
            terms += 1;
        }
        self.reduce(sum);
    }
}

impl Field for Prime {
    ghost use Rattle.ff_theory.proofs.Prime.{prime_is_field};

    ghost is_field = { λ k. prime_is_field k.number k.known };

    fn inv(&self, a: u32) -> u32 {
        pow(self, a, self.number as u64 - 2)
    }
}

impl FiniteField for Prime {
    ghost use Rattle.ff_theory.proofs.Prime.{prime_laws, residue_onto};

    ghost is_finite_field = { λ k. prime_laws k.number k.known };

    ghost onto = { λ k a. residue_onto k.number k.known a };

    fn characteristic(&self) -> u64 {
        self.number as u64
    }

    fn frob(&self, a: u32) -> u32 {
        a
    }

    fn root(&self, a: u32) -> u32 {
        a
    }

    fn count(&self) -> u64 {
        self.number as u64
    }

    fn nth(&self, i: u64) -> u32 {
        i as u32
    }

    fn index(&self, a: u32) -> u64 {
        a as u64
    }
}
