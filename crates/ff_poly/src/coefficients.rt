// Arithmetic on coefficient lists in place.
ghost use Rattle.std.specs.Prelude.{◌≡◌, ◌+◌, ◌≤◌, length, map, take, IsTrue};
ghost use Rattle.std.specs.List.{All};
ghost use Rattle.ff_theory.specs.Ring.{IsElement};
ghost use Rattle.ff_theory.specs.Poly.{ends_in_nonzero};
ghost use Rattle.ff_theory.specs.Values.{poly_of, polys_over};
ghost use Rattle.ff_theory.specs.Monomial.{monomial};

use ff_alg::{FiniteField, is_zero};

/// Adds `b` to `sum`.
pub fn add_to<K: FiniteField<E = u32>>(k: &K, sum: &mut [u32], b: &[u32])
    requires sum { All (IsElement (K.elements k.now)) sum.old }
    requires b { All (IsElement (K.elements k.now)) b.now }
    requires room { length b.now ≤ length sum.old }
    ensures len { length sum.new ≡ length sum.old }
    ensures each { All (IsElement (K.elements k.now)) sum.new }
    ensures value { let F = K.elements k.now in let P = polys_over F in
        poly_of F sum.new ≡ P.add (poly_of F sum.old) (poly_of F b.now) }
{
    for i in 0..b.len() {
        sum[i] = k.add(sum[i], b[i]);
    }
}

/// Negates each entry.
pub fn negate<K: FiniteField<E = u32>>(k: &K, list: &mut [u32])
    requires { All (IsElement (K.elements k.now)) list.old }
    ensures len { length list.new ≡ length list.old }
    ensures each { All (IsElement (K.elements k.now)) list.new }
    ensures value { let F = K.elements k.now in let P = polys_over F in
        poly_of F list.new ≡ P.neg (poly_of F list.old) }
{
    for i in 0..list.len() {
        list[i] = k.neg(list[i]);
    }
}

/// Multiplies each entry by `c`.
pub fn scale<K: FiniteField<E = u32>>(k: &K, list: &mut [u32], c: u32)
    requires list { All (IsElement (K.elements k.now)) list.old }
    requires c { IsElement (K.elements k.now) c }
    ensures len { length list.new ≡ length list.old }
    ensures each { All (IsElement (K.elements k.now)) list.new }
    ensures value { let F = K.elements k.now in let P = polys_over F in
        poly_of F list.new ≡ P.mul (monomial F.ring (F.value c) 0) (poly_of F list.old) }
{
    for i in 0..list.len() {
        list[i] = k.mul(c, list[i]);
    }
}

/// Adds the product `a * b` to `sum`, a row for each entry of the shorter list.
pub fn add_product<K: FiniteField<E = u32>>(k: &K, sum: &mut [u32], a: &[u32], b: &[u32])
    requires sum { All (IsElement (K.elements k.now)) sum.old }
    requires a { All (IsElement (K.elements k.now)) a.now }
    requires b { All (IsElement (K.elements k.now)) b.now }
    requires room { length a.now + length b.now ≤ length sum.old + 1 }
    ensures len { length sum.new ≡ length sum.old }
    ensures each { All (IsElement (K.elements k.now)) sum.new }
    ensures value { let F = K.elements k.now in let P = polys_over F in
        poly_of F sum.new ≡ P.add (poly_of F sum.old) (P.mul (poly_of F a.now) (poly_of F b.now)) }
{
    if a.len() <= b.len() {
        k.add_product(sum, a, b);
    } else {
        k.add_product(sum, b, a);
    }
}

/// How many entries are left without the zeros at the end.
pub fn significant_len<K: FiniteField<E = u32>>(k: &K, list: &[u32]) -> usize
    requires { All (IsElement (K.elements k.now)) list.now }
    ensures within { result ≤ length list.now }
    ensures canonical { let F = K.elements k.now in
        IsTrue (ends_in_nonzero F.ring (map F.value (take result list.now))) }
    ensures value { let F = K.elements k.now in
        poly_of F (take result list.now) ≡ poly_of F list.now }
{
    let mut n = list.len();
    while n > 0 {
        if !is_zero(k, list[n - 1]) {
            return n;
        }
        n -= 1;
    }
    0
}
