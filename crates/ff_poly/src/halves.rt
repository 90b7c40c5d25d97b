// Products of lists of equal lengths by halves (Karatsuba's rule), in place.
ghost use Rattle.std.specs.Prelude.{◌≡◌, ◌+◌, ◌*◌, ◌<◌, ◌≤◌, length, take, drop};
ghost use Rattle.std.specs.List.{All};
ghost use Rattle.ff_theory.specs.Ring.{IsElement};
ghost use Rattle.ff_theory.specs.Values.{poly_of, polys_over};

use crate::coefficients::{add_product, add_to};
use ff_alg::FiniteField;

/// Up to this length products are added row by row.
pub const LONG: usize = 128;

/// Sets `out` to the product, row by row.
fn set_rows<K: FiniteField<E = u32>>(k: &K, out: &mut [u32], a: &[u32], b: &[u32])
    requires a { All (IsElement (K.elements k.now)) a.now }
    requires b { All (IsElement (K.elements k.now)) b.now }
    requires room { length a.now + length b.now ≤ length out.old + 1 }
    ensures len { length out.new ≡ length out.old }
    ensures each { All (IsElement (K.elements k.now)) out.new }
    ensures value { let F = K.elements k.now in let P = polys_over F in
        poly_of F out.new ≡ P.mul (poly_of F a.now) (poly_of F b.now) }
{
    out.fill(k.zero());
    add_product(k, out, a, b);
}

/// Sets `out` to the sum of two lists of its length.
fn set_sum<K: FiniteField<E = u32>>(k: &K, out: &mut [u32], a: &[u32], b: &[u32])
    requires a { All (IsElement (K.elements k.now)) a.now }
    requires b { All (IsElement (K.elements k.now)) b.now }
    requires first { length a.now ≡ length out.old }
    requires second { length b.now ≡ length out.old }
    ensures len { length out.new ≡ length out.old }
    ensures each { All (IsElement (K.elements k.now)) out.new }
    ensures value { let F = K.elements k.now in let P = polys_over F in
        poly_of F out.new ≡ P.add (poly_of F a.now) (poly_of F b.now) }
{
    out.copy_from_slice(a);
    k.add_scaled(out, 0, k.one(), b);
}

/// Sets `t` to the product of the sums of the halves of `a` and `b`, by way of `rest`.
#[cycle(halves)]
fn set_middle<K: FiniteField<E = u32>>(
    k: &K,
    t: &mut [u32],
    a: &[u32],
    b: &[u32],
    h: usize,
    rest: &mut [u32],
)
    requires a { All (IsElement (K.elements k.now)) a.now }
    requires b { All (IsElement (K.elements k.now)) b.now }
    requires some { 1 < h }
    requires first { length a.now ≡ 2 * h }
    requires second { length b.now ≡ 2 * h }
    requires t { length t.old ≡ 2 * h }
    requires rest { 6 * h ≤ length rest.old }
    ensures len { length t.new ≡ length t.old }
    ensures each { All (IsElement (K.elements k.now)) t.new }
    ensures value { let F = K.elements k.now in let P = polys_over F in
        poly_of F t.new ≡ P.mul
        (P.add (poly_of F (take h a.now)) (poly_of F (drop h a.now)))
        (P.add (poly_of F (take h b.now)) (poly_of F (drop h b.now))) }
{
    let (first, rest) = rest.split_at_mut(h);
    let (second, rest) = rest.split_at_mut(h);
    set_sum(k, first, &a[..h], &a[h..]);
    set_sum(k, second, &b[..h], &b[h..]);
    set_product(k, t, first, second, rest);
}

/// Sets `out` to the product of two lists of one length, by way of `scratch`.
#[cycle(halves)]
pub fn set_product<K: FiniteField<E = u32>>(
    k: &K,
    out: &mut [u32],
    a: &[u32],
    b: &[u32],
    scratch: &mut [u32],
)
    requires a { All (IsElement (K.elements k.now)) a.now }
    requires b { All (IsElement (K.elements k.now)) b.now }
    requires equal { length a.now ≡ length b.now }
    requires out { length out.old ≡ 2 * length a.now }
    requires scratch { 4 * length a.now ≤ length scratch.old }
    ensures len { length out.new ≡ length out.old }
    ensures each { All (IsElement (K.elements k.now)) out.new }
    ensures value { let F = K.elements k.now in let P = polys_over F in
        poly_of F out.new ≡ P.mul (poly_of F a.now) (poly_of F b.now) }
{
    let n = a.len();
    let h = n / 2;
    if n <= LONG || n % 2 == 1 {
        set_rows(k, out, a, b);
        return;
    }
    let (low, high) = out.split_at_mut(n);
    set_product(k, low, &a[..h], &b[..h], scratch);
    set_product(k, high, &a[h..], &b[h..], scratch);
    let (t, rest) = scratch.split_at_mut(n);
    set_middle(k, t, a, b, h, rest);
    let minus = k.neg(k.one());
    k.add_scaled(t, 0, minus, low);
    k.add_scaled(t, 0, minus, high);
    k.add_scaled(out, h, k.one(), t);
}

/// Sets `out` to a shorter list, with zeros after it.
fn set_padded<K: FiniteField<E = u32>>(k: &K, out: &mut [u32], a: &[u32])
    requires a { All (IsElement (K.elements k.now)) a.now }
    requires room { length a.now ≤ length out.old }
    ensures len { length out.new ≡ length out.old }
    ensures each { All (IsElement (K.elements k.now)) out.new }
    ensures value { let F = K.elements k.now in poly_of F out.new ≡ poly_of F a.now }
{
    out.fill(k.zero());
    add_to(k, out, a);
}

/// Sets the first `2 * n` entries of `work` to the product of two lists of at most `n` entries.
pub fn set_long_product<K: FiniteField<E = u32>>(
    k: &K,
    work: &mut [u32],
    a: &[u32],
    b: &[u32],
    n: usize,
)
    requires a { All (IsElement (K.elements k.now)) a.now }
    requires b { All (IsElement (K.elements k.now)) b.now }
    requires first { length a.now ≤ n }
    requires second { length b.now ≤ n }
    requires work { length work.old ≡ 8 * n }
    ensures len { length work.new ≡ length work.old }
    ensures each { All (IsElement (K.elements k.now)) (take (2 * n) work.new) }
    ensures value { let F = K.elements k.now in let P = polys_over F in
        poly_of F (take (2 * n) work.new) ≡ P.mul (poly_of F a.now) (poly_of F b.now) }
{
    let (out, rest) = work.split_at_mut(2 * n);
    let (first, rest) = rest.split_at_mut(n);
    let (second, scratch) = rest.split_at_mut(n);
    set_padded(k, first, a);
    set_padded(k, second, b);
    set_product(k, out, first, second, scratch);
}
