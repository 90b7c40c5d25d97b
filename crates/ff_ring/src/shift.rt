// Polynomials over the ring of a pole system, by rising power: moved by a monomial, and values.
ghost use Rattle.std.specs.Prelude.{◌≡◌, ◌+◌, ◌<◌, ◌≤◌, [], ◌∷◌, length, get_or, IfOk};
ghost use Rattle.std.specs.List.{All};
ghost use Rattle.ff_theory.specs.Ring.{IsElement};
ghost use Rattle.ff_data.specs.Systems.{AreCoords};
ghost use Rattle.ff_table.specs.Shift.{value_at, shift, carry as carry_of};
ghost use Rattle.ff_ring.specs.Ring.{HasTable, AreCoordsList, IsMonomial, ring_in, element_in};
ghost use Rattle.ff_ring.specs.Ring.{elements_in, monomial_in};

use crate::level::{Monomial, monomial_poly};
use crate::linear::{ring_add, ring_scale, zero_coords};
use crate::product::{plus_basis_product, ring_mul};
use ff_alg::{FiniteField, NoMemory};
use ff_data::System;
use ff_elem::PolyList;
use ff_poly::Poly;
use std::alloc::Global;

/// The sum of h and the product of a monomial and x.
fn plus_monomial_product<K: FiniteField<E = u32>>(
    alloc: Global,
    k: &K,
    s: &System,
    h: &[Poly],
    a: &Monomial,
    x: &[Poly],
) -> Result<PolyList, NoMemory>
    requires table { HasTable (K.elements k.now) s.now }
    requires a { IsMonomial (K.elements k.now) s.now a.now }
    requires h { AreCoords (K.elements k.now) s.now h.now }
    requires x { AreCoords (K.elements k.now) s.now x.now }
    ensures coords { IfOk result (AreCoords (K.elements k.now) s.now) }
    ensures value { let F = K.elements k.now in let T = ring_in F s.now in
        IfOk result (λ r. element_in F s.now r ≡ T.add (element_in F s.now h.now)
        (T.mul (monomial_in F s.now a.now) (element_in F s.now x.now))) }
{
    let factor = monomial_poly(alloc, k, a.c, a.power)?;
    let y = ring_scale(alloc, k, &factor, x)?;
    Ok(PolyList {
        items: plus_basis_product(alloc, k, s, h, a.class, &y)?,
    })
}

/// Entry i of the list with h before its first entry.
fn entry_after<'a>(h: &'a PolyList, list: &'a [PolyList], i: usize) -> &'a PolyList
    requires { i ≤ length list.now }
    ensures { result.now ≡ get_or (h.now ∷ list.now) i [] }
{
    if i == 0 { h } else { &list[i - 1] }
}

/// The coefficients of h + (a + Z) * p, for a polynomial p in Z.
fn carry<K: FiniteField<E = u32>>(
    alloc: Global,
    k: &K,
    s: &System,
    a: &Monomial,
    h: &PolyList,
    p: &[PolyList],
) -> Result<Vec<PolyList>, NoMemory>
    requires table { HasTable (K.elements k.now) s.now }
    requires a { IsMonomial (K.elements k.now) s.now a.now }
    requires h { AreCoords (K.elements k.now) s.now h.now }
    requires p { All (AreCoords (K.elements k.now) s.now) p.now }
    ensures coords { let F = K.elements k.now in
        IfOk result (λ r. AreCoordsList F s.now (length p.now + 1) r.items) }
    ensures value { let F = K.elements k.now in
        IfOk result (λ r. elements_in F s.now r.items ≡ carry_of (ring_in F s.now)
        (monomial_in F s.now a.now) (element_in F s.now h.now) (elements_in F s.now p.now)) }
{
    let mut sum = Vec::new(alloc);
    for i in 0..p.len() {
        let low = entry_after(h, p, i).rows();
        sum.push(plus_monomial_product(alloc, k, s, low, a, p[i].rows())?)?;
    }
    sum.push(entry_after(h, p, p.len()).copy(alloc)?)?;
    Ok(sum)
}

/// The coefficients of p(a + Z), for a polynomial p in Z over the ring of a pole system and a
/// monomial a of the ring: Horner's scheme, repeated. `NoMemory` is the only error.
pub fn ring_shift<K: FiniteField<E = u32>>(
    alloc: Global,
    k: &K,
    s: &System,
    a: &Monomial,
    p: &[PolyList],
) -> Result<Vec<PolyList>, NoMemory>
    requires table { HasTable (K.elements k.now) s.now }
    requires a { IsMonomial (K.elements k.now) s.now a.now }
    requires p { All (AreCoords (K.elements k.now) s.now) p.now }
    ensures coords { let F = K.elements k.now in
        IfOk result (λ r. AreCoordsList F s.now (length p.now) r.items) }
    ensures value { let F = K.elements k.now in
        IfOk result (λ r. elements_in F s.now r.items ≡ shift (ring_in F s.now)
        (monomial_in F s.now a.now) (elements_in F s.now p.now)) }
{
    let mut moved = Vec::new(alloc);
    let mut i = p.len();
    while i > 0 {
        i -= 1;
        moved = carry(alloc, k, s, a, &p[i], &moved)?;
    }
    Ok(moved)
}

/// The sum `h + a * b`.
fn plus_ring_product<K: FiniteField<E = u32>>(
    alloc: Global,
    k: &K,
    s: &System,
    h: &[Poly],
    a: &[Poly],
    b: &[Poly],
) -> Result<Vec<Poly>, NoMemory>
    requires table { HasTable (K.elements k.now) s.now }
    requires h { AreCoords (K.elements k.now) s.now h.now }
    requires a { AreCoords (K.elements k.now) s.now a.now }
    requires b { AreCoords (K.elements k.now) s.now b.now }
    ensures coords { IfOk result (λ r. AreCoords (K.elements k.now) s.now r.items) }
    ensures value { let F = K.elements k.now in let T = ring_in F s.now in
        IfOk result (λ r. element_in F s.now r.items ≡ T.add (element_in F s.now h.now)
        (T.mul (element_in F s.now a.now) (element_in F s.now b.now))) }
{
    let product = ring_mul(alloc, k, s, a, b)?;
    ring_add(alloc, k, h, &product)
}

/// The value of p at a. `NoMemory` is the only error.
pub fn ring_eval<K: FiniteField<E = u32>>(
    alloc: Global,
    k: &K,
    s: &System,
    p: &[PolyList],
    a: &[Poly],
) -> Result<Vec<Poly>, NoMemory>
    requires table { HasTable (K.elements k.now) s.now }
    requires p { All (AreCoords (K.elements k.now) s.now) p.now }
    requires a { AreCoords (K.elements k.now) s.now a.now }
    ensures coords { IfOk result (λ r. AreCoords (K.elements k.now) s.now r.items) }
    ensures value { let F = K.elements k.now in
        IfOk result (λ r. element_in F s.now r.items ≡ value_at (ring_in F s.now)
        (element_in F s.now a.now) (elements_in F s.now p.now)) }
{
    let mut value = zero_coords(alloc, k, a.len())?;
    let mut i = p.len();
    while i > 0 {
        i -= 1;
        value = plus_ring_product(alloc, k, s, p[i].rows(), a, &value)?;
    }
    Ok(value)
}
