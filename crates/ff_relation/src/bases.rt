// Powers in the ring of a pole system, and what reduction modulo their multiples needs.
ghost use Rattle.std.specs.Prelude.{◌≡◌, ℕ, ◌+◌, ◌-◌, ◌*◌, ◌/◌, ◌%◌, ◌<◌, ◌≤◌, length, IfOk};
ghost use Rattle.std.specs.List.{All, Contains};
ghost use Rattle.ff_theory.specs.Ring.{IsElement};
ghost use Rattle.ff_theory.specs.Vector.{IsVector};
ghost use Rattle.ff_theory.specs.Values.{x_size};
ghost use Rattle.ff_table.specs.Level.{at_level};
ghost use Rattle.ff_table.specs.Powers.{IsPrimeTo};
ghost use Rattle.ff_table.specs.Table.{Weighs};
ghost use Rattle.ff_data.specs.Systems.{AreCoords};
ghost use Rattle.ff_ring.specs.Ring.{HasTable, MeetsRule, AreCoordsList};
ghost use Rattle.ff_ring.specs.Ring.{table_in, ring_in, element_in};
ghost use Rattle.ff_relation.specs.Reduction.{IsPowerBasis};
ghost use Rattle.ff_relation.specs.InRing.{number_at, basis_in, ArePowersOf, AreInverses};
ghost use Rattle.ff_relation.specs.InRing.{AreExponents, AreLimits, HasGaps, HaveGaps, PowersOf};

use crate::choice::weight_of;
use ff_alg::{FiniteField, NoMemory};
use ff_data::System;
use ff_elem::PolyList;
use ff_poly::Poly;
use ff_poly::rows::width;
use ff_ring::{basis_vector, inverse_or_zero, leading_coefficient, ring_mul, top};
use std::alloc::Global;

/// The monomial `z^degree * b_class`, whose level is not the weight of a multiple of a power.
#[derive(Clone, Copy)]
pub struct Gap {
    pub class: usize,
    pub degree: usize,
}

/// The powers w^0, .., w^(e-1) of an element whose weight W is prime to e. For the class l of
/// weights modulo e, `exponents[l]` is the j with j * W in the class, and from `limits[l]` on the
/// powers of z before b_l have the weight of a multiple of w^j; the others are the `gaps`.
/// `inverses[j]` is the inverse of the leading coefficient of w^j, and no coordinate of a power has
/// more than `width` coefficients.
#[derive(Drop)]
pub struct PowerBasis {
    pub exponents: Vec<usize>,
    pub limits: Vec<usize>,
    pub gaps: Vec<Gap>,
    pub inverses: Vec<u32>,
    pub list: Vec<PolyList>,
    pub width: usize,
}

/// The product of two elements.
pub fn product<K: FiniteField<E = u32>>(
    alloc: Global,
    k: &K,
    s: &System,
    a: &[Poly],
    b: &[Poly],
) -> Result<PolyList, NoMemory>
    requires table { HasTable (K.elements k.now) s.now }
    requires a { AreCoords (K.elements k.now) s.now a.now }
    requires b { AreCoords (K.elements k.now) s.now b.now }
    ensures form { IfOk result (AreCoords (K.elements k.now) s.now) }
    ensures exact { let F = K.elements k.now in let T = ring_in F s.now in
        IfOk result (λ r. element_in F s.now r ≡
        T.mul (element_in F s.now a.now) (element_in F s.now b.now)) }
{
    Ok(PolyList {
        items: ring_mul(alloc, k, s, a, b)?,
    })
}

/// The coordinates of a basis element.
pub fn basis_element<K: FiniteField<E = u32>>(
    alloc: Global,
    k: &K,
    s: &System,
    i: usize,
) -> Result<PolyList, NoMemory>
    ensures form { IfOk result (AreCoords (K.elements k.now) s.now) }
    ensures exact { let F = K.elements k.now in length s.now.weights ≡ s.now.e →
        IfOk result (λ r. element_in F s.now r ≡ basis_in F s.now i) }
{
    Ok(PolyList {
        items: basis_vector(alloc, k, s.e as usize, i)?,
    })
}

/// The coordinates of the powers of `a` with the exponents 0 to `n`. `NoMemory` is the only error.
pub fn powers<K: FiniteField<E = u32>>(
    alloc: Global,
    k: &K,
    s: &System,
    a: &[Poly],
    n: usize,
) -> Result<Vec<PolyList>, NoMemory>
    requires table { HasTable (K.elements k.now) s.now }
    requires a { AreCoords (K.elements k.now) s.now a.now }
    ensures form { IfOk result (λ r. AreCoordsList (K.elements k.now) s.now (n + 1) r.items) }
    ensures exact { let F = K.elements k.now in MeetsRule F s.now →
        IfOk result (λ r. ArePowersOf F s.now (element_in F s.now a.now) r.items) }
{
    let mut list = Vec::new(alloc);
    list.push(basis_element(alloc, k, s, 0)?)?;
    for i in 0..n {
        let next = product(alloc, k, s, list[i].rows(), a)?;
        list.push(next)?;
    }
    Ok(list)
}

/// The class of j times a weight.
fn class_of_multiple(e: u32, j: usize, weight: u32) -> usize
    requires positive { 0 < e }
    requires j { j < e }
    ensures below { result < e }
    ensures value { result ≡ (j * weight) % e }
{
    (j as u64 * weight as u64 % e as u64) as usize
}

/// `n` zeros.
fn zeros(alloc: Global, n: u32) -> Result<Vec<usize>, NoMemory>
    ensures count { IfOk result (λ r. length r.items ≡ n) }
    ensures each { IfOk result (λ r. All (λ j. j ≡ 0) r.items) }
{
    let mut zeros = Vec::with_capacity(alloc, n as usize)?;
    for _l in 0..n {
        zeros.push(0)?;
    }
    Ok(zeros)
}

/// Enters for each class the j below e with j times the weight in it.
fn enter_exponents(e: u32, weight: u32, exponents: &mut [usize])
    requires positive { 0 < e }
    requires count { length exponents.old ≡ e }
    requires each { All (λ j. j < e) exponents.old }
    ensures count { length exponents.new ≡ e }
    ensures each { All (λ j. j < e) exponents.new }
    ensures class { (j : ℕ) → j < e →
        (number_at exponents.new ((j * weight) % e) * weight) % e ≡ (j * weight) % e }
{
    for j in 0..exponents.len() {
        exponents[class_of_multiple(e, j, weight)] = j;
    }
}

/// For each class the j below e with j times the weight in it, and 0 where there is none.
fn exponents(alloc: Global, e: u32, weight: u32) -> Result<Vec<usize>, NoMemory>
    requires positive { 0 < e }
    ensures count { IfOk result (λ r. length r.items ≡ e) }
    ensures each { IfOk result (λ r. All (λ j. j < e) r.items) }
    ensures class { IsPrimeTo e weight → IfOk result (λ r. AreExponents e weight r.items) }
{
    let mut exponents = zeros(alloc, e)?;
    enter_exponents(e, weight, &mut exponents);
    Ok(exponents)
}

/// The number of levels of a class with the weight m that are less than j times a weight.
fn limit(e: u32, j: usize, weight: u32, m: u32) -> usize
    requires positive { 0 < e }
    requires j { j < e }
    ensures { result ≡ (j * weight - m) / e }
{
    ((j as u64 * weight as u64).saturating_sub(m as u64) / e as u64) as usize
}

/// The limit of each class.
fn limits(
    alloc: Global,
    s: &System,
    exponents: &[usize],
    weight: u32,
) -> Result<Vec<usize>, NoMemory>
    requires positive { 0 < s.now.e }
    requires weights { length s.now.weights ≡ s.now.e }
    requires count { length exponents.now ≡ s.now.e }
    requires each { All (λ j. j < s.now.e) exponents.now }
    ensures count { IfOk result (λ r. length r.items ≡ s.now.e) }
    ensures value { IfOk result (λ r. AreLimits s.now weight exponents.now r.items) }
{
    let mut limits = Vec::with_capacity(alloc, exponents.len())?;
    for l in 0..exponents.len() {
        limits.push(limit(s.e, exponents[l], weight, weight_of(s, l)))?;
    }
    Ok(limits)
}

/// The gaps with the class `class`, after those in the list.
fn push_gaps(gaps: &mut Vec<Gap>, class: usize, limit: usize, e: u32) -> Result<(), NoMemory>
    requires class { class < e }
    requires old { All (λ g. g.class < e) gaps.old.items }
    ensures form { IfOk result (λ _. All (λ g. g.class < e) gaps.new.items) }
    ensures kept { IfOk result (λ _. (g : Gap) → Contains gaps.old.items g →
        Contains gaps.new.items g) }
    ensures new { IfOk result (λ _. HasGaps class limit gaps.new.items) }
{
    let _count = e;
    for degree in 0..limit {
        gaps.push(Gap { class, degree })?;
    }
    Ok(())
}

/// The gaps of all classes.
fn gaps(alloc: Global, limits: &[usize], e: u32) -> Result<Vec<Gap>, NoMemory>
    requires { length limits.now ≡ e }
    ensures form { IfOk result (λ r. All (λ g. g.class < e) r.items) }
    ensures all { IfOk result (λ r. HaveGaps limits.now r.items) }
{
    let mut gaps = Vec::new(alloc);
    for l in 0..limits.len() {
        push_gaps(&mut gaps, l, limits[l], e)?;
    }
    Ok(gaps)
}

/// The inverse of the leading coefficient, and 0 for 0.
fn inverse_of_leading<K: FiniteField<E = u32>>(k: &K, s: &System, c: &[Poly]) -> u32
    requires weights { length s.now.weights ≡ s.now.e }
    requires c { AreCoords (K.elements k.now) s.now c.now }
    ensures element { IsElement (K.elements k.now) result }
    ensures value { let F = K.elements k.now in let S = table_in F s.now in MeetsRule F s.now →
        HasTable F s.now → (t : ℕ) → Weighs F.ring S (element_in F s.now c.now) t →
        F.value result ≡ F.inverse (at_level F.ring S t (element_in F s.now c.now)) }
{
    match top(s, c) {
        Some(term) => inverse_or_zero(k, leading_coefficient(k, &c[term.class])),
        None => k.zero(),
    }
}

/// These for each element of a list.
fn inverses<K: FiniteField<E = u32>>(
    alloc: Global,
    k: &K,
    s: &System,
    list: &[PolyList],
) -> Result<Vec<u32>, NoMemory>
    requires weights { length s.now.weights ≡ s.now.e }
    requires list { All (AreCoords (K.elements k.now) s.now) list.now }
    ensures form { IfOk result (λ r. IsVector (K.elements k.now) (length list.now) r.items) }
    ensures value { let F = K.elements k.now in MeetsRule F s.now → HasTable F s.now →
        (w : (ring_in F s.now).carrier) (W : ℕ) → Weighs F.ring (table_in F s.now) w W →
        ArePowersOf F s.now w list.now → IfOk result (λ r. AreInverses F s.now w W r.items) }
{
    let mut inverses = Vec::with_capacity(alloc, list.len())?;
    for i in 0..list.len() {
        inverses.push(inverse_of_leading(k, s, list[i].rows()))?;
    }
    Ok(inverses)
}

/// The greatest number of coefficients of a polynomial in the lists.
fn greatest_width(lists: &[PolyList]) -> usize
    ensures { All (λ c. x_size c ≤ result) lists.now }
{
    let mut n = 0;
    for list in lists {
        n = n.max(width(list.rows()));
    }
    n
}

/// What reduction modulo the multiples of the powers w^0, .., w^(e-1) in the list needs, for the
/// element w of that weight.
pub fn power_basis<K: FiniteField<E = u32>>(
    alloc: Global,
    k: &K,
    s: &System,
    list: Vec<PolyList>,
    weight: u32,
) -> Result<PowerBasis, NoMemory>
    requires table { HasTable (K.elements k.now) s.now }
    requires list { AreCoordsList (K.elements k.now) s.now s.now.e list.items }
    ensures form { IfOk result (IsPowerBasis (K.elements k.now) s.now) }
    ensures exact { let F = K.elements k.now in MeetsRule F s.now →
        (w : (ring_in F s.now).carrier) → Weighs F.ring (table_in F s.now) w weight →
        IsPrimeTo (length s.now.weights) weight → ArePowersOf F s.now w list.items →
        IfOk result (PowersOf F s.now w) }
{
    let exponents = exponents(alloc, s.e, weight)?;
    let limits = limits(alloc, s, &exponents, weight)?;
    let gaps = gaps(alloc, &limits, s.e)?;
    let inverses = inverses(alloc, k, s, &list)?;
    let width = greatest_width(&list);
    Ok(PowerBasis {
        exponents,
        limits,
        gaps,
        inverses,
        list,
        width,
    })
}
