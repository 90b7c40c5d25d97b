// A polynomial in x at an element X, exactly: it is cut into blocks of as many coefficients as
// there are powers of X at hand, and the blocks are put together by Horner's rule.
ghost use Rattle.std.specs.Prelude.{◌≡◌, ◌<◌, ℕ, length, IfOk};
ghost use Rattle.ff_theory.specs.Lawful.{lawful_field};
ghost use Rattle.ff_theory.specs.Values.{poly_of, IsPoly, plane_of};
ghost use Rattle.ff_elem.specs.Elem.{algebra_in, elem_of, IsElem};
ghost use Rattle.ff_data.specs.Substitution.{poly_at};
ghost use Rattle.ff_subst.specs.Cleared.{IsCleared, AreCleared, ArePowers, IsPowerList, block_step};

use crate::cleared::{Cleared, append, nothing, plus_combination};
use ff_alg::{FiniteField, NoMemory};
use ff_data::Pair;
use ff_elem::{Alg, Elem};
use ff_poly::rows::width;
use ff_poly::{Plane, Poly};
use std::alloc::Global;

// The powers of an element X from 0 on, over one denominator, and the power after the last one.
#[derive(Drop)]
pub struct PowerList {
    pub list: Cleared,
    pub next: Elem,
}

// The element 1 as a list.
fn unit<K: FiniteField<E = u32>>(alloc: Global, alg: &Alg<K>) -> Result<Cleared, NoMemory>
    ensures cleared { IfOk result (IsCleared (K.elements alg.now.k)) }
    ensures count { IfOk result (λ r. length r.planes ≡ 1) }
    ensures element { let L = K.lawful alg.now.k in let f = alg.now.f in let A = algebra_in L f in
        IfOk result (λ r. (u : ℕ → A.carrier) → A.one ≡ u 0 → AreCleared L f u r) }
{
    let none = nothing(alloc, &alg.k)?;
    let one = alg.one(alloc)?;
    append(alloc, alg, none, &one)
}

// The power 1 of x, and x as the next one.
fn first_power<K: FiniteField<E = u32>>(
    alloc: Global,
    alg: &Alg<K>,
    x: &Elem,
) -> Result<PowerList, NoMemory>
    requires { IsElem (K.lawful alg.now.k) alg.now.f x.now }
    ensures { let L = K.lawful alg.now.k in let f = alg.now.f in
        IfOk result (ArePowers L f (elem_of L f x.now)) }
{
    let list = unit(alloc, alg)?;
    let next = x.copy(alloc)?;
    Ok(PowerList { list, next })
}

// One power of x more.
fn more_powers<K: FiniteField<E = u32>>(
    alloc: Global,
    alg: &Alg<K>,
    x: &Elem,
    at: PowerList,
) -> Result<PowerList, NoMemory>
    requires x { IsElem (K.lawful alg.now.k) alg.now.f x.now }
    requires at { let L = K.lawful alg.now.k in let f = alg.now.f in
        ArePowers L f (elem_of L f x.now) at }
    ensures { let L = K.lawful alg.now.k in let f = alg.now.f in
        IfOk result (ArePowers L f (elem_of L f x.now)) }
{
    let list = append(alloc, alg, at.list, &at.next)?;
    let next = alg.mul(alloc, x, &at.next)?;
    Ok(PowerList { list, next })
}

// The powers of x from 0 on, `count` of them, and the next one.
pub fn power_list<K: FiniteField<E = u32>>(
    alloc: Global,
    alg: &Alg<K>,
    x: &Elem,
    count: usize,
) -> Result<PowerList, NoMemory>
    requires x { IsElem (K.lawful alg.now.k) alg.now.f x.now }
    requires some { 0 < count }
    ensures { let L = K.lawful alg.now.k in let f = alg.now.f in
        IfOk result (ArePowers L f (elem_of L f x.now)) }
{
    let mut at = first_power(alloc, alg, x)?;
    for _i in 1..count {
        at = more_powers(alloc, alg, x, at)?;
    }
    Ok(at)
}

// One step of Horner's rule: the value times the power after the last one, and the coefficients of
// `x^i`, `x^(i + 1)` and so on times the powers.
fn step<K: FiniteField<E = u32>>(
    alloc: Global,
    alg: &Alg<K>,
    at: &PowerList,
    p: &Poly,
    i: usize,
    value: &Elem,
) -> Result<Elem, NoMemory>
    requires at { IsPowerList (K.lawful alg.now.k) alg.now.f at.now }
    requires p { IsPoly (K.elements alg.now.k) p.now }
    requires value { IsElem (K.lawful alg.now.k) alg.now.f value.now }
    ensures element { let L = K.lawful alg.now.k in IfOk result (IsElem L alg.now.f) }
    ensures value { let L = K.lawful alg.now.k in let f = alg.now.f in let A = algebra_in L f in
        IfOk result (λ r. (X : A.carrier) → ArePowers L f X at.now → elem_of L f r ≡
        block_step L f p.now i (length at.now.list.planes) X (elem_of L f value.now)) }
{
    let product = alg.mul(alloc, &at.next, value)?;
    plus_combination(alloc, alg, &at.list, p, i, &product)
}

// A polynomial in x at X, whose powers are at hand.
pub fn value_of_poly<K: FiniteField<E = u32>>(
    alloc: Global,
    alg: &Alg<K>,
    at: &PowerList,
    p: &Poly,
) -> Result<Elem, NoMemory>
    requires at { IsPowerList (K.lawful alg.now.k) alg.now.f at.now }
    requires p { IsPoly (K.elements alg.now.k) p.now }
    ensures element { let L = K.lawful alg.now.k in IfOk result (IsElem L alg.now.f) }
    ensures value { let F = K.elements alg.now.k in let L = K.lawful alg.now.k in
        let f = alg.now.f in IfOk result (λ r. (X : (algebra_in L f).carrier) →
        ArePowers L f X at.now → elem_of L f r ≡
        poly_at (lawful_field L) (plane_of F f) X (poly_of F p.now)) }
{
    let count = at.list.planes.list().len();
    let mut value = alg.zero(alloc)?;
    let mut b = p.coeffs().len() / count + 1;
    while b > 0 {
        b -= 1;
        value = step(alloc, alg, at, p, b * count, &value)?;
    }
    Ok(value)
}

// The number of coefficients of the rows, or the last number where there are more.
fn size(rows: &[Poly]) -> usize {
    let mut size: usize = 0;
    for row in rows {
        size = size.saturating_add(row.coeffs().len());
    }
    size
}

// The number of coefficients of an element.
fn element_size(e: &Elem) -> usize {
    size(e.num.rows()).saturating_add(e.den.coeffs().len())
}

// The greatest number of coefficients of a part of an element.
fn element_width(e: &Elem) -> usize {
    width(e.num.rows()).max(e.den.coeffs().len())
}

// How many powers serve best for polynomials of this width and with this many coefficients in all:
// about four times as many as there are blocks then, since a block costs more than a power, and no
// more than the width.
fn power_count(size: usize, width: usize) -> usize
    ensures { 0 < result }
{
    let mut count: usize = 1;
    let mut square: usize = 1;
    while count < width && square / 4 < size {
        square = square
            .saturating_add(count)
            .saturating_add(count)
            .saturating_add(1);
        count += 1;
    }
    count
}

// How many powers of X serve best for the elements of a pair and the rows of an equation at X.
pub fn pair_count(f: &Plane, pair: &Pair) -> usize
    ensures { 0 < result }
{
    let elements = element_size(&pair.x).saturating_add(element_size(&pair.y));
    let widest = element_width(&pair.x).max(element_width(&pair.y));
    power_count(
        size(f.rows()).saturating_add(elements),
        width(f.rows()).max(widest),
    )
}

// The like for one element.
pub fn element_count(e: &Elem) -> usize
    ensures { 0 < result }
{
    power_count(element_size(e), element_width(e))
}

// The like for the rows of an equation.
pub fn plane_count(f: &Plane) -> usize
    ensures { 0 < result }
{
    power_count(size(f.rows()), width(f.rows()))
}
