// The relation, and the basis written over the powers of w.
ghost use Rattle.std.specs.Prelude.{◌≡◌, ℕ, ◌+◌, ◌<◌, length, IfOk};
ghost use Rattle.ff_theory.specs.Values.{ArePolys, IsPoly, polys_over};
ghost use Rattle.ff_table.specs.Powers.{IsRelation};
ghost use Rattle.ff_data.specs.Systems.{AreCoords, AreOverMonic, weight_at};
ghost use Rattle.ff_ring.specs.Entries.{entry_at};
ghost use Rattle.ff_ring.specs.Ring.{HasTable, MeetsRule, AreCoordsList};
ghost use Rattle.ff_ring.specs.Ring.{table_in, ring_in, element_in};
ghost use Rattle.ff_forms.specs.Forms.{HasRelationForm};
ghost use Rattle.ff_relation.specs.Combination.{IsDifference};
ghost use Rattle.ff_relation.specs.Reduction.{IsPowerBasis, IsMonic};
ghost use Rattle.ff_relation.specs.InRing.{PowersOf, IsRelationOf, basis_in, multiple_in};
ghost use Rattle.ff_relation.specs.InRing.{difference_in, IsClearFrom, IsSumOf, IsWritten};
ghost use Rattle.ff_relation.specs.InRing.{AreWritten, WritesBasis};
ghost use Rattle.std.specs.List.{All};

use crate::annihilator::{annihilator, one};
use crate::bases::{PowerBasis, basis_element, power_basis, powers, product};
use crate::choice::{choice, weight_of};
use crate::reduce::reduce;
use ff_alg::{FiniteField, NoMemory};
use ff_data::{Coords, CoordsList, Relation, System};
use ff_elem::{Alg, PolyList};
use ff_poly::Poly;
use ff_ring::{basis_vector, is_zero_each, monomial_poly, ring_scale};
use std::alloc::Global;

/// The coordinates of q(z) * b_i.
fn basis_multiple<K: FiniteField<E = u32>>(
    alloc: Global,
    k: &K,
    s: &System,
    q: &Poly,
    i: usize,
) -> Result<Vec<Poly>, NoMemory>
    requires q { IsPoly (K.elements k.now) q.now }
    ensures form { IfOk result (λ r. AreCoords (K.elements k.now) s.now r.items) }
    ensures exact { let F = K.elements k.now in length s.now.weights ≡ s.now.e →
        IfOk result (λ r. element_in F s.now r.items ≡
        multiple_in F s.now q.now (basis_in F s.now i)) }
{
    let unit = basis_vector(alloc, k, s.e as usize, i)?;
    ring_scale(alloc, k, q, &unit)
}

/// The product of a polynomial and the one for the rest of its multiple of a basis element.
fn larger<K: FiniteField<E = u32>>(
    alloc: Global,
    k: &K,
    s: &System,
    p: &PowerBasis,
    q: &Poly,
    rest: PolyList,
) -> Result<Poly, NoMemory>
    requires table { HasTable (K.elements k.now) s.now }
    requires p { IsPowerBasis (K.elements k.now) s.now p.now }
    requires q { IsMonic (K.elements k.now) q.now }
    requires rest { AreCoords (K.elements k.now) s.now rest }
    ensures form { IfOk result (IsMonic (K.elements k.now)) }
    ensures kept { let F = K.elements k.now in (w : (ring_in F s.now).carrier)
        (b : PowersOf F s.now w p.now) (a : (ring_in F s.now).carrier) →
        IsSumOf F s.now b (multiple_in F s.now q.now a) →
        IfOk result (λ r. IsSumOf F s.now b (multiple_in F s.now r a)) }
    ensures exact { let F = K.elements k.now in (w : (ring_in F s.now).carrier)
        (b : PowersOf F s.now w p.now) (a : (ring_in F s.now).carrier) →
        IsClearFrom F s.now b 0 (element_in F s.now rest) →
        IsSumOf F s.now b (difference_in F s.now (multiple_in F s.now q.now a)
        (element_in F s.now rest)) →
        IfOk result (λ r. IsSumOf F s.now b (multiple_in F s.now r a)) }
{
    let factor = annihilator(alloc, k, s, p, rest)?;
    let product = factor.mul(alloc, k, q)?;
    Ok(product)
}

/// A multiple of q whose product with b_i is a sum of multiples of powers.
fn denominator_for<K: FiniteField<E = u32>>(
    alloc: Global,
    k: &K,
    s: &System,
    p: &PowerBasis,
    q: Poly,
    i: usize,
) -> Result<Poly, NoMemory>
    requires table { HasTable (K.elements k.now) s.now }
    requires p { IsPowerBasis (K.elements k.now) s.now p.now }
    requires q { IsMonic (K.elements k.now) q }
    ensures form { IfOk result (IsMonic (K.elements k.now)) }
    ensures kept { let F = K.elements k.now in (w : (ring_in F s.now).carrier)
        (b : PowersOf F s.now w p.now) (a : (ring_in F s.now).carrier) →
        IsSumOf F s.now b (multiple_in F s.now q a) →
        IfOk result (λ r. IsSumOf F s.now b (multiple_in F s.now r a)) }
    ensures exact { let F = K.elements k.now in (w : (ring_in F s.now).carrier)
        (b : PowersOf F s.now w p.now) →
        IfOk result (λ r. IsSumOf F s.now b (multiple_in F s.now r (basis_in F s.now i))) }
{
    let product = basis_multiple(alloc, k, s, &q, i)?;
    let reduced = reduce(alloc, k, s, p, &product)?;
    if is_zero_each(reduced.rest.rows()) {
        return Ok(q);
    }
    larger(alloc, k, s, p, &q, reduced.rest)
}

/// A monic polynomial whose product with each b_i is a sum of multiples of powers.
fn denominator<K: FiniteField<E = u32>>(
    alloc: Global,
    k: &K,
    s: &System,
    p: &PowerBasis,
) -> Result<Poly, NoMemory>
    requires table { HasTable (K.elements k.now) s.now }
    requires p { IsPowerBasis (K.elements k.now) s.now p.now }
    ensures form { IfOk result (IsMonic (K.elements k.now)) }
    ensures exact { let F = K.elements k.now in (w : (ring_in F s.now).carrier)
        (b : PowersOf F s.now w p.now) → IfOk result (λ r. (i : ℕ) → i < s.now.e →
        IsSumOf F s.now b (multiple_in F s.now r (basis_in F s.now i))) }
{
    let mut q = one(alloc, k)?;
    for i in 0..s.e as usize {
        q = denominator_for(alloc, k, s, p, q, i)?;
    }
    Ok(q)
}

/// b_i, written over q.
fn written<K: FiniteField<E = u32>>(
    alloc: Global,
    k: &K,
    s: &System,
    p: &PowerBasis,
    q: &Poly,
    i: usize,
) -> Result<Coords, NoMemory>
    requires table { HasTable (K.elements k.now) s.now }
    requires p { IsPowerBasis (K.elements k.now) s.now p.now }
    requires q { IsMonic (K.elements k.now) q.now }
    ensures form { IfOk result (AreOverMonic (K.elements k.now) s.now) }
    ensures exact { let F = K.elements k.now in (w : (ring_in F s.now).carrier)
        (b : PowersOf F s.now w p.now) →
        IsSumOf F s.now b (multiple_in F s.now q.now (basis_in F s.now i)) →
        IfOk result (IsWritten F s.now w i) }
{
    let product = basis_multiple(alloc, k, s, q, i)?;
    let reduced = reduce(alloc, k, s, p, &product)?;
    Ok(Coords {
        q: q.copy(alloc)?,
        c: reduced.quotient,
    })
}

/// Each b_i, written over q.
fn back<K: FiniteField<E = u32>>(
    alloc: Global,
    k: &K,
    s: &System,
    p: &PowerBasis,
    q: &Poly,
) -> Result<CoordsList, NoMemory>
    requires table { HasTable (K.elements k.now) s.now }
    requires p { IsPowerBasis (K.elements k.now) s.now p.now }
    requires q { IsMonic (K.elements k.now) q.now }
    ensures each { IfOk result (All (AreOverMonic (K.elements k.now) s.now)) }
    ensures count { IfOk result (λ r. length r ≡ s.now.e) }
    ensures exact { let F = K.elements k.now in (w : (ring_in F s.now).carrier)
        (b : PowersOf F s.now w p.now) → ((i : ℕ) → i < s.now.e →
        IsSumOf F s.now b (multiple_in F s.now q.now (basis_in F s.now i))) →
        IfOk result (AreWritten F s.now w) }
{
    let mut items = Vec::with_capacity(alloc, s.e as usize)?;
    for i in 0..s.e as usize {
        items.push(written(alloc, k, s, p, q, i)?)?;
    }
    Ok(CoordsList { items })
}

/// The coordinates of the negative.
fn negative<K: FiniteField<E = u32>>(
    alloc: Global,
    k: &K,
    s: &System,
    c: &[Poly],
) -> Result<PolyList, NoMemory>
    requires c { AreCoords (K.elements k.now) s.now c.now }
    ensures form { IfOk result (AreCoords (K.elements k.now) s.now) }
    ensures value { let F = K.elements k.now in let P = polys_over F in
        IfOk result (λ r. (l : ℕ) → l < s.now.e → entry_at F r l ≡ P.neg (entry_at F c.now l)) }
{
    let _system = s;
    let minus = monomial_poly(alloc, k, k.neg(k.one()), 0)?;
    Ok(PolyList {
        items: ring_scale(alloc, k, &minus, c)?,
    })
}

/// The coefficients of the relation, from the product of w and its power with the exponent e - 1.
fn coefficients<K: FiniteField<E = u32>>(
    alloc: Global,
    k: &K,
    s: &System,
    p: &PowerBasis,
    w: &[Poly],
) -> Result<PolyList, NoMemory>
    requires table { HasTable (K.elements k.now) s.now }
    requires p { IsPowerBasis (K.elements k.now) s.now p.now }
    requires w { AreCoords (K.elements k.now) s.now w.now }
    ensures form { IfOk result (AreCoords (K.elements k.now) s.now) }
    ensures exact { let F = K.elements k.now in let S = table_in F s.now in
        PowersOf F s.now (element_in F s.now w.now) p.now →
        IfOk result (λ r. IsRelation F.ring S (element_in F s.now w.now) (entry_at F r)) }
{
    let last = product(alloc, k, s, p.list[s.e as usize - 1].rows(), w)?;
    let reduced = reduce(alloc, k, s, p, last.rows())?;
    negative(alloc, k, s, reduced.quotient.rows())
}

/// The relation of w.
fn relation_of<K: FiniteField<E = u32>>(
    alloc: Global,
    k: &K,
    s: &System,
    p: &PowerBasis,
    w: PolyList,
) -> Result<Relation, NoMemory>
    requires table { HasTable (K.elements k.now) s.now }
    requires p { IsPowerBasis (K.elements k.now) s.now p.now }
    requires w { AreCoords (K.elements k.now) s.now w }
    ensures form { IfOk result (HasRelationForm (K.elements k.now) s.now) }
    ensures exact { let F = K.elements k.now in
        PowersOf F s.now (element_in F s.now w) p.now → IfOk result (IsRelationOf F s.now) }
    ensures back { let F = K.elements k.now in
        PowersOf F s.now (element_in F s.now w) p.now → IfOk result (WritesBasis F s.now) }
{
    let coeffs = coefficients(alloc, k, s, p, w.rows())?;
    let q = denominator(alloc, k, s, p)?;
    let back = back(alloc, k, s, p, &q)?;
    Ok(Relation { w, coeffs, back })
}

/// The powers of w, which is the basis element with the index i.
fn power_basis_of<K: FiniteField<E = u32>>(
    alloc: Global,
    k: &K,
    s: &System,
    i: usize,
    w: &[Poly],
) -> Result<PowerBasis, NoMemory>
    requires table { HasTable (K.elements k.now) s.now }
    requires i { i < s.now.e }
    requires w { AreCoords (K.elements k.now) s.now w.now }
    ensures form { IfOk result (IsPowerBasis (K.elements k.now) s.now) }
    ensures exact { let F = K.elements k.now in MeetsRule F s.now →
        element_in F s.now w.now ≡ basis_in F s.now i →
        IsDifference (weight_at s.now i) s.now.e 1 →
        IfOk result (PowersOf F s.now (element_in F s.now w.now)) }
{
    let list = powers(alloc, k, s, w, s.e as usize - 1)?;
    power_basis(alloc, k, s, list, weight_of(s, i))
}

/// A relation of a pole system: w is a basis element of least weight among those whose weight is
/// prime to e, so that its powers have weights in different classes modulo e; the e coefficients
/// come from reducing w^e modulo the multiples of the lower powers, and all basis elements are
/// written over one monic polynomial. `NoMemory` is the only error. This project's own, after the
/// Apery sets of numerical semigroups.
pub fn relation<K: FiniteField<E = u32>>(
    alloc: Global,
    alg: &Alg<K>,
    s: &System,
) -> Result<Relation, NoMemory>
    requires { HasTable (K.elements alg.now.k) s.now }
    ensures form { IfOk result (HasRelationForm (K.elements alg.now.k) s.now) }
    ensures exact { let F = K.elements alg.now.k in MeetsRule F s.now →
        IfOk result (IsRelationOf F s.now) }
    ensures back { let F = K.elements alg.now.k in MeetsRule F s.now →
        IfOk result (WritesBasis F s.now) }
{
    let i = choice(s);
    let w = basis_element(alloc, &alg.k, s, i)?;
    let p = power_basis_of(alloc, &alg.k, s, i, w.rows())?;
    relation_of(alloc, &alg.k, s, &p, w)
}
