// The monic polynomial q of least degree for which q(z) times an element is a sum of multiples of
// powers.
ghost use Rattle.std.specs.Prelude.{◌≡◌, ℕ, ◌+◌, ◌<◌, [], ◌∷◌, ◌++◌, length, IfOk};
ghost use Rattle.std.specs.List.{All};
ghost use Rattle.ff_theory.specs.Ring.{IsElement};
ghost use Rattle.ff_theory.specs.Vector.{vector_of, IsVector};
ghost use Rattle.ff_lin.specs.Space.{AreVectors, IsSpace, IsSpaceOf, IsIn, SameSpace, rows_of};
ghost use Rattle.ff_data.specs.Systems.{AreCoords};
ghost use Rattle.ff_ring.specs.Ring.{HasTable, ring_in, element_in};
ghost use Rattle.ff_relation.specs.Reduction.{IsPowerBasis, IsMonic, AreRests};
ghost use Rattle.ff_relation.specs.InRing.{PowersOf, AreAtGaps, raised_in, difference_in};
ghost use Rattle.ff_relation.specs.InRing.{IsClearFrom, IsSumOf, AreRestsOf, IsMonicLess};
ghost use Rattle.ff_relation.specs.InRing.{IsOfCombination, multiple_in};

use crate::bases::{Gap, PowerBasis};
use crate::reduce::reduce;
use ff_alg::{FiniteField, NoMemory};
use ff_data::System;
use ff_elem::PolyList;
use ff_lin::{Space, solve};
use ff_poly::Poly;
use ff_ring::{monomial_poly, ring_scale};
use std::alloc::Global;

/// The coefficients of coordinates at the gaps.
fn at_gaps<K: FiniteField<E = u32>>(
    alloc: Global,
    k: &K,
    s: &System,
    gaps: &[Gap],
    c: &[Poly],
) -> Result<Vec<u32>, NoMemory>
    requires gaps { All (λ g. g.class < s.now.e) gaps.now }
    requires c { AreCoords (K.elements k.now) s.now c.now }
    ensures form { IfOk result (λ r. IsVector (K.elements k.now) (length gaps.now) r.items) }
    ensures exact { let F = K.elements k.now in length s.now.weights ≡ s.now.e →
        IfOk result (λ r. AreAtGaps F s.now gaps.now (element_in F s.now c.now) r.items) }
{
    let _system = s;
    let mut vector = Vec::with_capacity(alloc, gaps.len())?;
    for i in 0..gaps.len() {
        vector.push(c[gaps[i].class].coeff(k, gaps[i].degree))?;
    }
    Ok(vector)
}

/// The coordinates of the product with z.
fn raised<K: FiniteField<E = u32>>(
    alloc: Global,
    k: &K,
    s: &System,
    c: &[Poly],
) -> Result<Vec<Poly>, NoMemory>
    requires c { AreCoords (K.elements k.now) s.now c.now }
    ensures form { IfOk result (λ r. AreCoords (K.elements k.now) s.now r.items) }
    ensures exact { let F = K.elements k.now in length s.now.weights ≡ s.now.e →
        IfOk result (λ r. element_in F s.now r.items ≡
        raised_in F s.now 1 (element_in F s.now c.now)) }
{
    let _system = s;
    let z = monomial_poly(alloc, k, k.one(), 1)?;
    ring_scale(alloc, k, &z, c)
}

/// The rest of the product with z.
fn next_rest<K: FiniteField<E = u32>>(
    alloc: Global,
    k: &K,
    s: &System,
    p: &PowerBasis,
    rest: &[Poly],
) -> Result<PolyList, NoMemory>
    requires table { HasTable (K.elements k.now) s.now }
    requires p { IsPowerBasis (K.elements k.now) s.now p.now }
    requires rest { AreCoords (K.elements k.now) s.now rest.now }
    ensures form { IfOk result (AreCoords (K.elements k.now) s.now) }
    ensures clear { let F = K.elements k.now in
        (w : (ring_in F s.now).carrier) (b : PowersOf F s.now w p.now) →
        IfOk result (λ r. IsClearFrom F s.now b 0 (element_in F s.now r)) }
    ensures congruent { let F = K.elements k.now in
        (w : (ring_in F s.now).carrier) (b : PowersOf F s.now w p.now) →
        IfOk result (λ r. IsSumOf F s.now b (difference_in F s.now
        (raised_in F s.now 1 (element_in F s.now rest.now)) (element_in F s.now r))) }
{
    let product = raised(alloc, k, s, rest)?;
    let reduced = reduce(alloc, k, s, p, &product)?;
    Ok(reduced.rest)
}

/// The coefficients at the gaps of the rests of an element, of z times it, and so on: `last` are
/// those of `rest`, and the vectors before them have the span `span`.
#[derive(Drop)]
pub struct Rests {
    pub before: Vec<Vec<u32>>,
    pub last: Vec<u32>,
    pub rest: PolyList,
    pub span: Space,
}

/// The first rest.
fn first_rest<K: FiniteField<E = u32>>(
    alloc: Global,
    k: &K,
    s: &System,
    p: &PowerBasis,
    rest: PolyList,
) -> Result<Rests, NoMemory>
    requires p { IsPowerBasis (K.elements k.now) s.now p.now }
    requires rest { AreCoords (K.elements k.now) s.now rest }
    ensures form { IfOk result (AreRests (K.elements k.now) s.now p.now) }
    ensures count { IfOk result (λ r. length r.before.items ≡ 0) }
    ensures exact { let F = K.elements k.now in length s.now.weights ≡ s.now.e →
        (w : (ring_in F s.now).carrier) (b : PowersOf F s.now w p.now) →
        IsClearFrom F s.now b 0 (element_in F s.now rest) →
        IfOk result (AreRestsOf F s.now b (element_in F s.now rest)) }
{
    let last = at_gaps(alloc, k, s, &p.gaps, rest.rows())?;
    let before = Vec::new(alloc);
    let span = Space::zero(alloc, p.gaps.len());
    Ok(Rests {
        before,
        last,
        rest,
        span,
    })
}

/// The span with a vector more.
fn with_vector<K: FiniteField<E = u32>>(
    alloc: Global,
    k: &K,
    span: Space,
    v: &[u32],
) -> Result<Space, NoMemory>
    requires span { IsSpace (K.elements k.now) span }
    requires v { IsVector (K.elements k.now) span.len v.now }
    ensures space { IfOk result (IsSpaceOf (K.elements k.now) span.len) }
    ensures same { let F = K.elements k.now in
        IfOk result (λ r. SameSpace F r.basis (v.now ∷ span.basis)) }
{
    let copy = Vec::from_slice(alloc, v)?;
    span.insert(alloc, k, copy)
}

/// The vectors with one more.
fn pushed<K: FiniteField<E = u32>>(
    k: &K,
    before: Vec<Vec<u32>>,
    v: Vec<u32>,
    n: usize,
) -> Result<Vec<Vec<u32>>, NoMemory>
    requires before { AreVectors (K.elements k.now) n before.items }
    requires v { IsVector (K.elements k.now) n v.items }
    ensures form { IfOk result (λ r. AreVectors (K.elements k.now) n r.items) }
    ensures items { IfOk result (λ r. r.items ≡ before.items ++ v ∷ []) }
{
    let _field = k;
    let _length = n;
    let mut vectors = before;
    vectors.push(v)?;
    Ok(vectors)
}

/// The rests with the next one, whose coordinates and whose coefficients at the gaps these are.
fn with_rest<K: FiniteField<E = u32>>(
    alloc: Global,
    k: &K,
    s: &System,
    p: &PowerBasis,
    rests: Rests,
    rest: PolyList,
    last: Vec<u32>,
) -> Result<Rests, NoMemory>
    requires rests { AreRests (K.elements k.now) s.now p.now rests }
    requires rest { AreCoords (K.elements k.now) s.now rest }
    requires last { IsVector (K.elements k.now) (length p.now.gaps.items) last.items }
    ensures form { IfOk result (AreRests (K.elements k.now) s.now p.now) }
    ensures count { IfOk result (λ r. length r.before.items ≡ length rests.before.items + 1) }
    ensures exact { let F = K.elements k.now in length s.now.weights ≡ s.now.e →
        (w : (ring_in F s.now).carrier) (b : PowersOf F s.now w p.now)
        (a : (ring_in F s.now).carrier) → AreRestsOf F s.now b a rests →
        ¬ (IsIn F rests.span.basis rests.last.items) →
        IsClearFrom F s.now b 0 (element_in F s.now rest) →
        IsSumOf F s.now b (difference_in F s.now
        (raised_in F s.now 1 (element_in F s.now rests.rest)) (element_in F s.now rest)) →
        AreAtGaps F s.now p.now.gaps.items (element_in F s.now rest) last.items →
        IfOk result (AreRestsOf F s.now b a) }
{
    let _system = s;
    let span = with_vector(alloc, k, rests.span, &rests.last)?;
    let before = pushed(k, rests.before, rests.last, p.gaps.len())?;
    Ok(Rests {
        before,
        last,
        rest,
        span,
    })
}

/// The rests with the next one.
fn next_rests<K: FiniteField<E = u32>>(
    alloc: Global,
    k: &K,
    s: &System,
    p: &PowerBasis,
    rests: Rests,
) -> Result<Rests, NoMemory>
    requires table { HasTable (K.elements k.now) s.now }
    requires p { IsPowerBasis (K.elements k.now) s.now p.now }
    requires rests { AreRests (K.elements k.now) s.now p.now rests }
    ensures form { IfOk result (AreRests (K.elements k.now) s.now p.now) }
    ensures count { IfOk result (λ r. length r.before.items ≡ length rests.before.items + 1) }
    ensures exact { let F = K.elements k.now in
        (w : (ring_in F s.now).carrier) (b : PowersOf F s.now w p.now)
        (a : (ring_in F s.now).carrier) → AreRestsOf F s.now b a rests →
        ¬ (IsIn F rests.span.basis rests.last.items) →
        IfOk result (AreRestsOf F s.now b a) }
{
    let rest = next_rest(alloc, k, s, p, rests.rest.rows())?;
    let last = at_gaps(alloc, k, s, &p.gaps, rest.rows())?;
    with_rest(alloc, k, s, p, rests, rest, last)
}

/// The rests up to the first that is a combination of those before it; there are no more before
/// it than there are gaps.
fn rests_of<K: FiniteField<E = u32>>(
    alloc: Global,
    k: &K,
    s: &System,
    p: &PowerBasis,
    rest: PolyList,
) -> Result<Rests, NoMemory>
    requires table { HasTable (K.elements k.now) s.now }
    requires p { IsPowerBasis (K.elements k.now) s.now p.now }
    requires rest { AreCoords (K.elements k.now) s.now rest }
    ensures form { IfOk result (AreRests (K.elements k.now) s.now p.now) }
    ensures exact { let F = K.elements k.now in
        (w : (ring_in F s.now).carrier) (b : PowersOf F s.now w p.now) →
        IsClearFrom F s.now b 0 (element_in F s.now rest) →
        IfOk result (AreRestsOf F s.now b (element_in F s.now rest)) }
    ensures last { let F = K.elements k.now in
        (w : (ring_in F s.now).carrier) (b : PowersOf F s.now w p.now) →
        IsClearFrom F s.now b 0 (element_in F s.now rest) →
        IfOk result (λ r. IsIn F (rows_of r.before.items) r.last.items) }
{
    let mut rests = first_rest(alloc, k, s, p, rest)?;
    for _t in 0..p.gaps.len() {
        if rests.span.contains(k, &rests.last) {
            return Ok(rests);
        }
        rests = next_rests(alloc, k, s, p, rests)?;
    }
    Ok(rests)
}

/// The negatives of the entries of a list, and 1 after them.
fn negatives_and_one<K: FiniteField<E = u32>>(
    alloc: Global,
    k: &K,
    c: &[u32],
) -> Result<Vec<u32>, NoMemory>
    requires { All (IsElement (K.elements k.now)) c.now }
    ensures each { IfOk result (λ r. All (IsElement (K.elements k.now)) r.items) }
    ensures count { IfOk result (λ r. length r.items ≡ length c.now + 1) }
    ensures one { let F = K.elements k.now in
        IfOk result (λ r. vector_of F r.items (length c.now) ≡ F.one) }
    ensures low { let F = K.elements k.now in
        IfOk result (λ r. (i : ℕ) → i < length c.now →
        vector_of F r.items i ≡ F.neg (vector_of F c.now i)) }
{
    let mut coeffs = Vec::new(alloc);
    for i in 0..c.len() {
        coeffs.push(k.neg(c[i]))?;
    }
    coeffs.push(k.one())?;
    Ok(coeffs)
}

/// The monic polynomial with the negatives of these lower coefficients.
fn monic_less<K: FiniteField<E = u32>>(alloc: Global, k: &K, c: &[u32]) -> Result<Poly, NoMemory>
    requires { All (IsElement (K.elements k.now)) c.now }
    ensures form { IfOk result (IsMonic (K.elements k.now)) }
    ensures value { IfOk result (IsMonicLess (K.elements k.now) c.now) }
{
    let coeffs = negatives_and_one(alloc, k, c)?;
    let p = Poly::from_coeffs(alloc, k, &coeffs)?;
    Ok(p)
}

/// The polynomial 1.
pub fn one<K: FiniteField<E = u32>>(alloc: Global, k: &K) -> Result<Poly, NoMemory>
    ensures { IfOk result (IsMonic (K.elements k.now)) }
{
    monic_less(alloc, k, &[])
}

/// The polynomial of the last vector as a combination of those before it, all of length `n`, and 1
/// where it is none.
fn combination<K: FiniteField<E = u32>>(
    alloc: Global,
    k: &K,
    n: usize,
    before: &[Vec<u32>],
    last: &[u32],
) -> Result<Poly, NoMemory>
    requires before { AreVectors (K.elements k.now) n before.now }
    requires last { IsVector (K.elements k.now) n last.now }
    ensures form { IfOk result (IsMonic (K.elements k.now)) }
    ensures exact { let F = K.elements k.now in IsIn F (rows_of before.now) last.now →
        IfOk result (IsOfCombination F (rows_of before.now) last.now) }
{
    match solve(alloc, k, n, before, last)? {
        Some(c) => monic_less(alloc, k, &c),
        None => one(alloc, k),
    }
}

/// The monic polynomial q of least degree for which q(z) times the element with this rest is a sum
/// of multiples of powers.
pub fn annihilator<K: FiniteField<E = u32>>(
    alloc: Global,
    k: &K,
    s: &System,
    p: &PowerBasis,
    rest: PolyList,
) -> Result<Poly, NoMemory>
    requires table { HasTable (K.elements k.now) s.now }
    requires p { IsPowerBasis (K.elements k.now) s.now p.now }
    requires rest { AreCoords (K.elements k.now) s.now rest }
    ensures form { IfOk result (IsMonic (K.elements k.now)) }
    ensures exact { let F = K.elements k.now in
        (w : (ring_in F s.now).carrier) (b : PowersOf F s.now w p.now) →
        IsClearFrom F s.now b 0 (element_in F s.now rest) →
        IfOk result (λ r. IsSumOf F s.now b (multiple_in F s.now r (element_in F s.now rest))) }
{
    let rests = rests_of(alloc, k, s, p, rest)?;
    combination(alloc, k, p.gaps.len(), &rests.before, &rests.last)
}
