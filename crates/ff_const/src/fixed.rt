// The combinations w of elements with w^q = w, where q is the number of elements of the field.
ghost use Rattle.std.specs.Prelude.{◌≡◌, IfOk, IfErr, length};
ghost use Rattle.ff_theory.specs.Ring.{power};
ghost use Rattle.ff_theory.specs.Vector.{vector_of, IsVector};
ghost use Rattle.ff_lin.specs.Space.{IsSpaceOf, HasExactly};
ghost use Rattle.ff_elem.specs.Elem.{algebra_in, elem_of, IsElem, ElemIs};
ghost use Rattle.ff_data.specs.Combinations.{AreElems, elems_of, combination_in};
ghost use Rattle.ff_const.specs.Fixed.{IsFixed, IsConstant, AreDifferences, AreFactorsFrom};
ghost use Rattle.ff_const.specs.Fixed.{FixesConstants, InSpanOfAll, IsSplit, IsSplitBy};

use crate::factors::{SplitFault, factors_from};
use ff_alg::{FiniteField, NoMemory};
use ff_data::{constant, flatten, plus_product};
use ff_elem::{Alg, Elem};
use ff_lin::Space;
use std::alloc::Global;

/// The power w^n.
fn power_of<K: FiniteField<E = u32>>(
    alloc: Global,
    alg: &Alg<K>,
    w: &Elem,
    n: u64,
) -> Result<Elem, NoMemory>
    requires { IsElem (K.lawful alg.now.k) alg.now.f w.now }
    ensures { let L = K.lawful alg.now.k in let f = alg.now.f in let A = algebra_in L f in
        IfOk result (ElemIs L f (power A (elem_of L f w.now) n)) }
{
    let mut power = alg.one(alloc)?;
    for _i in 0..n {
        power = alg.mul(alloc, w, &power)?;
    }
    Ok(power)
}

/// The difference w^q - w.
fn difference<K: FiniteField<E = u32>>(
    alloc: Global,
    alg: &Alg<K>,
    w: &Elem,
) -> Result<Elem, NoMemory>
    requires { IsElem (K.lawful alg.now.k) alg.now.f w.now }
    ensures { let F = K.elements alg.now.k in let L = K.lawful alg.now.k in let f = alg.now.f in
        let A = algebra_in L f in let v = elem_of L f w.now in
        IfOk result (ElemIs L f (A.add (power A v F.size) (A.neg v))) }
{
    let power = power_of(alloc, alg, w, alg.k.count())?;
    let negative = alg.neg(alloc, w)?;
    alg.add(alloc, &power, &negative)
}

/// The differences w^q - w.
fn differences<K: FiniteField<E = u32>>(
    alloc: Global,
    alg: &Alg<K>,
    list: &[Elem],
) -> Result<Vec<Elem>, NoMemory>
    requires { AreElems (K.lawful alg.now.k) alg.now.f list.now }
    ensures { let L = K.lawful alg.now.k in
        IfOk result (λ r. AreDifferences L alg.now.f list.now r.items) }
{
    let mut differences = Vec::with_capacity(alloc, list.len())?;
    for w in list {
        differences.push(difference(alloc, alg, w)?)?;
    }
    Ok(differences)
}

/// The coefficients of the combinations w of the elements with w^q = w.
fn fixed_space<K: FiniteField<E = u32>>(
    alloc: Global,
    alg: &Alg<K>,
    list: &[Elem],
) -> Result<Space, NoMemory>
    requires { AreElems (K.lawful alg.now.k) alg.now.f list.now }
    ensures space { IfOk result (IsSpaceOf (K.elements alg.now.k) (length list.now)) }
    ensures exact { let F = K.elements alg.now.k in let L = K.lawful alg.now.k in
        let f = alg.now.f in IfOk result (λ s. HasExactly F s (λ c.
        IsFixed L f (combination_in L f (length list.now) c (elems_of L f list.now)))) }
{
    let differences = differences(alloc, alg, list)?;
    let (len, vectors) = flatten(alloc, alg, &differences)?;
    Space::relations(alloc, &alg.k, len, &vectors)
}

/// The combination of the elements with the coefficients c.
fn combine<K: FiniteField<E = u32>>(
    alloc: Global,
    alg: &Alg<K>,
    c: &[u32],
    list: &[Elem],
) -> Result<Elem, NoMemory>
    requires list { AreElems (K.lawful alg.now.k) alg.now.f list.now }
    requires c { IsVector (K.elements alg.now.k) (length list.now) c.now }
    ensures { let F = K.elements alg.now.k in let L = K.lawful alg.now.k in let f = alg.now.f in
        let w = elems_of L f list.now in
        IfOk result (ElemIs L f (combination_in L f (length list.now) (vector_of F c.now) w)) }
{
    let mut sum = alg.zero(alloc)?;
    for i in 0..list.len() {
        let factor = constant(alloc, alg, c[i])?;
        sum = plus_product(alloc, alg, &sum, &factor, &list[i])?;
    }
    Ok(sum)
}

/// Whether the combination w with the coefficients c, where w^q = w, is a constant of the field;
/// else the factors of the equation that it gives.
fn split_one<K: FiniteField<E = u32>>(
    alloc: Global,
    alg: &Alg<K>,
    c: &[u32],
    list: &[Elem],
) -> Result<(), SplitFault>
    requires list { AreElems (K.lawful alg.now.k) alg.now.f list.now }
    requires c { IsVector (K.elements alg.now.k) (length list.now) c.now }
    requires fixed { let F = K.elements alg.now.k in let L = K.lawful alg.now.k in
        let f = alg.now.f in let w = elems_of L f list.now in
        IsFixed L f (combination_in L f (length list.now) (vector_of F c.now) w) }
    ensures constant { let F = K.elements alg.now.k in let L = K.lawful alg.now.k in
        let f = alg.now.f in let w = elems_of L f list.now in IfOk result
        (λ _. IsConstant L f (combination_in L f (length list.now) (vector_of F c.now) w)) }
    ensures factors { let F = K.elements alg.now.k in let L = K.lawful alg.now.k in
        let f = alg.now.f in let w = elems_of L f list.now in IfErr result
        (IsSplitBy L f (combination_in L f (length list.now) (vector_of F c.now) w)) }
{
    let w = combine(alloc, alg, c, list)?;
    match factors_from(alloc, alg, &w)? {
        Some((g, h)) => Err(SplitFault::Reducible { g, h }),
        None => Ok(()),
    }
}

/// Whether the combinations w of the elements with w^q = w are all constants of the field; else the
/// factors of the equation that such a combination gives.
pub(crate) fn split_by<K: FiniteField<E = u32>>(
    alloc: Global,
    alg: &Alg<K>,
    list: &[Elem],
) -> Result<(), SplitFault>
    requires { AreElems (K.lawful alg.now.k) alg.now.f list.now }
    ensures constants { let L = K.lawful alg.now.k in let f = alg.now.f in
        IfOk result (λ _. FixesConstants L f (InSpanOfAll L f list.now)) }
    ensures split { let L = K.lawful alg.now.k in let f = alg.now.f in
        IfErr result (IsSplit L f (InSpanOfAll L f list.now)) }
{
    let space = fixed_space(alloc, alg, list)?;
    for c in space.basis() {
        match split_one(alloc, alg, c, list) {
            Ok(()) => {},
            Err(fault) => return Err(fault),
        }
    }
    Ok(())
}
