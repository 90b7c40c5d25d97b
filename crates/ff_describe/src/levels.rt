// The elements z^a*b_l within a weight, class by class.
ghost use Rattle.std.specs.Prelude.{◌≡◌, ◌-◌, ◌<◌, length, IfOk};
ghost use Rattle.ff_elem.specs.Elem.{IsElem, ElemIs};
ghost use Rattle.ff_data.specs.Combinations.{AreElems, elems_of};
ghost use Rattle.ff_describe.specs.Levels.{IsCount, AreCounts, raised, Extends, HasLevels};

use ff_alg::{FiniteField, NoMemory};
use ff_elem::{Alg, Elem};
use std::alloc::Global;

/// How many powers of z, times an element of weight m, have a weight within the bound.
fn level_count(e: u32, m: u32, bound: u32) -> usize
    requires positive { 0 < e }
    ensures { IsCount e m bound result }
{
    if m > bound {
        return 0;
    }
    ((bound - m) / e) as usize + 1
}

/// For each weight the number of powers of z within the bound.
pub fn level_counts(
    alloc: Global,
    e: u32,
    weights: &[u32],
    bound: u32,
) -> Result<Vec<usize>, NoMemory>
    requires positive { 0 < e }
    ensures { IfOk result (λ r. AreCounts e bound weights.now r.items) }
{
    let mut counts = Vec::with_capacity(alloc, weights.len())?;
    for l in 0..weights.len() {
        counts.push(level_count(e, weights[l], bound))?;
    }
    Ok(counts)
}

/// The product of z and the last element of the list, and w for a = 0.
fn next_power<K: FiniteField<E = u32>>(
    alloc: Global,
    alg: &Alg<K>,
    z: &Elem,
    w: &Elem,
    list: &[Elem],
    a: usize,
) -> Result<Elem, NoMemory>
    requires z { IsElem (K.lawful alg.now.k) alg.now.f z.now }
    requires w { IsElem (K.lawful alg.now.k) alg.now.f w.now }
    requires list { AreElems (K.lawful alg.now.k) alg.now.f list.now }
    requires some { 0 < a → 0 < length list.now }
    requires last { let L = K.lawful alg.now.k in let f = alg.now.f in 0 < a →
        elems_of L f list.now (length list.now - 1) ≡ raised L f z.now w.now (a - 1) }
    ensures { let L = K.lawful alg.now.k in let f = alg.now.f in
        IfOk result (ElemIs L f (raised L f z.now w.now a)) }
{
    if a == 0 {
        return w.copy(alloc);
    }
    let last = list.len() - 1;
    alg.mul(alloc, z, &list[last])
}

/// The list with w, z*w, z^2*w, .. after it, `count` elements.
fn push_powers<K: FiniteField<E = u32>>(
    alloc: Global,
    alg: &Alg<K>,
    z: &Elem,
    w: &Elem,
    count: usize,
    list: Vec<Elem>,
) -> Result<Vec<Elem>, NoMemory>
    requires z { IsElem (K.lawful alg.now.k) alg.now.f z.now }
    requires w { IsElem (K.lawful alg.now.k) alg.now.f w.now }
    requires list { AreElems (K.lawful alg.now.k) alg.now.f list.items }
    ensures { let L = K.lawful alg.now.k in let f = alg.now.f in IfOk result
        (λ r. Extends L f list.items count (raised L f z.now w.now) r.items) }
{
    let mut longer = list;
    for a in 0..count {
        let next = next_power(alloc, alg, z, w, &longer, a)?;
        longer.push(next)?;
    }
    Ok(longer)
}

/// The list with the first powers of z times each b_l after it, as many as the counts say.
pub fn push_levels<K: FiniteField<E = u32>>(
    alloc: Global,
    alg: &Alg<K>,
    z: &Elem,
    b: &[Elem],
    counts: &[usize],
    list: Vec<Elem>,
) -> Result<Vec<Elem>, NoMemory>
    requires z { IsElem (K.lawful alg.now.k) alg.now.f z.now }
    requires b { AreElems (K.lawful alg.now.k) alg.now.f b.now }
    requires count { length counts.now ≡ length b.now }
    requires list { AreElems (K.lawful alg.now.k) alg.now.f list.items }
    ensures { let L = K.lawful alg.now.k in let f = alg.now.f in IfOk result (λ r.
        HasLevels L f list.items z.now b.now counts.now (length counts.now) r.items) }
{
    let mut longer = list;
    for l in 0..counts.len() {
        longer = push_powers(alloc, alg, z, &b[l], counts[l], longer)?;
    }
    Ok(longer)
}
