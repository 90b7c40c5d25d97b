// The pole system of the spaces of a point.
ghost use Rattle.std.specs.Prelude.{◌≡◌, ◌+◌, ◌-◌, ◌^◌, ◌<◌, ◌≤◌, length, IfOk, IfSome, Some};
ghost use Rattle.std.specs.List.{All};
ghost use Rattle.ff_elem.specs.Elem.{IsElem};
ghost use Rattle.ff_data.specs.Combinations.{AreElems};
ghost use Rattle.ff_describe.specs.Described.{IsDescribed};
ghost use Rattle.ff_poles.specs.Spaces.{HaveElems, IsFunctionWhere, AreFunctionsWhere};
ghost use Rattle.ff_poles.specs.Spaces.{IsSystemOfFunctions, AreNumbersOf, IsSystemOfSpaces};

use crate::numbers::{first_number, least_numbers};
use crate::pick::pick;
use ff_alg::{FiniteField, NoMemory};
use ff_data::{ElemList, NumberList, RRSpace, System};
use ff_describe::describe_within;
use ff_elem::{Alg, Elem};
use ff_forms::Functions;
use std::alloc::Global;

/// A function in L_m that is not in the space before; 1 for m = 0.
fn function<K: FiniteField<E = u32>>(
    alloc: Global,
    alg: &Alg<K>,
    spaces: &[RRSpace],
    m: usize,
) -> Result<Option<Elem>, NoMemory>
    requires spaces { HaveElems (K.lawful alg.now.k) alg.now.f spaces.now }
    requires index { m < length spaces.now }
    ensures elem { let L = K.lawful alg.now.k in
        IfOk result (λ o. IfSome o (IsElem L alg.now.f)) }
    ensures exact { let L = K.lawful alg.now.k in
        IfOk result (IsFunctionWhere L alg.now.f spaces.now m) }
{
    if m == 0 {
        let one = alg.one(alloc)?;
        return Ok(Some(one));
    }
    let lower = &spaces[m - 1];
    let upper = &spaces[m];
    pick(alloc, alg, &lower.basis.items, &upper.basis.items)
}

/// Functions for each of the numbers.
fn functions_for<K: FiniteField<E = u32>>(
    alloc: Global,
    alg: &Alg<K>,
    spaces: &[RRSpace],
    numbers: &[usize],
) -> Result<Option<Vec<Elem>>, NoMemory>
    requires spaces { HaveElems (K.lawful alg.now.k) alg.now.f spaces.now }
    requires within { All (λ m. m < length spaces.now) numbers.now }
    ensures count { IfOk result (λ o. IfSome o (λ v. length v.items ≡ length numbers.now)) }
    ensures elems { let L = K.lawful alg.now.k in
        IfOk result (λ o. IfSome o (λ v. AreElems L alg.now.f v.items)) }
    ensures exact { let L = K.lawful alg.now.k in
        IfOk result (AreFunctionsWhere L alg.now.f spaces.now numbers.now) }
{
    let mut list = Vec::with_capacity(alloc, numbers.len())?;
    for i in 0..numbers.len() {
        match function(alloc, alg, spaces, numbers[i])? {
            None => return Ok(None),
            Some(w) => list.push(w)?,
        }
    }
    Ok(Some(list))
}

/// The numbers as weights.
fn narrowed(alloc: Global, numbers: &[usize]) -> Result<Vec<u32>, NoMemory>
    requires { All (λ m. m < 2 ^ 32) numbers.now }
    ensures { IfOk result (λ r. r.items ≡ numbers.now) }
{
    let mut weights = Vec::with_capacity(alloc, numbers.len())?;
    for i in 0..numbers.len() {
        weights.push(numbers[i] as u32)?;
    }
    Ok(weights)
}

/// The system with z and the b_i.
fn described<K: FiniteField<E = u32>>(
    alloc: Global,
    alg: &Alg<K>,
    limit: usize,
    z: Elem,
    b: Vec<Elem>,
    numbers: &[usize],
) -> Result<Option<System>, NoMemory>
    requires small { limit < 2 ^ 31 }
    requires z { IsElem (K.lawful alg.now.k) alg.now.f z }
    requires b { AreElems (K.lawful alg.now.k) alg.now.f b.items }
    requires count { length b.items ≡ length numbers.now }
    requires some { 0 < length numbers.now }
    requires few { length numbers.now ≤ limit }
    requires within { All (λ m. m ≤ limit) numbers.now }
    ensures described { let L = K.lawful alg.now.k in let f = alg.now.f in
        IfOk result (λ o. IfSome o (IsDescribed L f limit)) }
    ensures exact { let L = K.lawful alg.now.k in let f = alg.now.f in
        IfOk result (IsSystemOfFunctions L f limit z b.items numbers.now) }
{
    let weights = narrowed(alloc, numbers)?;
    let functions = Functions {
        e: numbers.len() as u32,
        z,
        b: ElemList { items: b },
        weights: NumberList { items: weights },
    };
    describe_within(alloc, alg, &functions, limit as u32)
}

/// The system with z.
fn with_z<K: FiniteField<E = u32>>(
    alloc: Global,
    alg: &Alg<K>,
    spaces: &[RRSpace],
    z: Elem,
    numbers: &[usize],
) -> Result<Option<System>, NoMemory>
    requires spaces { HaveElems (K.lawful alg.now.k) alg.now.f spaces.now }
    requires small { length spaces.now ≤ 2 ^ 31 }
    requires z { IsElem (K.lawful alg.now.k) alg.now.f z }
    requires some { 0 < length numbers.now }
    requires few { length numbers.now < length spaces.now }
    requires within { All (λ m. m < length spaces.now) numbers.now }
    requires pole { let L = K.lawful alg.now.k in let m = length numbers.now in
        IsFunctionWhere L alg.now.f spaces.now m (Some z) }
    requires numbers { AreNumbersOf spaces.now numbers.now }
    ensures described { let L = K.lawful alg.now.k in let f = alg.now.f in
        IfOk result (λ o. IfSome o (IsDescribed L f (length spaces.now - 1))) }
    ensures exact { let L = K.lawful alg.now.k in
        IfOk result (IsSystemOfSpaces L alg.now.f spaces.now) }
{
    match functions_for(alloc, alg, spaces, numbers)? {
        None => Ok(None),
        Some(b) => described(alloc, alg, spaces.len() - 1, z, b, numbers),
    }
}

/// The system with the weights.
fn with_numbers<K: FiniteField<E = u32>>(
    alloc: Global,
    alg: &Alg<K>,
    spaces: &[RRSpace],
    numbers: &[usize],
) -> Result<Option<System>, NoMemory>
    requires spaces { HaveElems (K.lawful alg.now.k) alg.now.f spaces.now }
    requires small { length spaces.now ≤ 2 ^ 31 }
    requires some { 0 < length numbers.now }
    requires few { length numbers.now < length spaces.now }
    requires within { All (λ m. m < length spaces.now) numbers.now }
    requires numbers { AreNumbersOf spaces.now numbers.now }
    ensures described { let L = K.lawful alg.now.k in let f = alg.now.f in
        IfOk result (λ o. IfSome o (IsDescribed L f (length spaces.now - 1))) }
    ensures exact { let L = K.lawful alg.now.k in
        IfOk result (IsSystemOfSpaces L alg.now.f spaces.now) }
{
    match function(alloc, alg, spaces, numbers.len())? {
        None => Ok(None),
        Some(z) => with_z(alloc, alg, spaces, z, numbers),
    }
}

/// A system of the spaces L_0, L_1, .. of one point: e is the least positive pole number, z has a
/// pole of that order, and the b_i poles of the least order in their class modulo e, by the
/// dimensions of the spaces. Its table writes the products of the b_i, and x and y are written,
/// with all weights up to the index J of the last space. Where the equation is irreducible and the
/// spaces are those of a point of maximal orders, it is a pole system within J, and None comes only
/// where there is none. `NoMemory` is the only error. This project's own.
pub fn system<K: FiniteField<E = u32>>(
    alloc: Global,
    alg: &Alg<K>,
    spaces: &[RRSpace],
) -> Result<Option<System>, NoMemory>
    requires spaces { HaveElems (K.lawful alg.now.k) alg.now.f spaces.now }
    requires small { length spaces.now ≤ 2 ^ 31 }
    ensures described { let L = K.lawful alg.now.k in let f = alg.now.f in
        IfOk result (λ o. IfSome o (IsDescribed L f (length spaces.now - 1))) }
    ensures exact { let L = K.lawful alg.now.k in
        IfOk result (IsSystemOfSpaces L alg.now.f spaces.now) }
{
    let e = first_number(spaces);
    if e == 0 || e >= spaces.len() {
        return Ok(None);
    }
    match least_numbers(alloc, spaces, e)? {
        None => Ok(None),
        Some(numbers) => with_numbers(alloc, alg, spaces, &numbers),
    }
}
