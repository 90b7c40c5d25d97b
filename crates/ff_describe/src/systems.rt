// The whole system of least functions.
ghost use Rattle.std.specs.Prelude.{◌≡◌, ◌/◌, ◌<◌, ◌≤◌, IfOk, IfSome, IfNone};
ghost use Rattle.ff_elem.specs.Elem.{IsElem, elem_of, x_in, y_in};
ghost use Rattle.ff_data.specs.Systems.{IsExpression};
ghost use Rattle.ff_forms.specs.declared.functions.TheConstants.{POLE_LIMIT};
ghost use Rattle.ff_forms.specs.Forms.{HasFunctionsForm, IsWithinLimit};
ghost use Rattle.ff_describe.specs.Described.{frame_of, AreFunctionsWithin, HasFunctions};
ghost use Rattle.ff_describe.specs.Described.{IsTableOf, IsDescribed, IsWritten, AllWritten};
ghost use Rattle.ff_describe.specs.Described.{IsSystemWhereLeast, IsUnwrittenWhereLeast};
ghost use Rattle.ff_systems.specs.Places.{WritesProducts};

use crate::expression::express_within;
use crate::tables::table_of;
use ff_alg::{FiniteField, NoMemory};
use ff_data::{Coords, ElemList, NumberList, System, Table};
use ff_elem::{Alg, Elem};
use ff_forms::{Functions, POLE_LIMIT};
use std::alloc::Global;

/// The weight e*d + extra, and the limit where it is less, or where d is the greatest degree.
fn weight_within(e: u32, d: u32, extra: usize, limit: u32) -> u32
    requires { 0 < e }
    ensures within { result ≤ limit }
    ensures last { d ≡ limit / e → result ≡ limit }
{
    if d == limit / e {
        return limit;
    }
    let weight = e as u128 * d as u128 + extra as u128;
    if weight < limit as u128 {
        weight as u32
    } else {
        limit
    }
}

/// The element over a polynomial in z of degree at most `degree`.
fn express_at<K: FiniteField<E = u32>>(
    alloc: Global,
    alg: &Alg<K>,
    functions: &Functions,
    w: &Elem,
    degree: u32,
    extra: usize,
    limit: u32,
) -> Result<Option<Coords>, NoMemory>
    requires functions { AreFunctionsWithin (K.lawful alg.now.k) alg.now.f limit functions.now }
    requires w { IsElem (K.lawful alg.now.k) alg.now.f w.now }
    requires degree { degree ≤ limit / functions.now.e }
    ensures some { let L = K.lawful alg.now.k in let f = alg.now.f in IfOk result (λ o. IfSome o
        (IsExpression L f (frame_of functions.now) (elem_of L f w.now)
        (limit / functions.now.e) limit)) }
    ensures none { let L = K.lawful alg.now.k in let f = alg.now.f in
        degree ≡ limit / functions.now.e → IfOk result (λ o. IfNone o
        (¬ IsWritten L f limit functions.now (elem_of L f w.now))) }
{
    let weight = weight_within(functions.e, degree, extra, limit);
    express_within(
        alloc,
        alg,
        functions.e,
        &functions.z,
        &functions.b.items,
        &functions.weights.items,
        w,
        degree,
        weight,
    )
}

/// Twice the degree, and the greatest degree where it is less.
fn next_degree(degree: u32, most: u32) -> u32
    requires { degree ≤ most }
    ensures within { result ≤ most }
    ensures greater { 0 < degree → degree < most → degree < result }
{
    if degree > most / 2 { most } else { 2 * degree }
}

/// The element over a polynomial in z of a degree d, where e*d is at most the limit, with weights
/// of at most e*d + extra and the limit. None comes exactly where there are no coordinates with
/// weights up to the limit.
fn express_by_steps<K: FiniteField<E = u32>>(
    alloc: Global,
    alg: &Alg<K>,
    functions: &Functions,
    w: &Elem,
    extra: usize,
    limit: u32,
) -> Result<Option<Coords>, NoMemory>
    requires functions { AreFunctionsWithin (K.lawful alg.now.k) alg.now.f limit functions.now }
    requires w { IsElem (K.lawful alg.now.k) alg.now.f w.now }
    ensures some { let L = K.lawful alg.now.k in let f = alg.now.f in IfOk result (λ o. IfSome o
        (IsExpression L f (frame_of functions.now) (elem_of L f w.now)
        (limit / functions.now.e) limit)) }
    ensures none { let L = K.lawful alg.now.k in let f = alg.now.f in IfOk result (λ o. IfNone o
        (¬ IsWritten L f limit functions.now (elem_of L f w.now))) }
{
    let most = limit / functions.e;
    let mut degree = most.min(1);
    while degree < most {
        match express_at(alloc, alg, functions, w, degree, extra, limit)? {
            Some(coords) => return Ok(Some(coords)),
            None => {},
        }
        degree = next_degree(degree, most);
    }
    express_at(alloc, alg, functions, w, most, extra, limit)
}

/// x over a polynomial in z. Its poles have orders of at most the y-degree.
fn express_x<K: FiniteField<E = u32>>(
    alloc: Global,
    alg: &Alg<K>,
    functions: &Functions,
    limit: u32,
) -> Result<Option<Coords>, NoMemory>
    requires functions { AreFunctionsWithin (K.lawful alg.now.k) alg.now.f limit functions.now }
    ensures some { let L = K.lawful alg.now.k in let f = alg.now.f in IfOk result (λ o. IfSome o
        (IsExpression L f (frame_of functions.now) (x_in L f) (limit / functions.now.e) limit)) }
    ensures none { let L = K.lawful alg.now.k in let f = alg.now.f in IfOk result (λ o. IfNone o
        (¬ IsWritten L f limit functions.now (x_in L f))) }
{
    let x = alg.x(alloc)?;
    let n = alg.f.rows().len();
    express_by_steps(alloc, alg, functions, &x, n, limit)
}

/// y over a polynomial in z. Its poles have orders of at most the x-degree.
fn express_y<K: FiniteField<E = u32>>(
    alloc: Global,
    alg: &Alg<K>,
    functions: &Functions,
    limit: u32,
) -> Result<Option<Coords>, NoMemory>
    requires functions { AreFunctionsWithin (K.lawful alg.now.k) alg.now.f limit functions.now }
    ensures some { let L = K.lawful alg.now.k in let f = alg.now.f in IfOk result (λ o. IfSome o
        (IsExpression L f (frame_of functions.now) (y_in L f) (limit / functions.now.e) limit)) }
    ensures none { let L = K.lawful alg.now.k in let f = alg.now.f in IfOk result (λ o. IfNone o
        (¬ IsWritten L f limit functions.now (y_in L f))) }
{
    let y = alg.y(alloc)?;
    let n = alg.f.x_degree().unwrap_or(0);
    express_by_steps(alloc, alg, functions, &y, n, limit)
}

/// Equal elements.
fn copies(alloc: Global, list: &[Elem]) -> Result<Vec<Elem>, NoMemory>
    ensures { IfOk result (λ r. r.items ≡ list.now) }
{
    let mut copies = Vec::with_capacity(alloc, list.len())?;
    for w in list {
        copies.push(w.copy(alloc)?)?;
    }
    Ok(copies)
}

/// Equal functions.
fn copy(alloc: Global, functions: &Functions) -> Result<Functions, NoMemory>
    ensures { IfOk result (λ r. r ≡ functions.now) }
{
    let b = copies(alloc, &functions.b.items)?;
    Ok(Functions {
        e: functions.e,
        z: functions.z.copy(alloc)?,
        b: ElemList { items: b },
        weights: NumberList {
            items: Vec::from_slice(alloc, &functions.weights.items)?,
        },
    })
}

/// The system of its parts.
fn assembled(functions: Functions, table: Table, x: Coords, y: Coords) -> System
    ensures functions { HasFunctions functions result }
    ensures table { result.table ≡ table }
    ensures x { result.x ≡ x }
    ensures y { result.y ≡ y }
{
    System {
        e: functions.e,
        z: functions.z,
        b: functions.b,
        weights: functions.weights,
        table,
        x,
        y,
    }
}

/// The system with the given coordinates of x and y.
fn with_coords<K: FiniteField<E = u32>>(
    alloc: Global,
    alg: &Alg<K>,
    functions: &Functions,
    limit: u32,
    x: Coords,
    y: Coords,
) -> Result<Option<System>, NoMemory>
    requires functions { AreFunctionsWithin (K.lawful alg.now.k) alg.now.f limit functions.now }
    requires x { let L = K.lawful alg.now.k in let f = alg.now.f in IsExpression L f
        (frame_of functions.now) (x_in L f) (limit / functions.now.e) limit x }
    requires y { let L = K.lawful alg.now.k in let f = alg.now.f in IsExpression L f
        (frame_of functions.now) (y_in L f) (limit / functions.now.e) limit y }
    ensures kept { IfOk result (λ o. IfSome o (HasFunctions functions.now)) }
    ensures described { let L = K.lawful alg.now.k in let f = alg.now.f in
        IfOk result (λ o. IfSome o (IsDescribed L f limit)) }
    ensures none { let L = K.lawful alg.now.k in let f = alg.now.f in
        IfOk result (λ o. IfNone o (¬ AllWritten L f limit functions.now)) }
{
    match table_of(alloc, alg, functions, limit)? {
        None => Ok(None),
        Some(table) => {
            let functions = copy(alloc, functions)?;
            Ok(Some(assembled(functions, table, x, y)))
        },
    }
}

/// The system with the given coordinates of x.
fn with_x<K: FiniteField<E = u32>>(
    alloc: Global,
    alg: &Alg<K>,
    functions: &Functions,
    limit: u32,
    x: Coords,
) -> Result<Option<System>, NoMemory>
    requires functions { AreFunctionsWithin (K.lawful alg.now.k) alg.now.f limit functions.now }
    requires x { let L = K.lawful alg.now.k in let f = alg.now.f in IsExpression L f
        (frame_of functions.now) (x_in L f) (limit / functions.now.e) limit x }
    ensures kept { IfOk result (λ o. IfSome o (HasFunctions functions.now)) }
    ensures described { let L = K.lawful alg.now.k in let f = alg.now.f in
        IfOk result (λ o. IfSome o (IsDescribed L f limit)) }
    ensures none { let L = K.lawful alg.now.k in let f = alg.now.f in
        IfOk result (λ o. IfNone o (¬ AllWritten L f limit functions.now)) }
{
    match express_y(alloc, alg, functions, limit)? {
        None => Ok(None),
        Some(y) => with_coords(alloc, alg, functions, limit, x, y),
    }
}

/// The system with the functions; None where one of the three is not written.
fn described<K: FiniteField<E = u32>>(
    alloc: Global,
    alg: &Alg<K>,
    functions: &Functions,
    limit: u32,
) -> Result<Option<System>, NoMemory>
    requires functions { AreFunctionsWithin (K.lawful alg.now.k) alg.now.f limit functions.now }
    ensures kept { IfOk result (λ o. IfSome o (HasFunctions functions.now)) }
    ensures described { let L = K.lawful alg.now.k in let f = alg.now.f in
        IfOk result (λ o. IfSome o (IsDescribed L f limit)) }
    ensures none { let L = K.lawful alg.now.k in let f = alg.now.f in
        IfOk result (λ o. IfNone o (¬ AllWritten L f limit functions.now)) }
{
    match express_x(alloc, alg, functions, limit)? {
        None => Ok(None),
        Some(x) => with_x(alloc, alg, functions, limit, x),
    }
}

/// The system with the functions, with `limit` in place of the pole limit: its table writes the
/// products of the b_i, and x and y are written over monic polynomials q in z, with e times the
/// degree of q, and all weights, up to the limit. Where the functions are the least functions of a
/// point of the maximal orders of an irreducible equation, and e is within the limit, it is a pole
/// system of the point, and None comes only where x or y is not written so. `NoMemory` is the only
/// error. This project's own, after the Apery sets of numerical semigroups.
pub fn describe_within<K: FiniteField<E = u32>>(
    alloc: Global,
    alg: &Alg<K>,
    functions: &Functions,
    limit: u32,
) -> Result<Option<System>, NoMemory>
    requires functions { AreFunctionsWithin (K.lawful alg.now.k) alg.now.f limit functions.now }
    ensures kept { IfOk result (λ o. IfSome o (HasFunctions functions.now)) }
    ensures described { let L = K.lawful alg.now.k in let f = alg.now.f in
        IfOk result (λ o. IfSome o (IsDescribed L f limit)) }
    ensures system { let L = K.lawful alg.now.k in let f = alg.now.f in
        IfOk result (λ o. IfSome o (IsSystemWhereLeast L f limit functions.now)) }
    ensures none { let L = K.lawful alg.now.k in let f = alg.now.f in
        IfOk result (λ o. IfNone o (IsUnwrittenWhereLeast L f limit functions.now)) }
{
    described(alloc, alg, functions, limit)
}

/// The system with the functions: its table writes the products of the b_i, and x and y are written
/// over monic polynomials q in z, with e times the degree of q, and all weights, up to
/// `POLE_LIMIT`. Where the functions are the least functions of a point of the maximal orders of an
/// irreducible equation, it is a pole system of the point, and None comes only where x or y is not
/// written so. `NoMemory` is the only error. This project's own, after the Apery sets of numerical
/// semigroups.
pub fn describe<K: FiniteField<E = u32>>(
    alloc: Global,
    alg: &Alg<K>,
    functions: &Functions,
) -> Result<Option<System>, NoMemory>
    requires { HasFunctionsForm (K.lawful alg.now.k) alg.now.f functions.now }
    ensures kept { IfOk result (λ o. IfSome o (HasFunctions functions.now)) }
    ensures within { IfOk result (λ o. IfSome o IsWithinLimit) }
    ensures described { let L = K.lawful alg.now.k in let f = alg.now.f in
        IfOk result (λ o. IfSome o (IsDescribed L f POLE_LIMIT)) }
    ensures system { let L = K.lawful alg.now.k in let f = alg.now.f in
        IfOk result (λ o. IfSome o (IsSystemWhereLeast L f POLE_LIMIT functions.now)) }
    ensures none { let L = K.lawful alg.now.k in let f = alg.now.f in
        IfOk result (λ o. IfNone o (IsUnwrittenWhereLeast L f POLE_LIMIT functions.now)) }
{
    describe_within(alloc, alg, functions, POLE_LIMIT)
}
