// The functions of the pole numbers that were found.
ghost use Rattle.std.specs.Prelude.{◌≡◌, ℕ, ◌+◌, ◌*◌, ◌<◌, ◌≤◌, length, get_or, IfOk};
ghost use Rattle.std.specs.List.{All};
ghost use Rattle.ff_theory.specs.Ring.{IsElement, power};
ghost use Rattle.ff_theory.specs.Values.{IsPoly, poly_of, polys_over, plane_of};
ghost use Rattle.ff_theory.specs.Vector.{vector_of, IsVector};
ghost use Rattle.ff_elem.specs.Elem.{algebra_in, elem_of, IsElem};
ghost use Rattle.ff_data.specs.declared.order.Chart.TheVariants.{Finite};
ghost use Rattle.ff_data.specs.Orders.{y_degree, IsOrder};
ghost use Rattle.ff_data.specs.Vectors.{IsPlaneWithin};
ghost use Rattle.ff_data.specs.Combinations.{AreElems};
ghost use Rattle.ff_forms.specs.Forms.{HasFunctionsForm};
ghost use Rattle.ff_forms.specs.declared.functions.TheConstants.{POLE_LIMIT};
ghost use Rattle.ff_functions.specs.Searches.{HasFrameForm, HasTrailForm, IsNumber, HasClass};
ghost use Rattle.ff_functions.specs.Searches.{HasFound};
ghost use Rattle.ff_functions.specs.Combined.{IsBaseVector, IsPlaneSum, IsWithPowers, IsBasePlane};
ghost use Rattle.ff_functions.specs.Combined.{IsFiniteFunction, IsInfiniteFunction, IsFunctionOf};
ghost use Rattle.ff_functions.specs.Combined.{AreClassFunctions, AreClassWeights};
ghost use Rattle.ff_functions.specs.Combined.{HasNextFunction, AreAssembled};

use crate::frame::Frame;
use crate::numbers::{PoleNumber, class_index};
use crate::search::{Search, Trail};
use ff_alg::{FiniteField, NoMemory};
use ff_common::{element, quotient};
use ff_data::{Chart, ElemList, NumberList, Order, combination};
use ff_elem::{Alg, Elem};
use ff_forms::Functions;
use ff_lattice::plane_of_vector;
use ff_poly::{Plane, Poly, rows};
use std::alloc::Global;

/// The combination of the numerators.
fn base<K: FiniteField<E = u32>>(
    alloc: Global,
    alg: &Alg<K>,
    frame: &Frame,
    coefficients: &[u32],
) -> Result<Vec<u32>, NoMemory>
    requires frame { HasFrameForm (K.lawful alg.now.k) alg.now.f frame.now }
    requires coefficients { let c = length frame.now.numerators.items in
        IsVector (K.elements alg.now.k) c coefficients.now }
    ensures vector { let L = K.lawful alg.now.k in let n = y_degree L alg.now.f in
        IfOk result (λ r. IsVector (K.elements alg.now.k) (n * frame.now.l) r.items) }
    ensures value { let L = K.lawful alg.now.k in let F = K.elements alg.now.k in
        IfOk result (λ r. IsBaseVector L alg.now.f frame.now (vector_of F coefficients.now)
        (vector_of F r.items)) }
{
    match (alg.f.rows().len() - 1).checked_mul(frame.l) {
        Some(len) => combination(alloc, &alg.k, len, coefficients, &frame.numerators),
        None => Err(NoMemory),
    }
}

/// The sum `factor * a + c * b`.
fn sum<K: FiniteField<E = u32>>(
    alloc: Global,
    alg: &Alg<K>,
    factor: &Poly,
    a: &Plane,
    c: u32,
    b: &Plane,
) -> Result<Plane, NoMemory>
    requires factor { IsPoly (K.elements alg.now.k) factor.now }
    requires a { let F = K.elements alg.now.k in let L = K.lawful alg.now.k in
        IsPlaneWithin F (y_degree L alg.now.f) a.now }
    requires c { IsElement (K.elements alg.now.k) c }
    requires b { let F = K.elements alg.now.k in let L = K.lawful alg.now.k in
        IsPlaneWithin F (y_degree L alg.now.f) b.now }
    ensures plane { let F = K.elements alg.now.k in let L = K.lawful alg.now.k in
        IfOk result (IsPlaneWithin F (y_degree L alg.now.f)) }
    ensures value { let F = K.elements alg.now.k in let L = K.lawful alg.now.k in
        IfOk result (IsPlaneSum L alg.now.f (poly_of F factor.now) (plane_of F a.now) (F.value c)
        (plane_of F b.now)) }
{
    let c = Poly::from_coeffs(alloc, &alg.k, &[c])?;
    let list = rows::combination(alloc, &alg.k, factor, a.rows(), &c, 0, b.rows())?;
    Ok(Plane::from_vec(&alg.k, list))
}

/// The numerator over d*(u - a)^j, with j the number of coefficients, of the sum of the element
/// with a numerator over d and of the combination of the powers.
fn with_powers<K: FiniteField<E = u32>>(
    alloc: Global,
    alg: &Alg<K>,
    root: &Poly,
    base: Plane,
    coefficients: &[u32],
    powers: &[Plane],
) -> Result<Plane, NoMemory>
    requires root { IsPoly (K.elements alg.now.k) root.now }
    requires base { let F = K.elements alg.now.k in let L = K.lawful alg.now.k in
        IsPlaneWithin F (y_degree L alg.now.f) base }
    requires coefficients { All (IsElement (K.elements alg.now.k)) coefficients.now }
    requires powers { let F = K.elements alg.now.k in let L = K.lawful alg.now.k in
        All (IsPlaneWithin F (y_degree L alg.now.f)) powers.now }
    requires enough { length coefficients.now ≤ length powers.now }
    ensures plane { let F = K.elements alg.now.k in let L = K.lawful alg.now.k in
        IfOk result (IsPlaneWithin F (y_degree L alg.now.f)) }
    ensures value { let F = K.elements alg.now.k in let L = K.lawful alg.now.k in
        let n = length coefficients.now in IfOk result (IsWithPowers L alg.now.f root.now base
        powers.now n (vector_of F coefficients.now)) }
{
    let mut numerator = base;
    for i in 0..coefficients.len() {
        numerator = sum(alloc, alg, root, &numerator, coefficients[i], &powers[i])?;
    }
    Ok(numerator)
}

/// The product of d, which is not 0, and of a power of a polynomial that is not 0.
fn denominator<K: FiniteField<E = u32>>(
    alloc: Global,
    alg: &Alg<K>,
    d: &Poly,
    root: &Poly,
    j: u32,
) -> Result<Poly, NoMemory>
    requires d { IsPoly (K.elements alg.now.k) d.now }
    requires nonzero { 0 < length d.now }
    requires root { IsPoly (K.elements alg.now.k) root.now }
    requires root_nonzero { 0 < length root.now }
    ensures poly { IfOk result (IsPoly (K.elements alg.now.k)) }
    ensures nonzero { IfOk result (λ r. 0 < length r) }
    ensures value { let F = K.elements alg.now.k in let P = polys_over F in IfOk result (λ r.
        poly_of F r ≡ P.mul (poly_of F d.now) (power P (poly_of F root.now) j)) }
{
    let power = root.power(alloc, &alg.k, j)?;
    d.mul(alloc, &alg.k, &power)
}

/// The plane of the combination of the numerators.
fn base_plane<K: FiniteField<E = u32>>(
    alloc: Global,
    alg: &Alg<K>,
    frame: &Frame,
    coefficients: &[u32],
) -> Result<Plane, NoMemory>
    requires frame { HasFrameForm (K.lawful alg.now.k) alg.now.f frame.now }
    requires coefficients { let c = length frame.now.numerators.items in
        IsVector (K.elements alg.now.k) c coefficients.now }
    ensures plane { let F = K.elements alg.now.k in let L = K.lawful alg.now.k in
        IfOk result (IsPlaneWithin F (y_degree L alg.now.f)) }
    ensures value { let L = K.lawful alg.now.k in let F = K.elements alg.now.k in
        IfOk result (IsBasePlane L alg.now.f frame.now (vector_of F coefficients.now)) }
{
    let v = base(alloc, alg, frame, coefficients)?;
    let plane = plane_of_vector(alloc, &alg.k, &v, alg.f.rows().len() - 1, frame.l)?;
    Ok(plane)
}

/// The function of a pole number at a point of the finite chart.
fn finite_function<K: FiniteField<E = u32>>(
    alloc: Global,
    alg: &Alg<K>,
    finite: &Order,
    frame: &Frame,
    trail: &Trail,
    number: &PoleNumber,
) -> Result<Elem, NoMemory>
    requires order { IsOrder (K.lawful alg.now.k) alg.now.f finite.now }
    requires frame { HasFrameForm (K.lawful alg.now.k) alg.now.f frame.now }
    requires trail { let L = K.lawful alg.now.k in let m = length trail.now.passed.items in
        HasTrailForm L alg.now.f finite.now m m trail.now }
    requires number { IsNumber (K.elements alg.now.k) (length frame.now.numerators.items)
        (length trail.now.passed.items) number.now }
    ensures elem { IfOk result (IsElem (K.lawful alg.now.k) alg.now.f) }
    ensures value { let L = K.lawful alg.now.k in IfOk result (IsFiniteFunction L alg.now.f
        finite.now.d frame.now trail.now number.now) }
{
    let c = frame.numerators.len();
    let root = &trail.powers.root;
    let base = base_plane(alloc, alg, frame, &number.relation[..c])?;
    let tail = &number.relation[c..];
    let numerator = with_powers(alloc, alg, root, base, tail, &trail.passed)?;
    let den = denominator(alloc, alg, &finite.d, root, number.j)?;
    element(alloc, alg, numerator.rows(), &den)
}

/// The function of a pole number at a point of the infinite chart.
fn infinite_function<K: FiniteField<E = u32>>(
    alloc: Global,
    alg: &Alg<K>,
    finite: &Order,
    frame: &Frame,
    number: &PoleNumber,
) -> Result<Elem, NoMemory>
    requires order { IsOrder (K.lawful alg.now.k) alg.now.f finite.now }
    requires frame { HasFrameForm (K.lawful alg.now.k) alg.now.f frame.now }
    requires number { let c = length frame.now.numerators.items in
        IsVector (K.elements alg.now.k) (c + number.now.j) number.now.relation.items }
    ensures elem { IfOk result (IsElem (K.lawful alg.now.k) alg.now.f) }
    ensures value { let L = K.lawful alg.now.k in IfOk result (IsInfiniteFunction L alg.now.f
        finite.now.d frame.now number.now) }
{
    let head = &number.relation[..frame.numerators.len()];
    let v = base(alloc, alg, frame, head)?;
    quotient(alloc, alg, &finite.d, frame.l, &v)
}

/// The function of a pole number at a point of the order.
fn function<K: FiniteField<E = u32>>(
    alloc: Global,
    alg: &Alg<K>,
    order: &Order,
    finite: &Order,
    frame: &Frame,
    trail: &Trail,
    number: &PoleNumber,
) -> Result<Elem, NoMemory>
    requires order { IsOrder (K.lawful alg.now.k) alg.now.f finite.now }
    requires own { order.now.chart ≡ Finite → order.now ≡ finite.now }
    requires frame { HasFrameForm (K.lawful alg.now.k) alg.now.f frame.now }
    requires trail { let L = K.lawful alg.now.k in let m = length trail.now.passed.items in
        HasTrailForm L alg.now.f order.now m m trail.now }
    requires number { IsNumber (K.elements alg.now.k) (length frame.now.numerators.items)
        (length trail.now.passed.items) number.now }
    ensures elem { IfOk result (IsElem (K.lawful alg.now.k) alg.now.f) }
    ensures value { let L = K.lawful alg.now.k in let chart = order.now.chart in IfOk result
        (IsFunctionOf L alg.now.f chart finite.now.d frame.now trail.now number.now) }
{
    match order.chart {
        Chart::Finite => finite_function(alloc, alg, finite, frame, trail, number),
        Chart::Infinite => infinite_function(alloc, alg, finite, frame, number),
    }
}

/// The list with the function of the least number that is i modulo e.
fn with_function<K: FiniteField<E = u32>>(
    alloc: Global,
    alg: &Alg<K>,
    order: &Order,
    finite: &Order,
    frame: &Frame,
    search: &Search,
    e: u32,
    i: u32,
    list: Vec<Elem>,
) -> Result<Vec<Elem>, NoMemory>
    requires order { IsOrder (K.lawful alg.now.k) alg.now.f finite.now }
    requires own { order.now.chart ≡ Finite → order.now ≡ finite.now }
    requires frame { HasFrameForm (K.lawful alg.now.k) alg.now.f frame.now }
    requires found { HasFound (K.lawful alg.now.k) alg.now.f order.now
        (length frame.now.numerators.items) search.now }
    requires positive { 0 < e }
    requires class { HasClass search.now.numbers.items e i }
    requires list { AreElems (K.lawful alg.now.k) alg.now.f list.items }
    ensures elems { IfOk result (λ r. AreElems (K.lawful alg.now.k) alg.now.f r.items) }
    ensures count { IfOk result (λ r. length r.items ≡ length list.items + 1) }
    ensures grown { let L = K.lawful alg.now.k in let chart = order.now.chart in IfOk result
        (λ r. HasNextFunction L alg.now.f chart finite.now.d frame.now search.now e i list.items
        r.items) }
{
    let number = &search.numbers[class_index(&search.numbers, e, i)];
    let function = function(alloc, alg, order, finite, frame, &search.trail, number)?;
    let mut list = list;
    list.push(function)?;
    Ok(list)
}

/// The list with 1 alone.
fn one_alone<K: FiniteField<E = u32>>(alloc: Global, alg: &Alg<K>) -> Result<Vec<Elem>, NoMemory>
    ensures elems { IfOk result (λ r. AreElems (K.lawful alg.now.k) alg.now.f r.items) }
    ensures count { IfOk result (λ r. length r.items ≡ 1) }
    ensures one { let L = K.lawful alg.now.k in IfOk result (λ r. (a : Elem) →
        elem_of L alg.now.f (get_or r.items 0 a) ≡ (algebra_in L alg.now.f).one) }
{
    let one = alg.one(alloc)?;
    let mut list = Vec::new(alloc);
    list.push(one)?;
    Ok(list)
}

/// 1, and the functions of the other classes modulo e.
fn basis<K: FiniteField<E = u32>>(
    alloc: Global,
    alg: &Alg<K>,
    order: &Order,
    finite: &Order,
    frame: &Frame,
    search: &Search,
    e: u32,
) -> Result<Vec<Elem>, NoMemory>
    requires order { IsOrder (K.lawful alg.now.k) alg.now.f finite.now }
    requires own { order.now.chart ≡ Finite → order.now ≡ finite.now }
    requires frame { HasFrameForm (K.lawful alg.now.k) alg.now.f frame.now }
    requires found { HasFound (K.lawful alg.now.k) alg.now.f order.now
        (length frame.now.numerators.items) search.now }
    requires positive { 0 < e }
    requires classes { (i : ℕ) → i < e → HasClass search.now.numbers.items e i }
    ensures elems { IfOk result (λ r. AreElems (K.lawful alg.now.k) alg.now.f r.items) }
    ensures count { IfOk result (λ r. length r.items ≡ e) }
    ensures functions { let L = K.lawful alg.now.k in let chart = order.now.chart in IfOk result
        (λ r. AreClassFunctions L alg.now.f chart finite.now.d frame.now search.now e e r.items) }
{
    let mut list = one_alone(alloc, alg)?;
    for i in 1..e {
        list = with_function(alloc, alg, order, finite, frame, search, e, i, list)?;
    }
    Ok(list)
}

/// 0, and the least numbers of the other classes modulo e.
fn weights(alloc: Global, numbers: &[PoleNumber], e: u32) -> Result<Vec<u32>, NoMemory>
    requires numbers { All (λ p. p.j ≤ POLE_LIMIT) numbers.now }
    requires positive { 0 < e }
    requires classes { (i : ℕ) → i < e → HasClass numbers.now e i }
    ensures count { IfOk result (λ r. length r.items ≡ e) }
    ensures within { IfOk result (λ r. All (λ m. m ≤ POLE_LIMIT) r.items) }
    ensures weights { IfOk result (λ r. AreClassWeights numbers.now e e r.items) }
{
    let mut list = Vec::new(alloc);
    list.push(0)?;
    for i in 1..e {
        list.push(numbers[class_index(numbers, e, i)].j)?;
    }
    Ok(list)
}

/// The functions of a complete search at a point of the order.
pub(crate) fn assembled<K: FiniteField<E = u32>>(
    alloc: Global,
    alg: &Alg<K>,
    order: &Order,
    finite: &Order,
    frame: &Frame,
    search: &Search,
) -> Result<Functions, NoMemory>
    requires order { IsOrder (K.lawful alg.now.k) alg.now.f finite.now }
    requires own { order.now.chart ≡ Finite → order.now ≡ finite.now }
    requires frame { HasFrameForm (K.lawful alg.now.k) alg.now.f frame.now }
    requires found { HasFound (K.lawful alg.now.k) alg.now.f order.now
        (length frame.now.numerators.items) search.now }
    ensures form { IfOk result (HasFunctionsForm (K.lawful alg.now.k) alg.now.f) }
    ensures assembled { let L = K.lawful alg.now.k in let chart = order.now.chart in IfOk result
        (AreAssembled L alg.now.f chart finite.now.d frame.now search.now) }
{
    let first = &search.numbers[0];
    let e = first.j;
    let z = function(alloc, alg, order, finite, frame, &search.trail, first)?;
    let items = basis(alloc, alg, order, finite, frame, search, e)?;
    let b = ElemList { items };
    let items = weights(alloc, &search.numbers, e)?;
    let weights = NumberList { items };
    Ok(Functions { e, z, b, weights })
}
