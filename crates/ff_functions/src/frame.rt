// What is combined: numerators of elements of the finite order, and the rows that hold their images
// modulo the infinite order.
ghost use Rattle.std.specs.Prelude.{◌≡◌, ℕ, ◌+◌, ◌*◌, ◌-◌, ◌<◌, ◌≤◌, List, pred, length, IfOk};
ghost use Rattle.std.specs.Prelude.{IsTrue, ◌↔◌};
ghost use Rattle.std.specs.List.{All};
ghost use Rattle.ff_theory.specs.Ring.{IsElement};
ghost use Rattle.ff_theory.specs.Values.{IsPoly};
ghost use Rattle.ff_theory.specs.Vector.{vector_of, IsVector};
ghost use Rattle.ff_theory.specs.Span.{unit_at};
ghost use Rattle.ff_lin.specs.Space.{AreVectors, IsSpaceOf, rows_of};
ghost use Rattle.ff_data.specs.declared.order.Chart.TheVariants.{Finite, Infinite};
ghost use Rattle.ff_data.specs.Orders.{y_degree, slope_of, IsOrder};
ghost use Rattle.ff_functions.specs.Elements.{IsMultiple, HoldMultiples, IsGrown, AreNumerators};
ghost use Rattle.ff_functions.specs.Elements.{AddsVectors};

use crate::echelon::Echelon;
use crate::images::{image, raised};
use ff_alg::{FiniteField, NoMemory};
use ff_common::{power_times_space, slope_at_infinity};
use ff_data::Order;
use ff_elem::Alg;
use ff_lin::Space;
use ff_poly::Poly;
use std::alloc::Global;

/// Numerators over d of elements of the finite order, as vectors with rows of `l` coefficients; the
/// slope at infinity; and h, the number of coefficients of a row of an image.
#[derive(Drop)]
pub struct Frame {
    pub slope: u32,
    pub l: usize,
    pub h: usize,
    pub numerators: Vec<Vec<u32>>,
}

/// `n` zeros.
fn zeros<K: FiniteField<E = u32>>(alloc: Global, k: &K, n: usize) -> Result<Vec<u32>, NoMemory>
    ensures vector { IfOk result (λ v. IsVector (K.elements k.now) n v.items) }
    ensures value { let F = K.elements k.now in
        IfOk result (λ v. (i : ℕ) → vector_of F v.items i ≡ F.zero) }
{
    let mut zeros = Vec::with_capacity(alloc, n)?;
    for _j in 0..n {
        zeros.push(k.zero())?;
    }
    Ok(zeros)
}

/// `n` zeros and then one.
pub(crate) fn unit<K: FiniteField<E = u32>>(
    alloc: Global,
    k: &K,
    n: usize,
) -> Result<Vec<u32>, NoMemory>
    ensures vector { IfOk result (λ v. IsVector (K.elements k.now) (n + 1) v.items) }
    ensures value { let F = K.elements k.now in
        IfOk result (λ v. (i : ℕ) → vector_of F v.items i ≡ unit_at F.ring n i) }
{
    let mut unit = zeros(alloc, k, n)?;
    unit.push(k.one())?;
    Ok(unit)
}

/// The vector of length `len` with the coefficients of d from index `at` on.
fn shifted<K: FiniteField<E = u32>>(
    alloc: Global,
    k: &K,
    d: &Poly,
    len: usize,
    at: usize,
) -> Result<Vec<u32>, NoMemory>
    requires d { IsPoly (K.elements k.now) d.now }
    requires room { at + length d.now ≤ len }
    ensures vector { IfOk result (λ v. IsVector (K.elements k.now) len v.items) }
    ensures value { let F = K.elements k.now in
        IfOk result (λ v. IsMultiple F d.now at (vector_of F v.items)) }
{
    let mut v = zeros(alloc, k, len)?;
    k.add_scaled(&mut v, at, k.one(), d.coeffs());
    Ok(v)
}

/// Whether x^b times power i of y' has a pole of order m at most in the infinite chart.
fn is_within(m: usize, slope: u32, i: usize, b: usize) -> bool
    ensures { IsTrue result ↔ (i * slope + b ≤ m) }
{
    match i.checked_mul(slope as usize) {
        Some(h) => h <= m && b <= m - h,
        None => false,
    }
}

/// The list, with the vector of length `len` with the coefficients of d from index `at` on where it
/// is wanted.
fn with_multiple<K: FiniteField<E = u32>>(
    alloc: Global,
    k: &K,
    d: &Poly,
    len: usize,
    at: usize,
    wanted: bool,
    list: Vec<Vec<u32>>,
) -> Result<Vec<Vec<u32>>, NoMemory>
    requires d { IsPoly (K.elements k.now) d.now }
    requires room { at + length d.now ≤ len }
    requires list { AreVectors (K.elements k.now) len list.items }
    ensures vectors { IfOk result (λ r. AreVectors (K.elements k.now) len r.items) }
    ensures grown { IfOk result
        (λ r. IsGrown (K.elements k.now) d.now at wanted list.items r.items) }
{
    if !wanted {
        return Ok(list);
    }
    let v = shifted(alloc, k, d, len, at)?;
    let mut list = list;
    list.push(v)?;
    Ok(list)
}

/// The list with the numerators over d of the x^b times power i of y' that have poles of order m at
/// most at infinity, with rows of `l` coefficients.
fn with_multiples<K: FiniteField<E = u32>>(
    alloc: Global,
    alg: &Alg<K>,
    d: &Poly,
    m: usize,
    slope: u32,
    l: usize,
    len: usize,
    i: usize,
    list: Vec<Vec<u32>>,
) -> Result<Vec<Vec<u32>>, NoMemory>
    requires d { IsPoly (K.elements alg.now.k) d.now }
    requires nonzero { 0 < length d.now }
    requires room { length d.now + m ≤ l }
    requires len { let L = K.lawful alg.now.k in len ≡ y_degree L alg.now.f * l }
    requires row { let L = K.lawful alg.now.k in i < y_degree L alg.now.f }
    requires list { AreVectors (K.elements alg.now.k) len list.items }
    requires held { let L = K.lawful alg.now.k in HoldMultiples (K.elements alg.now.k) d.now l
        (y_degree L alg.now.f) m slope i 0 (rows_of list.items) }
    ensures vectors { IfOk result (λ r. AreVectors (K.elements alg.now.k) len r.items) }
    ensures held { let L = K.lawful alg.now.k in
        IfOk result (λ r. HoldMultiples (K.elements alg.now.k) d.now l
        (y_degree L alg.now.f) m slope (i + 1) 0 (rows_of r.items)) }
{
    let mut list = list;
    let start = i * l;
    for b in 0..m + 1 {
        let wanted = is_within(m, slope, i, b);
        list = with_multiple(alloc, &alg.k, d, len, start + b, wanted, list)?;
    }
    Ok(list)
}

/// The numerators over d of the x^b times powers of y' that have poles of order m at most at
/// infinity, with rows of `l` coefficients.
fn multiples<K: FiniteField<E = u32>>(
    alloc: Global,
    alg: &Alg<K>,
    d: &Poly,
    m: usize,
    slope: u32,
    l: usize,
    len: usize,
) -> Result<Vec<Vec<u32>>, NoMemory>
    requires d { IsPoly (K.elements alg.now.k) d.now }
    requires nonzero { 0 < length d.now }
    requires room { length d.now + m ≤ l }
    requires len { let L = K.lawful alg.now.k in len ≡ y_degree L alg.now.f * l }
    ensures vectors { IfOk result (λ r. AreVectors (K.elements alg.now.k) len r.items) }
    ensures held { let L = K.lawful alg.now.k in let n = y_degree L alg.now.f in
        IfOk result (λ r. HoldMultiples (K.elements alg.now.k) d.now l n m slope n 0
        (rows_of r.items)) }
{
    let mut list = Vec::new(alloc);
    for i in 0..alg.f.rows().len() - 1 {
        list = with_multiples(alloc, alg, d, m, slope, l, len, i, list)?;
    }
    Ok(list)
}

/// The list with the vectors, whose rows have `short` coefficients, with rows of `l`.
fn with_vectors<K: FiniteField<E = u32>>(
    alloc: Global,
    alg: &Alg<K>,
    list: Vec<Vec<u32>>,
    vectors: &[Vec<u32>],
    short: usize,
    l: usize,
) -> Result<Vec<Vec<u32>>, NoMemory>
    requires list { let L = K.lawful alg.now.k in
        AreVectors (K.elements alg.now.k) (y_degree L alg.now.f * l) list.items }
    requires vectors { let L = K.lawful alg.now.k in
        AreVectors (K.elements alg.now.k) (y_degree L alg.now.f * short) vectors.now }
    requires room { short ≤ l }
    ensures vectors { let L = K.lawful alg.now.k in
        IfOk result (λ r. AreVectors (K.elements alg.now.k) (y_degree L alg.now.f * l) r.items) }
    ensures held { let L = K.lawful alg.now.k in IfOk result (λ r. AddsVectors L alg.now.f short l
        (rows_of vectors.now) (rows_of list.items) (rows_of r.items)) }
{
    let mut list = list;
    for v in vectors {
        list.push(raised(alloc, alg, 0, short, l, v)?)?;
    }
    Ok(list)
}

/// A number h that is positive and at least m, so that the images of proper fractions have rows of
/// h coefficients.
fn image_rows<K: FiniteField<E = u32>>(
    alg: &Alg<K>,
    slope: u32,
    m: usize,
) -> Result<usize, NoMemory>
    ensures positive { IfOk result (λ h. 0 < h) }
    ensures least { IfOk result (λ h. m ≤ h) }
    ensures steep { let L = K.lawful alg.now.k in
        IfOk result (λ h. (y_degree L alg.now.f - 1) * slope ≤ h) }
{
    match (alg.f.rows().len() - 2).checked_mul(slope as usize) {
        Some(h) => Ok(h.max(m).max(1)),
        None => Err(NoMemory),
    }
}

/// Numerators over d of elements of the finite order, with rows of `l` coefficients: of all that
/// have poles of order m at most at infinity, up to elements of the power order.
fn numerators<K: FiniteField<E = u32>>(
    alloc: Global,
    alg: &Alg<K>,
    finite: &Order,
    m: usize,
    slope: u32,
    l: usize,
) -> Result<Vec<Vec<u32>>, NoMemory>
    requires order { IsOrder (K.lawful alg.now.k) alg.now.f finite.now }
    requires l { l ≡ length finite.now.d + m }
    requires slope { slope ≡ slope_of (K.lawful alg.now.k) alg.now.f }
    ensures vectors { let L = K.lawful alg.now.k in
        IfOk result (λ r. AreVectors (K.elements alg.now.k) (y_degree L alg.now.f * l) r.items) }
    ensures held { let L = K.lawful alg.now.k in IfOk result (λ r.
        AreNumerators L alg.now.f finite.now.d m (pred (length finite.now.d)) l
        finite.now.space.basis (rows_of r.items)) }
{
    let short = finite.d.coeffs().len() - 1;
    match (alg.f.rows().len() - 1).checked_mul(l) {
        Some(len) => {
            let list = multiples(alloc, alg, &finite.d, m, slope, l, len)?;
            with_vectors(alloc, alg, list, finite.space.basis(), short, l)
        },
        None => Err(NoMemory),
    }
}

impl Frame {
    ghost use Rattle.ff_functions.specs.Rows.{HoldImages};
    ghost use Rattle.ff_functions.specs.Searches.{AreRows, HasFrameForm, HoldNumerators};
    ghost use Rattle.ff_functions.specs.Elements.{HasFrameElements};
    ghost use Rattle.ff_data.specs.declared.order.Order.{Order};

    /// The frame for elements of the finite order with poles of order m at most at infinity.
    pub(crate) fn new<K: FiniteField<E = u32>>(
        alloc: Global,
        alg: &Alg<K>,
        finite: &Order,
        m: usize,
    ) -> Result<Frame, NoMemory>
        requires order { IsOrder (K.lawful alg.now.k) alg.now.f finite.now }
        ensures form { IfOk result (HasFrameForm (K.lawful alg.now.k) alg.now.f) }
        ensures rows { IfOk result (λ r. m ≤ r.h) }
        ensures elements { let L = K.lawful alg.now.k in finite.now.chart ≡ Finite →
            IfOk result (λ r. HasFrameElements L alg.now.f r finite.now m) }
    {
        let slope = slope_at_infinity(alloc, alg)?;
        let h = image_rows(alg, slope, m)?;
        match finite.d.coeffs().len().checked_add(m) {
            Some(l) => {
                let numerators = numerators(alloc, alg, finite, m, slope, l)?;
                Ok(Frame {
                    slope,
                    l,
                    h,
                    numerators,
                })
            },
            None => Err(NoMemory),
        }
    }

    /// The rows of the vectors of a space.
    fn rows_of<K: FiniteField<E = u32>>(
        alloc: Global,
        alg: &Alg<K>,
        space: &Space,
        len: usize,
    ) -> Result<Echelon, NoMemory>
        requires { IsSpaceOf (K.elements alg.now.k) len space.now }
        ensures rows { IfOk result (λ r. AreRows (K.elements alg.now.k) len 0 r.rows.items) }
        ensures held { let F = K.elements alg.now.k in
            IfOk result (λ r. (images : ℕ → ℕ → F.carrier) →
            HoldImages F space.now 0 images r.rows.items) }
    {
        let _len = len;
        let mut echelon = Echelon::new(alloc);
        for v in space.basis() {
            echelon = echelon.with_vector(alloc, &alg.k, v)?;
        }
        Ok(echelon)
    }

    /// The rows of the residues of the infinite order.
    fn target<K: FiniteField<E = u32>>(
        &self,
        alloc: Global,
        alg: &Alg<K>,
        infinite: &Order,
    ) -> Result<Echelon, NoMemory>
        requires order { IsOrder (K.lawful alg.now.k) alg.now.f infinite.now }
        requires form { HasFrameForm (K.lawful alg.now.k) alg.now.f self.now }
        requires room { pred (length infinite.now.d) ≤ self.now.h }
        ensures rows { let L = K.lawful alg.now.k in let n = y_degree L alg.now.f in
            IfOk result (λ r. AreRows (K.elements alg.now.k) (n * self.now.h) 0 r.rows.items) }
        ensures held { let L = K.lawful alg.now.k in IfOk result (λ r. (d : List ℕ) →
            HoldNumerators L alg.now.f self.now d infinite.now 0 r.rows.items) }
    {
        let m = infinite.d.coeffs().len() - 1;
        let space = power_times_space(alloc, alg, m, &infinite.space, self.h)?;
        Frame::rows_of(alloc, alg, &space, space.len())
    }

    /// The rows of the residues of the infinite order, and of the images of the numerators over d.
    pub(crate) fn start<K: FiniteField<E = u32>>(
        &self,
        alloc: Global,
        alg: &Alg<K>,
        d: &Poly,
        infinite: &Order,
    ) -> Result<Echelon, NoMemory>
        requires d { IsPoly (K.elements alg.now.k) d.now }
        requires nonzero { 0 < length d.now }
        requires order { IsOrder (K.lawful alg.now.k) alg.now.f infinite.now }
        requires form { HasFrameForm (K.lawful alg.now.k) alg.now.f self.now }
        requires room { pred (length infinite.now.d) ≤ self.now.h }
        ensures rows { let L = K.lawful alg.now.k in let n = y_degree L alg.now.f in
            IfOk result (λ r. AreRows (K.elements alg.now.k) (n * self.now.h)
            (length self.now.numerators.items) r.rows.items) }
        ensures held { let L = K.lawful alg.now.k in IfOk result (λ r.
            HoldNumerators L alg.now.f self.now d.now infinite.now
            (length self.now.numerators.items) r.rows.items) }
    {
        let mut echelon = self.target(alloc, alg, infinite)?;
        for i in 0..self.numerators.len() {
            echelon = self.with_numerator(alloc, alg, d, echelon, i)?;
        }
        Ok(echelon)
    }

    /// The rows with one for the image of numerator i over d.
    fn with_numerator<K: FiniteField<E = u32>>(
        &self,
        alloc: Global,
        alg: &Alg<K>,
        d: &Poly,
        echelon: Echelon,
        i: usize,
    ) -> Result<Echelon, NoMemory>
        requires d { IsPoly (K.elements alg.now.k) d.now }
        requires nonzero { 0 < length d.now }
        requires form { HasFrameForm (K.lawful alg.now.k) alg.now.f self.now }
        requires index { i < length self.now.numerators.items }
        requires rows { let L = K.lawful alg.now.k in let n = y_degree L alg.now.f in
            AreRows (K.elements alg.now.k) (n * self.now.h) i echelon.rows.items }
        ensures rows { let L = K.lawful alg.now.k in let n = y_degree L alg.now.f in
            IfOk result (λ r. AreRows (K.elements alg.now.k) (n * self.now.h) (i + 1)
            r.rows.items) }
        ensures held { let L = K.lawful alg.now.k in let f = alg.now.f in
            IfOk result (λ r. (o : Order) →
            HoldNumerators L f self.now d.now o i echelon.rows.items →
            HoldNumerators L f self.now d.now o (i + 1) r.rows.items) }
    {
        let v = &self.numerators[i];
        let image = image(alloc, alg, self.slope, self.h, v, self.l, d)?;
        let unit = unit(alloc, &alg.k, i)?;
        let (next, _relation) = echelon.insert(alloc, &alg.k, image, unit)?;
        Ok(next)
    }
}
