// What a lattice of the finite chart and one of the infinite chart have in common.
ghost use Rattle.std.specs.Prelude.{◌≡◌, ℕ, ◌*◌, ◌<◌, length, IfOk};
ghost use Rattle.ff_theory.specs.Values.{IsPoly};
ghost use Rattle.ff_theory.specs.Vector.{vector_of, IsVector, combination_of};
ghost use Rattle.ff_lin.specs.Space.{rows_of, AreVectors, IsSpaceOf, HasExactly};
ghost use Rattle.ff_elem.specs.Elem.{elem_of, IsElem};
ghost use Rattle.ff_data.specs.declared.order.Chart.TheVariants.{Finite, Infinite};
ghost use Rattle.ff_data.specs.Orders.{y_degree};
ghost use Rattle.ff_data.specs.Lattices.{IsLattice, InBoth};
ghost use Rattle.ff_data.specs.Combinations.{IsBasisOf};
ghost use Rattle.ff_common.specs.Common.{HoldsNumerators, AtInfinity};
ghost use Rattle.ff_common.specs.Common.{HasVectorOver, AreQuotientsBy};

use crate::held::held_numerators;
use crate::images::images;
use crate::numerators::element;
use crate::times::power_times_space;
use ff_alg::{FiniteField, NoMemory};
use ff_data::combinations;
use ff_elem::{Alg, Elem};
use ff_lattice::plane_of_vector;
use ff_lin::Space;
use ff_poly::Poly;
use std::alloc::Global;

/// The coefficients of the combinations of a space of numerators over d whose elements are in the
/// infinite lattice.
fn kept_coefficients<K: FiniteField<E = u32>>(
    alloc: Global,
    alg: &Alg<K>,
    d: &Poly,
    l: usize,
    held: &Space,
    t: &Poly,
    other: &Space,
) -> Result<Space, NoMemory>
    requires d { IsPoly (K.elements alg.now.k) d.now }
    requires nonzero { 0 < length d.now }
    requires held { let L = K.lawful alg.now.k in
        IsSpaceOf (K.elements alg.now.k) (y_degree L alg.now.f * l) held.now }
    requires infinite { IsLattice (K.lawful alg.now.k) alg.now.f Infinite t.now other.now }
    ensures space { IfOk result (IsSpaceOf (K.elements alg.now.k) (length held.now.basis)) }
    ensures exact { let F = K.elements alg.now.k in let L = K.lawful alg.now.k in
        let f = alg.now.f in IfOk result (λ r. HasExactly F r (λ v.
        AtInfinity L f d.now l t.now other.now (combination_of F held.now.basis v))) }
{
    let m = t.coeffs().len() - 1;
    let (h, images) = images(alloc, alg, d, l, held.basis(), m)?;
    let target = power_times_space(alloc, alg, m, other, h)?;
    target.preimage(alloc, &alg.k, &images)
}

/// The numerators over d of the common elements, and how long their rows are.
fn common_numerators<K: FiniteField<E = u32>>(
    alloc: Global,
    alg: &Alg<K>,
    d: &Poly,
    space: &Space,
    t: &Poly,
    other: &Space,
) -> Result<(usize, Space), NoMemory>
    requires finite { IsLattice (K.lawful alg.now.k) alg.now.f Finite d.now space.now }
    requires infinite { IsLattice (K.lawful alg.now.k) alg.now.f Infinite t.now other.now }
    ensures { let L = K.lawful alg.now.k in let f = alg.now.f in
        let P = InBoth L f d.now space.now t.now other.now in
        IfOk result (λ r. HoldsNumerators L f d.now r.0 P P r.1) }
{
    let (l, held) = held_numerators(alloc, alg, d, space, t)?;
    let kept = kept_coefficients(alloc, alg, d, l, &held, t, other)?;
    let common = combinations(alloc, &alg.k, held.len(), kept.basis(), held.basis())?;
    Ok((l, common))
}

/// The element with the numerator over d whose vector, with rows of `l` coefficients in powers of
/// y', is v. `NoMemory` is the only error.
pub fn quotient<K: FiniteField<E = u32>>(
    alloc: Global,
    alg: &Alg<K>,
    d: &Poly,
    l: usize,
    v: &[u32],
) -> Result<Elem, NoMemory>
    requires d { IsPoly (K.elements alg.now.k) d.now }
    requires nonzero { 0 < length d.now }
    requires vector { let L = K.lawful alg.now.k in
        IsVector (K.elements alg.now.k) (y_degree L alg.now.f * l) v.now }
    ensures element { let L = K.lawful alg.now.k in IfOk result (IsElem L alg.now.f) }
    ensures value { let F = K.elements alg.now.k in let L = K.lawful alg.now.k in
        let f = alg.now.f in
        IfOk result (λ r. HasVectorOver L f d.now l (vector_of F v.now) (elem_of L f r)) }
{
    let plane = plane_of_vector(alloc, &alg.k, v, alg.f.rows().len() - 1, l)?;
    element(alloc, alg, plane.rows(), d)
}

/// The elements with the numerators over d whose vectors are the given ones.
fn quotients_by<K: FiniteField<E = u32>>(
    alloc: Global,
    alg: &Alg<K>,
    d: &Poly,
    l: usize,
    vectors: &[Vec<u32>],
) -> Result<Vec<Elem>, NoMemory>
    requires d { IsPoly (K.elements alg.now.k) d.now }
    requires nonzero { 0 < length d.now }
    requires vectors { let L = K.lawful alg.now.k in
        AreVectors (K.elements alg.now.k) (y_degree L alg.now.f * l) vectors.now }
    ensures { let L = K.lawful alg.now.k in let f = alg.now.f in
        IfOk result (λ r. AreQuotientsBy L f d.now l (rows_of vectors.now) r.items) }
{
    let mut elements = Vec::with_capacity(alloc, vectors.len())?;
    for v in vectors {
        elements.push(quotient(alloc, alg, d, l, v)?)?;
    }
    Ok(elements)
}

/// A basis over the field of the elements that are in both lattices: that of d and `space` in the
/// finite chart, and that of t and `other`, with t a power of the variable, in the infinite one.
/// A lattice has the elements w for which d * w has a residue modulo d in the space. `NoMemory` is
/// the only error. This project's own.
pub fn common<K: FiniteField<E = u32>>(
    alloc: Global,
    alg: &Alg<K>,
    d: &Poly,
    space: &Space,
    t: &Poly,
    other: &Space,
) -> Result<Vec<Elem>, NoMemory>
    requires finite { IsLattice (K.lawful alg.now.k) alg.now.f Finite d.now space.now }
    requires infinite { IsLattice (K.lawful alg.now.k) alg.now.f Infinite t.now other.now }
    ensures { let L = K.lawful alg.now.k in let f = alg.now.f in
        IfOk result (λ r. IsBasisOf L f (InBoth L f d.now space.now t.now other.now) r.items) }
{
    let (l, numerators) = common_numerators(alloc, alg, d, space, t, other)?;
    quotients_by(alloc, alg, d, l, numerators.basis())
}
