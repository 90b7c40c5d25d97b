// Residues: elements of E(g) that are known modulo a polynomial m in x, each as a polynomial in x,
// its factor, and a bivariate polynomial, which is the element times the factor.
ghost use Rattle.std.specs.Prelude.{◌≡◌, ◌+◌, ℕ, List, length, IfOk, []};
ghost use Rattle.ff_theory.specs.Ring.{power};
ghost use Rattle.ff_theory.specs.Values.{poly_of, IsPoly, plane_of, IsPlane, planes_over};
ghost use Rattle.ff_theory.specs.Planes.{row_of};
ghost use Rattle.ff_elem.specs.Elem.{algebra_in, elem_of, IsElem};
ghost use Rattle.ff_subst.specs.Congruence.{IsModulus, ArePlanes};
ghost use Rattle.ff_subst.specs.Residues.{IsReduced, AreReduced, IsResidue, AreResidues};
ghost use Rattle.ff_subst.specs.Residues.{IsAppended};

use crate::modulo::{multiple, multiples, product, reduce};
use ff_alg::{FiniteField, NoMemory};
use ff_elem::{Alg, Elem};
use ff_poly::{Plane, Poly};
use std::alloc::Global;
use std::marker::Model;

// An element times its factor, modulo m.
#[derive(Drop)]
pub struct Residue {
    pub factor: Poly,
    pub plane: Plane,
}

// A list of bivariate polynomials.
#[derive(Drop)]
pub struct PlaneList {
    pub items: Vec<Plane>,
}

impl Model for PlaneList {
    ghost use Rattle.std.specs.Prelude.{List, ℕ};

    ghost Value = { List (List (List ℕ)) };

    ghost view = { λ l. l.items.items };
}

impl PlaneList {
    // The polynomials of the list.
    pub fn list(&self) -> &[Plane]
        ensures { result.now ≡ self.now }
    {
        &self.items
    }
}

impl Residue {
    // An equal residue.
    pub fn copy(&self, alloc: Global) -> Result<Residue, NoMemory>
        ensures { IfOk result (λ r. r ≡ self.now) }
    {
        Ok(Residue {
            factor: self.factor.copy(alloc)?,
            plane: self.plane.copy(alloc)?,
        })
    }
}

// Elements times one factor, modulo m.
#[derive(Drop)]
pub struct ResidueList {
    pub factor: Poly,
    pub planes: PlaneList,
}

// The residue of an element: its denominator and its numerators.
pub fn residue_of<K: FiniteField<E = u32>>(
    alloc: Global,
    alg: &Alg<K>,
    m: &Poly,
    e: &Elem,
) -> Result<Residue, NoMemory>
    requires m { IsModulus (K.elements alg.now.k) m.now }
    requires e { IsElem (K.lawful alg.now.k) alg.now.f e.now }
    ensures reduced { IfOk result (IsReduced (K.elements alg.now.k)) }
    ensures residue { let L = K.lawful alg.now.k in let f = alg.now.f in
        IfOk result (IsResidue L f m.now (elem_of L f e.now)) }
{
    let factor = e.den.remainder(alloc, &alg.k, m)?;
    let plane = reduce(alloc, &alg.k, m, e.num.rows())?;
    Ok(Residue { factor, plane })
}

// The residue of 1.
pub fn one<K: FiniteField<E = u32>>(
    alloc: Global,
    alg: &Alg<K>,
    m: &Poly,
) -> Result<Residue, NoMemory>
    requires m { IsModulus (K.elements alg.now.k) m.now }
    ensures reduced { IfOk result (IsReduced (K.elements alg.now.k)) }
    ensures residue { let L = K.lawful alg.now.k in let f = alg.now.f in
        IfOk result (IsResidue L f m.now (algebra_in L f).one) }
{
    let one = alg.one(alloc)?;
    residue_of(alloc, alg, m, &one)
}

// The residue of 0.
pub fn zero<K: FiniteField<E = u32>>(
    alloc: Global,
    alg: &Alg<K>,
    m: &Poly,
) -> Result<Residue, NoMemory>
    requires m { IsModulus (K.elements alg.now.k) m.now }
    ensures reduced { IfOk result (IsReduced (K.elements alg.now.k)) }
    ensures residue { let L = K.lawful alg.now.k in let f = alg.now.f in
        IfOk result (IsResidue L f m.now (algebra_in L f).zero) }
{
    let zero = alg.zero(alloc)?;
    residue_of(alloc, alg, m, &zero)
}

// No residues.
pub fn empty<K: FiniteField<E = u32>>(alloc: Global, alg: &Alg<K>) -> Result<ResidueList, NoMemory>
    ensures reduced { IfOk result (AreReduced (K.elements alg.now.k)) }
    ensures count { IfOk result (λ r. length r.planes ≡ 0) }
    ensures residues { let L = K.lawful alg.now.k in let f = alg.now.f in
        IfOk result (λ r. (m : List ℕ) (u : ℕ → (algebra_in L f).carrier) →
        AreResidues L f m u r) }
{
    let factor = Poly::one(alloc, &alg.k)?;
    let items = Vec::new(alloc);
    Ok(ResidueList {
        factor,
        planes: PlaneList { items },
    })
}

// The polynomials of a list with one residue more, all times one factor.
fn append_planes<K: FiniteField<E = u32>>(
    alloc: Global,
    k: &K,
    m: &Poly,
    list: &ResidueList,
    last: &Residue,
) -> Result<Vec<Plane>, NoMemory>
    requires m { IsModulus (K.elements k.now) m.now }
    requires list { AreReduced (K.elements k.now) list.now }
    requires last { IsReduced (K.elements k.now) last.now }
    ensures count { IfOk result (λ r. length r.items ≡ length list.now.planes + 1) }
    ensures each { IfOk result (λ r. ArePlanes (K.elements k.now) r.items) }
    ensures appended { IfOk result (λ r.
        IsAppended (K.elements k.now) m.now list.now last.now r.items) }
{
    let mut planes = multiples(alloc, k, m, &last.factor, list.planes.list())?;
    planes.push(multiple(alloc, k, m, &list.factor, &last.plane)?)?;
    Ok(planes)
}

// The list with one residue more.
pub fn append<K: FiniteField<E = u32>>(
    alloc: Global,
    alg: &Alg<K>,
    m: &Poly,
    list: &ResidueList,
    last: &Residue,
) -> Result<ResidueList, NoMemory>
    requires m { IsModulus (K.elements alg.now.k) m.now }
    requires list { AreReduced (K.elements alg.now.k) list.now }
    requires last { IsReduced (K.elements alg.now.k) last.now }
    ensures reduced { IfOk result (AreReduced (K.elements alg.now.k)) }
    ensures count { IfOk result (λ r. length r.planes ≡ length list.now.planes + 1) }
    ensures residues { let L = K.lawful alg.now.k in let f = alg.now.f in
        let A = algebra_in L f in
        IfOk result (λ r. (u : ℕ → A.carrier) → AreResidues L f m.now u list.now →
        IsResidue L f m.now (u (length list.now.planes)) last.now → AreResidues L f m.now u r) }
{
    let factor = product(alloc, &alg.k, m, &last.factor, &list.factor)?;
    let items = append_planes(alloc, &alg.k, m, list, last)?;
    Ok(ResidueList {
        factor,
        planes: PlaneList { items },
    })
}

// The sum c * a + d * b.
pub fn combine<K: FiniteField<E = u32>>(
    alloc: Global,
    k: &K,
    c: &Poly,
    a: &Plane,
    d: &Poly,
    b: &Plane,
) -> Result<Plane, NoMemory>
    requires c { IsPoly (K.elements k.now) c.now }
    requires a { IsPlane (K.elements k.now) a.now }
    requires d { IsPoly (K.elements k.now) d.now }
    requires b { IsPlane (K.elements k.now) b.now }
    ensures plane { IfOk result (IsPlane (K.elements k.now)) }
    ensures value { let F = K.elements k.now in let P = planes_over F in
        IfOk result (λ r. plane_of F r ≡ P.add
        (P.mul (row_of F.ring (poly_of F c.now)) (plane_of F a.now))
        (P.mul (row_of F.ring (poly_of F d.now)) (plane_of F b.now))) }
{
    let left = a.scale(alloc, k, c)?;
    let right = b.scale(alloc, k, d)?;
    left.add(alloc, k, &right)
}

// The sum of two residues.
pub fn add<K: FiniteField<E = u32>>(
    alloc: Global,
    alg: &Alg<K>,
    m: &Poly,
    a: &Residue,
    b: &Residue,
) -> Result<Residue, NoMemory>
    requires m { IsModulus (K.elements alg.now.k) m.now }
    requires a { IsReduced (K.elements alg.now.k) a.now }
    requires b { IsReduced (K.elements alg.now.k) b.now }
    ensures reduced { IfOk result (IsReduced (K.elements alg.now.k)) }
    ensures residue { let L = K.lawful alg.now.k in let f = alg.now.f in
        let A = algebra_in L f in
        IfOk result (λ r. (u v : A.carrier) → IsResidue L f m.now u a.now →
        IsResidue L f m.now v b.now → IsResidue L f m.now (A.add u v) r) }
{
    let factor = product(alloc, &alg.k, m, &a.factor, &b.factor)?;
    let whole = combine(alloc, &alg.k, &b.factor, &a.plane, &a.factor, &b.plane)?;
    let plane = reduce(alloc, &alg.k, m, whole.rows())?;
    Ok(Residue { factor, plane })
}
