// The algebra of an equation, and its sums and products.
ghost use Rattle.std.specs.Prelude.{◌≡◌, ◌<◌, ◌↔◌, ◌∷◌, [], length, IfOk, IsTrue};
ghost use Rattle.ff_theory.specs.Ring.{IsCommRing};
ghost use Rattle.ff_theory.specs.Values.{IsPoly, IsPlane};
ghost use Rattle.ff_elem.specs.Elem.{algebra_in, elem_of, over_in, x_in, y_in, IsElem};
ghost use Rattle.ff_elem.specs.Elem.{HasForms, IsProper};

use crate::elem::{Elem, PolyList};
use ff_alg::{FiniteField, NoMemory};
use ff_poly::rows::{combination, negatives, products, single};
use ff_poly::{Plane, Poly};
use std::alloc::Global;

/// The algebra E(f), which is k(x)[y]/f, of an equation f of y-degree at least 1.
/// The equation need not be monic, irreducible or separable.
/// Where it is irreducible the algebra is the function field of the equation
/// (Stichtenoth, *Algebraic Function Fields and Codes*, section 1.1).
///
/// Where a call is handed elements, they are of this algebra.
/// `NoMemory` comes only where memory runs out or a length passes usize, and is the only error
/// of every call but `inverse`.
/// Sums and products have one denominator beside their rows, and are brought to lowest terms once,
/// at the end; that is this project's own.
#[derive(Drop)]
pub struct Alg<K: FiniteField<E = u32>> {
    pub k: K,
    pub f: Plane,
    ghost plane: { IsPlane (K.elements k) f },
    ghost has_y: { 1 < length f },
}

impl<K: FiniteField<E = u32>> Alg<K> {
    /// The algebra of the equation `f`.
    /// It is a commutative ring, in which 0 is not 1 and each element has a form in lowest terms.
    pub fn new(alloc: Global, k: K, f: &Plane) -> Result<Alg<K>, NoMemory>
        requires plane { IsPlane (K.elements k) f.now }
        requires has_y { 1 < length f.now }
        ensures field { IfOk result (λ r. r.k ≡ k) }
        ensures equation { IfOk result (λ r. r.f ≡ f.now) }
        ensures ring { let L = K.lawful k in IfOk result (λ _. IsCommRing (algebra_in L f.now)) }
        ensures forms { let L = K.lawful k in IfOk result (λ _. HasForms L f.now) }
        ensures proper { let L = K.lawful k in IfOk result (λ _. IsProper L f.now) }
    {
        let f = f.copy(alloc)?;
        Ok(Alg { k, f })
    }

    /// The field of the coefficients.
    pub fn field(&self) -> K
        ensures { result ≡ self.now.k }
    {
        self.k
    }

    /// The equation.
    pub fn equation(&self) -> &Plane
        ensures { result.now ≡ self.now.f }
    {
        &self.f
    }

    /// The element 0.
    pub fn zero(&self, alloc: Global) -> Result<Elem, NoMemory>
        ensures element { let L = K.lawful self.now.k in IfOk result (IsElem L self.now.f) }
        ensures value { let L = K.lawful self.now.k in let f = self.now.f in
            IfOk result (λ r. elem_of L f r ≡ (algebra_in L f).zero) }
    {
        self.from_rows(alloc, Vec::new(alloc))
    }

    /// The element 1.
    pub fn one(&self, alloc: Global) -> Result<Elem, NoMemory>
        ensures element { let L = K.lawful self.now.k in IfOk result (IsElem L self.now.f) }
        ensures value { let L = K.lawful self.now.k in let f = self.now.f in
            IfOk result (λ r. elem_of L f r ≡ (algebra_in L f).one) }
    {
        let one = Poly::one(alloc, &self.k)?;
        let rows = single(alloc, one)?;
        self.from_rows(alloc, rows)
    }

    /// The element x.
    pub fn x(&self, alloc: Global) -> Result<Elem, NoMemory>
        ensures element { let L = K.lawful self.now.k in IfOk result (IsElem L self.now.f) }
        ensures value { let L = K.lawful self.now.k in let f = self.now.f in
            IfOk result (λ r. elem_of L f r ≡ x_in L f) }
    {
        let x = Poly::from_coeffs(alloc, &self.k, &[self.k.zero(), self.k.one()])?;
        let rows = single(alloc, x)?;
        self.from_rows(alloc, rows)
    }

    /// The element y, reduced by the equation.
    pub fn y(&self, alloc: Global) -> Result<Elem, NoMemory>
        ensures element { let L = K.lawful self.now.k in IfOk result (IsElem L self.now.f) }
        ensures value { let L = K.lawful self.now.k in let f = self.now.f in
            IfOk result (λ r. elem_of L f r ≡ y_in L f) }
    {
        let one = Poly::one(alloc, &self.k)?;
        let rows = pair_of_rows(alloc, Poly::zero(alloc), one)?;
        self.from_rows(alloc, rows)
    }

    /// `num` reduced by the equation, over `den`, which is not 0.
    pub fn from_parts(&self, alloc: Global, num: &Plane, den: &Poly) -> Result<Elem, NoMemory>
        requires num { IsPlane (K.elements self.now.k) num.now }
        requires den { IsPoly (K.elements self.now.k) den.now }
        requires nonzero { 0 < length den.now }
        ensures element { let L = K.lawful self.now.k in IfOk result (IsElem L self.now.f) }
        ensures value { let L = K.lawful self.now.k in let f = self.now.f in
            IfOk result (λ r. elem_of L f r ≡ over_in L f num.now den.now) }
    {
        let (c, rest) = num.reduce(alloc, &self.k, &self.f)?;
        let whole = c.mul(alloc, &self.k, den)?;
        self.fraction(alloc, whole, rest.into_rows())
    }

    /// Whether two elements are the same, which they are exactly where their parts are.
    pub fn same(&self, a: &Elem, b: &Elem) -> bool
        requires a { IsElem (K.lawful self.now.k) self.now.f a.now }
        requires b { IsElem (K.lawful self.now.k) self.now.f b.now }
        ensures value { let L = K.lawful self.now.k in let f = self.now.f in
            IsTrue result ↔ (elem_of L f a.now ≡ elem_of L f b.now) }
        ensures parts { IsTrue result ↔ (a.now ≡ b.now) }
    {
        a.same(&self.k, b)
    }

    /// The sum.
    pub fn add(&self, alloc: Global, a: &Elem, b: &Elem) -> Result<Elem, NoMemory>
        requires a { IsElem (K.lawful self.now.k) self.now.f a.now }
        requires b { IsElem (K.lawful self.now.k) self.now.f b.now }
        ensures element { let L = K.lawful self.now.k in IfOk result (IsElem L self.now.f) }
        ensures value { let L = K.lawful self.now.k in let f = self.now.f in
            let A = algebra_in L f in
            IfOk result (λ r. elem_of L f r ≡ A.add (elem_of L f a.now) (elem_of L f b.now)) }
    {
        let den = a.den.mul(alloc, &self.k, &b.den)?;
        let (left, right) = (a.num.rows(), b.num.rows());
        let num = combination(alloc, &self.k, &b.den, left, &a.den, 0, right)?;
        self.fraction(alloc, den, num)
    }

    /// The negative.
    pub fn neg(&self, alloc: Global, a: &Elem) -> Result<Elem, NoMemory>
        requires { IsElem (K.lawful self.now.k) self.now.f a.now }
        ensures element { let L = K.lawful self.now.k in IfOk result (IsElem L self.now.f) }
        ensures value { let L = K.lawful self.now.k in let f = self.now.f in
            let A = algebra_in L f in
            IfOk result (λ r. elem_of L f r ≡ A.neg (elem_of L f a.now)) }
    {
        Ok(Elem {
            den: a.den.copy(alloc)?,
            num: PolyList {
                items: negatives(alloc, &self.k, a.num.rows())?,
            },
        })
    }

    /// The product.
    pub fn mul(&self, alloc: Global, a: &Elem, b: &Elem) -> Result<Elem, NoMemory>
        requires a { IsElem (K.lawful self.now.k) self.now.f a.now }
        requires b { IsElem (K.lawful self.now.k) self.now.f b.now }
        ensures element { let L = K.lawful self.now.k in IfOk result (IsElem L self.now.f) }
        ensures value { let L = K.lawful self.now.k in let f = self.now.f in
            let A = algebra_in L f in
            IfOk result (λ r. elem_of L f r ≡ A.mul (elem_of L f a.now) (elem_of L f b.now)) }
    {
        let den = a.den.mul(alloc, &self.k, &b.den)?;
        let rows = products(alloc, &self.k, a.num.rows(), b.num.rows())?;
        let num = Plane::from_vec(&self.k, rows);
        self.from_parts(alloc, &num, &den)
    }
}

/// A list of two rows.
fn pair_of_rows(alloc: Global, a: Poly, b: Poly) -> Result<Vec<Poly>, NoMemory>
    ensures { IfOk result (λ r. r.items ≡ a ∷ b ∷ []) }
{
    let mut rows = single(alloc, a)?;
    rows.push(b)?;
    Ok(rows)
}
