// Elements of the ring of a pole system, from their coordinates.
ghost use Rattle.std.specs.Prelude.{◌≡◌, length, IfOk};
ghost use Rattle.ff_theory.specs.Ring.{IsElement};
ghost use Rattle.ff_theory.specs.Lawful.{lawful_field};
ghost use Rattle.ff_theory.specs.Values.{poly_of, IsPoly, ArePolys, plane_of};
ghost use Rattle.ff_elem.specs.Elem.{algebra_in, elem_of, IsElem, ElemIs};
ghost use Rattle.ff_data.specs.Substitution.{poly_at};
ghost use Rattle.ff_data.specs.Combinations.{constant_in};
ghost use Rattle.ff_data.specs.Systems.{HasForm, ring_value};

use crate::system::System;
use ff_alg::{FiniteField, NoMemory};
use ff_elem::{Alg, Elem};
use ff_poly::{Plane, Poly};
use std::alloc::Global;
use std::slice;

/// The element c of the field.
pub fn constant<K: FiniteField<E = u32>>(
    alloc: Global,
    alg: &Alg<K>,
    c: u32,
) -> Result<Elem, NoMemory>
    requires { IsElement (K.elements alg.now.k) c }
    ensures { let F = K.elements alg.now.k in let L = K.lawful alg.now.k in let f = alg.now.f in
        IfOk result (ElemIs L f (constant_in L f (F.value c))) }
{
    let p = Poly::from_coeffs(alloc, &alg.k, &[c])?;
    let one = Poly::one(alloc, &alg.k)?;
    let plane = Plane::from_rows(alloc, &alg.k, slice::from_ref(&p))?;
    alg.from_parts(alloc, &plane, &one)
}

/// The sum `a + b * c`.
pub fn plus_product<K: FiniteField<E = u32>>(
    alloc: Global,
    alg: &Alg<K>,
    a: &Elem,
    b: &Elem,
    c: &Elem,
) -> Result<Elem, NoMemory>
    requires a { IsElem (K.lawful alg.now.k) alg.now.f a.now }
    requires b { IsElem (K.lawful alg.now.k) alg.now.f b.now }
    requires c { IsElem (K.lawful alg.now.k) alg.now.f c.now }
    ensures { let L = K.lawful alg.now.k in let f = alg.now.f in let A = algebra_in L f in
        IfOk result (ElemIs L f (A.add (elem_of L f a.now)
        (A.mul (elem_of L f b.now) (elem_of L f c.now)))) }
{
    let product = alg.mul(alloc, b, c)?;
    alg.add(alloc, a, &product)
}

/// A polynomial at an element.
pub fn value_of_poly<K: FiniteField<E = u32>>(
    alloc: Global,
    alg: &Alg<K>,
    z: &Elem,
    p: &Poly,
) -> Result<Elem, NoMemory>
    requires z { IsElem (K.lawful alg.now.k) alg.now.f z.now }
    requires p { IsPoly (K.elements alg.now.k) p.now }
    ensures { let F = K.elements alg.now.k in let L = K.lawful alg.now.k in let f = alg.now.f in
        IfOk result (ElemIs L f (poly_at (lawful_field L) (plane_of F f) (elem_of L f z.now)
        (poly_of F p.now))) }
{
    let mut value = alg.zero(alloc)?;
    let mut i = p.coeffs().len();
    while i > 0 {
        i -= 1;
        let c = constant(alloc, alg, p.coeff(&alg.k, i))?;
        value = plus_product(alloc, alg, &c, z, &value)?;
    }
    Ok(value)
}

/// The element of the ring of the system with the coordinates c: the sum of the `c_l(z)*b_l`. There
/// are as many polynomials in c as the system has basis elements. `NoMemory` is the only error.
pub fn in_ring<K: FiniteField<E = u32>>(
    alloc: Global,
    alg: &Alg<K>,
    s: &System,
    c: &[Poly],
) -> Result<Elem, NoMemory>
    requires form { HasForm (K.lawful alg.now.k) alg.now.f s.now }
    requires c { ArePolys (K.elements alg.now.k) c.now }
    requires count { length c.now ≡ s.now.e }
    ensures { let L = K.lawful alg.now.k in let f = alg.now.f in
        IfOk result (ElemIs L f (ring_value L f s.now c.now)) }
{
    let mut sum = alg.zero(alloc)?;
    for l in 0..c.len() {
        let factor = value_of_poly(alloc, alg, &s.z, &c[l])?;
        sum = plus_product(alloc, alg, &sum, &factor, &s.b.items[l])?;
    }
    Ok(sum)
}
