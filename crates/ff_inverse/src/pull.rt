// Coordinates in the first system of the elements that a candidate carries to given ones.
ghost use Rattle.std.specs.Prelude.{◌≡◌, ◌<◌, length, IfOk};
ghost use Rattle.ff_theory.specs.Ring.{IsElement};
ghost use Rattle.ff_theory.specs.Values.{IsPoly, ArePolys};
ghost use Rattle.ff_data.specs.Systems.{AreCoords};
ghost use Rattle.ff_inverse.specs.Maps.{HasMap, AreParts};

use ff_alg::{FiniteField, NoMemory, pow};
use ff_data::{Candidate, System};
use ff_poly::Poly;
use ff_poly::rows::copies;
use ff_ring::{
    affine, inverse_or_zero, is_zero_each, leading_coefficient, monomial_poly, plus_at, ring_add,
    ring_scale, top, weight_bound, zero_coords,
};
use std::alloc::Global;

/// What is left of coordinates in the second system, and the coordinates in the first system of
/// what the candidate carries to the part that was taken away.
#[derive(Drop)]
pub struct Parts {
    pub rest: Vec<Poly>,
    pub pulled: Vec<Poly>,
}

/// The coefficient a for which `a * alpha^n` times the leading coefficient of `image` is that of p.
fn factor<K: FiniteField<E = u32>>(k: &K, alpha: u32, image: &Poly, p: &Poly, n: usize) -> u32
    requires alpha { IsElement (K.elements k.now) alpha }
    requires image { IsPoly (K.elements k.now) image.now }
    requires p { IsPoly (K.elements k.now) p.now }
    ensures { IsElement (K.elements k.now) result }
{
    let scale = k.mul(leading_coefficient(k, image), pow(k, alpha, n as u64));
    k.mul(leading_coefficient(k, p), inverse_or_zero(k, scale))
}

/// The monomial `a * z^n`, with n the degree of p and this a; 0 for 0.
fn leading_part<K: FiniteField<E = u32>>(
    alloc: Global,
    k: &K,
    alpha: u32,
    image: &Poly,
    p: &Poly,
) -> Result<Poly, NoMemory>
    requires alpha { IsElement (K.elements k.now) alpha }
    requires image { IsPoly (K.elements k.now) image.now }
    requires p { IsPoly (K.elements k.now) p.now }
    ensures { IfOk result (IsPoly (K.elements k.now)) }
{
    let len = p.coeffs().len();
    if len == 0 {
        return Ok(Poly::zero(alloc));
    }
    monomial_poly(alloc, k, factor(k, alpha, image, p, len - 1), len - 1)
}

/// The negative of the product of p at `alpha * z + beta` and coordinates.
fn negative_image<K: FiniteField<E = u32>>(
    alloc: Global,
    k: &K,
    c: &Candidate,
    image: &[Poly],
    p: &Poly,
) -> Result<Vec<Poly>, NoMemory>
    requires alpha { IsElement (K.elements k.now) c.now.alpha }
    requires beta { IsElement (K.elements k.now) c.now.beta }
    requires image { ArePolys (K.elements k.now) image.now }
    requires p { IsPoly (K.elements k.now) p.now }
    ensures each { IfOk result (λ r. ArePolys (K.elements k.now) r.items) }
    ensures count { IfOk result (λ r. length r.items ≡ length image.now) }
{
    let negative = p.neg(alloc, k)?;
    let at = affine(alloc, k, &negative, c.alpha, c.beta)?;
    ring_scale(alloc, k, &at, image)
}

/// The coordinates without the product of p at `alpha * z + beta` and others.
fn without_image<K: FiniteField<E = u32>>(
    alloc: Global,
    k: &K,
    c: &Candidate,
    rest: &[Poly],
    image: &[Poly],
    p: &Poly,
) -> Result<Vec<Poly>, NoMemory>
    requires alpha { IsElement (K.elements k.now) c.now.alpha }
    requires beta { IsElement (K.elements k.now) c.now.beta }
    requires rest { ArePolys (K.elements k.now) rest.now }
    requires image { ArePolys (K.elements k.now) image.now }
    requires count { length image.now ≡ length rest.now }
    requires p { IsPoly (K.elements k.now) p.now }
    ensures each { IfOk result (λ r. ArePolys (K.elements k.now) r.items) }
    ensures count { IfOk result (λ r. length r.items ≡ length rest.now) }
{
    let image = negative_image(alloc, k, c, image, p)?;
    ring_add(alloc, k, rest, &image)
}

/// The parts with the product of p and the basis element l pulled.
fn with_term<K: FiniteField<E = u32>>(
    alloc: Global,
    k: &K,
    s: &System,
    c: &Candidate,
    parts: &Parts,
    p: &Poly,
    l: usize,
) -> Result<Parts, NoMemory>
    requires map { HasMap (K.elements k.now) s.now c.now }
    requires parts { AreParts (K.elements k.now) s.now parts.now }
    requires p { IsPoly (K.elements k.now) p.now }
    requires below { l < s.now.e }
    ensures { IfOk result (AreParts (K.elements k.now) s.now) }
{
    let _system = s;
    let rest = without_image(alloc, k, c, &parts.rest, c.images.items[l].rows(), p)?;
    let pulled = plus_at(alloc, k, &parts.pulled, p, l)?;
    Ok(Parts { rest, pulled })
}

/// The parts with the leading term of the rest pulled.
fn step<K: FiniteField<E = u32>>(
    alloc: Global,
    k: &K,
    s: &System,
    c: &Candidate,
    parts: Parts,
) -> Result<Parts, NoMemory>
    requires weights { length s.now.weights ≡ s.now.e }
    requires map { HasMap (K.elements k.now) s.now c.now }
    requires parts { AreParts (K.elements k.now) s.now parts }
    ensures { IfOk result (AreParts (K.elements k.now) s.now) }
{
    match top(s, &parts.rest) {
        None => Ok(parts),
        Some(term) => {
            let l = term.class;
            let image = &c.images.items[l].rows()[l];
            let p = leading_part(alloc, k, c.alpha, image, &parts.rest[l])?;
            with_term(alloc, k, s, c, &parts, &p, l)
        },
    }
}

/// The parts before the first term is pulled.
fn start<K: FiniteField<E = u32>>(
    alloc: Global,
    k: &K,
    s: &System,
    coords: &[Poly],
) -> Result<Parts, NoMemory>
    requires { AreCoords (K.elements k.now) s.now coords.now }
    ensures { IfOk result (AreParts (K.elements k.now) s.now) }
{
    let _system = s;
    let rest = copies(alloc, coords)?;
    let pulled = zero_coords(alloc, k, coords.len())?;
    Ok(Parts { rest, pulled })
}

/// The coordinates in the first system of the element that the candidate carries to the one with
/// these coordinates in the second system s. Each step lowers the weight of what is left.
/// `NoMemory` is the only error.
pub fn pull<K: FiniteField<E = u32>>(
    alloc: Global,
    k: &K,
    s: &System,
    c: &Candidate,
    coords: &[Poly],
) -> Result<Vec<Poly>, NoMemory>
    requires weights { length s.now.weights ≡ s.now.e }
    requires map { HasMap (K.elements k.now) s.now c.now }
    requires coords { AreCoords (K.elements k.now) s.now coords.now }
    ensures { IfOk result (λ r. AreCoords (K.elements k.now) s.now r.items) }
{
    let mut parts = start(alloc, k, s, coords)?;
    for _i in 0..weight_bound(s, coords).saturating_add(1) {
        if is_zero_each(&parts.rest) {
            return Ok(parts.pulled);
        }
        parts = step(alloc, k, s, c, parts)?;
    }
    Ok(parts.pulled)
}
