// The powers of an element with a pole of order one.
ghost use Rattle.std.specs.Prelude.{◌≡◌, ℕ, ◌+◌, ◌<◌, ◌≤◌, pred, length, IfOk};
ghost use Rattle.ff_theory.specs.Values.{poly_of, IsPoly, plane_of, IsPlane};
ghost use Rattle.ff_charts.specs.Lattice.{HasShape};
ghost use Rattle.ff_data.specs.Orders.{chart_of, y_degree, IsOrder};
ghost use Rattle.ff_forms.specs.Forms.{HasPointForm};

use crate::socle::socle;
use ff_alg::{FiniteField, NoMemory};
use ff_data::{Order, Point, chart_equation, quotients_by};
use ff_elem::Alg;
use ff_fibre::{fibre_at, linear};
use ff_lattice::{product, residues};
use ff_poly::{Plane, Poly};
use std::alloc::Global;

/// A power s^i of an element s with a pole of order one at a point, up to elements of the order and
/// of their products with lower powers: u - a, the numerator over d of s*(u - a), the equation of
/// theta, the modulus d*(u - a)^i, and the numerator of the power over it, with rows of lower
/// degree. This project's own.
#[derive(Drop)]
pub struct Powers {
    pub root: Poly,
    pub multiplier: Plane,
    pub equation: Plane,
    pub modulus: Poly,
    pub power: Plane,
}

impl Powers {
    ghost use Rattle.ff_fibre.specs.Fibres.{IsProductOver};
    ghost use Rattle.ff_frac.specs.Places.{IsMaximalPlace};
    ghost use Rattle.ff_frac.specs.Powers.{IsFraction, HasPowersForm, IsPowerAt, IsFirstPower};
    ghost use Rattle.ff_frac.specs.Powers.{IsNextPlane, IsNextPower};

    /// The first power, at a point of the order. `NoMemory` is the only error.
    pub fn start<K: FiniteField<E = u32>>(
        alloc: Global,
        alg: &Alg<K>,
        order: &Order,
        point: &Point,
    ) -> Result<Powers, NoMemory>
        requires order { IsOrder (K.lawful alg.now.k) alg.now.f order.now }
        requires point { HasPointForm (K.elements alg.now.k) order.now point.now }
        ensures form { let L = K.lawful alg.now.k in
            IfOk result (HasPowersForm L alg.now.f order.now 1) }
        ensures exact { let L = K.lawful alg.now.k in let f = alg.now.f in
            IsMaximalPlace L f order.now point.now →
            IfOk result (IsPowerAt L f order.now point.now 1) }
    {
        let root = linear(alloc, &alg.k, point.a)?;
        let fibre = fibre_at(alloc, alg, order, point.a)?;
        let multiplier = socle(alloc, alg, order, point, &fibre)?;
        Powers::of(alloc, alg, order, root, multiplier)
    }

    /// The first power, by u - a and the numerator over d of s*(u - a).
    fn of<K: FiniteField<E = u32>>(
        alloc: Global,
        alg: &Alg<K>,
        order: &Order,
        root: Poly,
        multiplier: Plane,
    ) -> Result<Powers, NoMemory>
        requires order { IsOrder (K.lawful alg.now.k) alg.now.f order.now }
        requires root { IsPoly (K.elements alg.now.k) root }
        requires degree { length root ≡ 2 }
        requires modulus { let F = K.elements alg.now.k in let L = K.lawful alg.now.k in
            (chart_of L alg.now.f order.now.chart).IsModulus (poly_of F root) }
        requires multiplier { IsPlane (K.elements alg.now.k) multiplier }
        requires few { length multiplier ≤ y_degree (K.lawful alg.now.k) alg.now.f }
        ensures form { let L = K.lawful alg.now.k in
            IfOk result (HasPowersForm L alg.now.f order.now 1) }
        ensures exact { let L = K.lawful alg.now.k in
            IfOk result (IsFirstPower L alg.now.f order.now root multiplier) }
    {
        let equation = chart_equation(alloc, alg, order.chart)?;
        let modulus = order.d.mul(alloc, &alg.k, &root)?;
        let power = residues(alloc, &alg.k, &multiplier, &modulus)?;
        Ok(Powers {
            root,
            multiplier,
            equation,
            modulus,
            power,
        })
    }

    /// The numerator over d of the product of the power and of the multiplier.
    fn raised<K: FiniteField<E = u32>>(
        &self,
        alloc: Global,
        alg: &Alg<K>,
        order: &Order,
        i: usize,
    ) -> Result<Plane, NoMemory>
        requires order { IsOrder (K.lawful alg.now.k) alg.now.f order.now }
        requires form { let L = K.lawful alg.now.k in
            HasPowersForm L alg.now.f order.now i self.now }
        ensures plane { IfOk result (IsPlane (K.elements alg.now.k)) }
        ensures few { let L = K.lawful alg.now.k in
            IfOk result (λ r. length r ≤ y_degree L alg.now.f) }
        ensures value { let F = K.elements alg.now.k in let L = K.lawful alg.now.k in
            let W = plane_of F self.now.power in let G = plane_of F self.now.multiplier in
            IfOk result (λ r. IsProductOver L alg.now.f order.now W G (plane_of F r)) }
    {
        let _index = i;
        let k = &alg.k;
        let product = product(alloc, k, &self.power, &self.multiplier, &self.equation)?;
        quotients_by(alloc, k, &product, &order.d)
    }

    /// The numerator of the next power over a modulus.
    fn next<K: FiniteField<E = u32>>(
        &self,
        alloc: Global,
        alg: &Alg<K>,
        order: &Order,
        i: usize,
        modulus: &Poly,
    ) -> Result<Plane, NoMemory>
        requires order { IsOrder (K.lawful alg.now.k) alg.now.f order.now }
        requires form { let L = K.lawful alg.now.k in
            HasPowersForm L alg.now.f order.now i self.now }
        requires modulus { IsPoly (K.elements alg.now.k) modulus.now }
        requires nonzero { 0 < length modulus.now }
        ensures plane { IfOk result (IsPlane (K.elements alg.now.k)) }
        ensures shape { let F = K.elements alg.now.k in let L = K.lawful alg.now.k in
            let l = pred (length modulus.now) in
            IfOk result (λ r. HasShape F.ring (y_degree L alg.now.f) l (plane_of F r)) }
        ensures value { let L = K.lawful alg.now.k in
            IfOk result (IsNextPlane L alg.now.f order.now self.now modulus.now) }
    {
        let raised = self.raised(alloc, alg, order, i)?;
        residues(alloc, &alg.k, &raised, modulus)
    }

    /// The next power after power i. `NoMemory` is the only error.
    pub fn step<K: FiniteField<E = u32>>(
        self,
        alloc: Global,
        alg: &Alg<K>,
        order: &Order,
        i: usize,
    ) -> Result<Powers, NoMemory>
        requires order { IsOrder (K.lawful alg.now.k) alg.now.f order.now }
        requires form { let L = K.lawful alg.now.k in HasPowersForm L alg.now.f order.now i self }
        ensures form { let L = K.lawful alg.now.k in
            IfOk result (HasPowersForm L alg.now.f order.now (i + 1)) }
        ensures exact { let L = K.lawful alg.now.k in
            IfOk result (IsNextPower L alg.now.f order.now i self) }
    {
        let modulus = self.modulus.mul(alloc, &alg.k, &self.root)?;
        let power = self.next(alloc, alg, order, i, &modulus)?;
        Ok(Powers {
            root: self.root,
            multiplier: self.multiplier,
            equation: self.equation,
            modulus,
            power,
        })
    }
}
