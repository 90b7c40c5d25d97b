// Numerators that span those of a pole module.
ghost use Rattle.std.specs.Prelude.{◌≡◌, ℕ, ◌+◌, ◌*◌, ◌<◌, pred, length, IfOk};
ghost use Rattle.ff_theory.specs.Values.{poly_of, plane_of};
ghost use Rattle.ff_lin.specs.Space.{rows_of, AreVectors};
ghost use Rattle.ff_data.specs.Orders.{y_degree, IsOrder};
ghost use Rattle.ff_forms.specs.Forms.{HasPointForm};
ghost use Rattle.ff_frac.specs.Powers.{HasPowersForm};
ghost use Rattle.ff_frac.specs.Numerators.{IsWithPlane};

use crate::powers::Powers;
use ff_alg::{FiniteField, NoMemory};
use ff_common::times_vectors;
use ff_data::{Order, Point};
use ff_elem::Alg;
use ff_lattice::vector_of_plane;
use std::alloc::Global;

/// Vectors of numerators that span those of a pole module over its modulus, and the power that came
/// last.
#[derive(Drop)]
pub struct Numerators {
    pub powers: Powers,
    pub vectors: Vec<Vec<u32>>,
}

/// The vectors, whose rows have one coefficient less than those of the power, times u - a, and that
/// of the power.
fn with_power<K: FiniteField<E = u32>>(
    alloc: Global,
    alg: &Alg<K>,
    order: &Order,
    powers: &Powers,
    i: usize,
    vectors: &[Vec<u32>],
) -> Result<Vec<Vec<u32>>, NoMemory>
    requires order { IsOrder (K.lawful alg.now.k) alg.now.f order.now }
    requires powers { let L = K.lawful alg.now.k in
        HasPowersForm L alg.now.f order.now (i + 1) powers.now }
    requires vectors { let L = K.lawful alg.now.k in let l = pred (length order.now.d + i) in
        AreVectors (K.elements alg.now.k) (y_degree L alg.now.f * l) vectors.now }
    ensures vectors { let L = K.lawful alg.now.k in let l = pred (length powers.now.modulus) in
        IfOk result (λ r. AreVectors (K.elements alg.now.k) (y_degree L alg.now.f * l) r.items) }
    ensures value { let F = K.elements alg.now.k in let L = K.lawful alg.now.k in
        let s = powers.now in let l = pred (length order.now.d + i) in IfOk result (λ r.
        IsWithPlane L alg.now.f (poly_of F s.root) l (pred (length s.modulus))
        (plane_of F s.power) (rows_of vectors.now) (rows_of r.items)) }
{
    let _index = (i, order.chart);
    let l = powers.modulus.coeffs().len() - 1;
    let short = l - 1;
    let power = vector_of_plane(alloc, &alg.k, &powers.power, alg.f.rows().len() - 1, l)?;
    let mut list = times_vectors(alloc, alg, &powers.root, short, l, vectors)?;
    list.push(power)?;
    Ok(list)
}

impl Numerators {
    ghost use Rattle.ff_frac.specs.Places.{IsMaximalPlace};
    ghost use Rattle.ff_frac.specs.Numerators.{HasNumeratorsForm, AreNumeratorsAt};
    ghost use Rattle.ff_frac.specs.Numerators.{AreNextNumerators};

    /// The numerators over d*(u - a) for the pole module of order one.
    pub(crate) fn start<K: FiniteField<E = u32>>(
        alloc: Global,
        alg: &Alg<K>,
        order: &Order,
        point: &Point,
    ) -> Result<Numerators, NoMemory>
        requires order { IsOrder (K.lawful alg.now.k) alg.now.f order.now }
        requires point { HasPointForm (K.elements alg.now.k) order.now point.now }
        ensures form { let L = K.lawful alg.now.k in
            IfOk result (HasNumeratorsForm L alg.now.f order.now 1) }
        ensures exact { let L = K.lawful alg.now.k in let f = alg.now.f in
            IsMaximalPlace L f order.now point.now →
            IfOk result (AreNumeratorsAt L f order.now point.now 1) }
    {
        let powers = Powers::start(alloc, alg, order, point)?;
        let vectors = with_power(alloc, alg, order, &powers, 0, order.space.basis())?;
        Ok(Numerators { powers, vectors })
    }

    /// The numerators for the pole module of the order after i.
    pub(crate) fn step<K: FiniteField<E = u32>>(
        self,
        alloc: Global,
        alg: &Alg<K>,
        order: &Order,
        i: usize,
    ) -> Result<Numerators, NoMemory>
        requires order { IsOrder (K.lawful alg.now.k) alg.now.f order.now }
        requires form { let L = K.lawful alg.now.k in
            HasNumeratorsForm L alg.now.f order.now i self }
        ensures form { let L = K.lawful alg.now.k in
            IfOk result (HasNumeratorsForm L alg.now.f order.now (i + 1)) }
        ensures exact { let L = K.lawful alg.now.k in
            IfOk result (AreNextNumerators L alg.now.f order.now i self) }
    {
        let powers = self.powers.step(alloc, alg, order, i)?;
        let vectors = with_power(alloc, alg, order, &powers, i, &self.vectors)?;
        Ok(Numerators { powers, vectors })
    }
}
