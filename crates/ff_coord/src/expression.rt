// An element over a polynomial in z, by its coordinates in a system.
ghost use Rattle.std.specs.Prelude.{◌<◌, IfOk, IfSome, IfNone};
ghost use Rattle.ff_elem.specs.Elem.{IsElem, elem_of};
ghost use Rattle.ff_data.specs.declared.system.Coords.{Coords};
ghost use Rattle.ff_data.specs.Systems.{HasForm, IsExpression};

use ff_alg::{FiniteField, NoMemory};
use ff_data::{Coords, System};
use ff_describe::express_within;
use ff_elem::{Alg, Elem};
use std::alloc::Global;

/// A monic polynomial q of degree at most `q_deg`, and coordinates c of `q(z)*w`, the sum of the
/// `c_l(z)*b_l`, without a term of a weight above `weight`. None comes exactly where there are
/// none. The degree of q is the least. `NoMemory` is the only error. This project's own.
pub fn express<K: FiniteField<E = u32>>(
    alloc: Global,
    alg: &Alg<K>,
    s: &System,
    w: &Elem,
    q_deg: u32,
    weight: u32,
) -> Result<Option<Coords>, NoMemory>
    requires form { HasForm (K.lawful alg.now.k) alg.now.f s.now }
    requires positive { 0 < s.now.e }
    requires w { IsElem (K.lawful alg.now.k) alg.now.f w.now }
    ensures some { let L = K.lawful alg.now.k in let f = alg.now.f in IfOk result
        (λ o. IfSome o (IsExpression L f s.now (elem_of L f w.now) q_deg weight)) }
    ensures none { let L = K.lawful alg.now.k in let f = alg.now.f in IfOk result
        (λ o. IfNone o ((c : Coords) → ¬ IsExpression L f s.now (elem_of L f w.now) q_deg
        weight c)) }
{
    express_within(
        alloc,
        alg,
        s.e,
        &s.z,
        &s.b.items,
        &s.weights.items,
        w,
        q_deg,
        weight,
    )
}
