// Combinations of coordinates with polynomials at alpha * z + beta.
ghost use Rattle.std.specs.Prelude.{◌≡◌, ◌≤◌, length, IfOk};
ghost use Rattle.std.specs.List.{All};
ghost use Rattle.ff_theory.specs.Ring.{IsElement};
ghost use Rattle.ff_theory.specs.Values.{poly_of, IsPoly, ArePolys, polys_over};
ghost use Rattle.ff_ring.specs.Entries.{entry_at, AreEntries};
ghost use Rattle.ff_ring.specs.Affine.{sum_at_line};

use crate::line::affine;
use crate::linear::{ring_add, ring_scale, zero_coords};
use ff_alg::{FiniteField, NoMemory};
use ff_elem::PolyList;
use ff_poly::Poly;
use std::alloc::Global;

/// The sum of h and the product of p and a; it is h where p is 0.
fn plus_multiple<K: FiniteField<E = u32>>(
    alloc: Global,
    k: &K,
    h: Vec<Poly>,
    p: &Poly,
    a: &[Poly],
) -> Result<Vec<Poly>, NoMemory>
    requires h { ArePolys (K.elements k.now) h.items }
    requires p { IsPoly (K.elements k.now) p.now }
    requires a { ArePolys (K.elements k.now) a.now }
    requires count { length a.now ≡ length h.items }
    ensures { let F = K.elements k.now in let P = polys_over F in
        IfOk result (λ r. AreEntries F (length h.items) (λ l.
        P.add (entry_at F h.items l) (P.mul (poly_of F p.now) (entry_at F a.now l))) r.items) }
{
    if p.is_zero() {
        return Ok(h);
    }
    let product = ring_scale(alloc, k, p, a)?;
    ring_add(alloc, k, &h, &product)
}

/// The sum of the products of `c_l(alpha * z + beta)` and entry l of the list, whose entries are
/// coordinates of `e` polynomials and as many as c has at least. `NoMemory` is the only error.
pub fn sum_at<K: FiniteField<E = u32>>(
    alloc: Global,
    k: &K,
    e: usize,
    c: &[Poly],
    alpha: u32,
    beta: u32,
    list: &[PolyList],
) -> Result<Vec<Poly>, NoMemory>
    requires c { ArePolys (K.elements k.now) c.now }
    requires alpha { IsElement (K.elements k.now) alpha }
    requires beta { IsElement (K.elements k.now) beta }
    requires list { All (ArePolys (K.elements k.now)) list.now }
    requires long { All (λ a. length a ≡ e) list.now }
    requires count { length c.now ≤ length list.now }
    ensures { let F = K.elements k.now in
        IfOk result (λ r. AreEntries F e
        (sum_at_line F alpha beta c.now list.now (length c.now)) r.items) }
{
    let mut sum = zero_coords(alloc, k, e)?;
    for l in 0..c.len() {
        let factor = affine(alloc, k, &c[l], alpha, beta)?;
        sum = plus_multiple(alloc, k, sum, &factor, list[l].rows())?;
    }
    Ok(sum)
}
