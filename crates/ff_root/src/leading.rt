// Leading polynomials: the coefficients of h_i * u^i at the greatest of their weights, where u is
// the monomial at a level.
ghost use Rattle.std.specs.Prelude.{◌≡◌, ◌+◌, ◌*◌, ◌%◌, ◌^◌, ◌<◌, ◌≤◌, [], length, get_or, map};
ghost use Rattle.std.specs.Prelude.{IfOk};
ghost use Rattle.std.specs.List.{All};
ghost use Rattle.ff_theory.specs.Ring.{IsElement};
ghost use Rattle.ff_theory.specs.Values.{leading};
ghost use Rattle.ff_table.specs.Level.{top_constant};
ghost use Rattle.ff_table.specs.Roots.{top_weight as top_weight_of, leading_poly as leading_of};
ghost use Rattle.ff_data.specs.Systems.{AreCoords, product_at, weight_at};
ghost use Rattle.ff_ring.specs.Ring.{HasTable, MeetsRule, table_in, elements_in};
ghost use Rattle.ff_root.specs.States.{IsLead, IsCoefficientAt, weight_by, value_of};

use ff_alg::{FiniteField, NoMemory, is_zero};
use ff_data::System;
use ff_elem::PolyList;
use ff_poly::Poly;
use ff_ring::{class_of, leading_coefficient, top};
use std::alloc::Global;

/// The class of a level, and the coefficient there: the leading term of a product.
#[derive(Clone, Copy)]
pub struct Lead {
    pub class: usize,
    pub c: u32,
}

/// The weight of the i-th power of the monomial at the level t.
fn steps(i: usize, t: u32) -> u128
    ensures value { result ≡ i * t }
    ensures small { result < 2 ^ 96 }
{
    i as u128 * t as u128
}

/// The weight of h, with `more` added, and 0 where h is 0.
fn weight_of<K: FiniteField<E = u32>>(k: &K, s: &System, h: &[Poly], more: u128) -> u128
    requires table { HasTable (K.elements k.now) s.now }
    requires h { AreCoords (K.elements k.now) s.now h.now }
    requires more { more < 2 ^ 96 }
    ensures { let F = K.elements k.now in
        MeetsRule F s.now → result ≡ weight_by F s.now h.now more }
{
    let _field = k;
    match top(s, h) {
        Some(term) => term.weight + more,
        None => 0,
    }
}

/// The greatest of the weights of the products of h_i and the i-th power of the monomial at the
/// level t.
fn top_weight<K: FiniteField<E = u32>>(k: &K, s: &System, p: &[PolyList], t: u32) -> u128
    requires table { HasTable (K.elements k.now) s.now }
    requires p { All (AreCoords (K.elements k.now) s.now) p.now }
    ensures { let F = K.elements k.now in MeetsRule F s.now →
        result ≡ top_weight_of F.ring (table_in F s.now) t 0 (elements_in F s.now p.now) }
{
    let mut n = 0;
    for i in 0..p.len() {
        n = n.max(weight_of(k, s, p[i].rows(), steps(i, t)));
    }
    n
}

/// The leading coefficient of coordinate `l` of the product of the basis elements i and j.
fn factor<K: FiniteField<E = u32>>(k: &K, s: &System, i: usize, j: usize, l: usize) -> u32
    requires table { HasTable (K.elements k.now) s.now }
    requires i { i < s.now.e }
    requires j { j < s.now.e }
    requires l { l < s.now.e }
    ensures element { IsElement (K.elements k.now) result }
    ensures value { let F = K.elements k.now in
        F.value result ≡ leading F (get_or (product_at s.now i j) l []) }
{
    leading_coefficient(k, &s.table.rows[i].items[j].items[l])
}

/// The class of the sum of levels of two classes.
fn class_sum(e: u32, i: usize, j: usize) -> usize
    requires i { i < e }
    requires j { j < e }
    ensures below { result < e }
    ensures value { result ≡ (i + j) % e }
{
    (i + j) % e as usize
}

/// The leading term of the product of elements with these leading terms.
fn product_lead<K: FiniteField<E = u32>>(k: &K, s: &System, a: Lead, b: Lead) -> Lead
    requires table { HasTable (K.elements k.now) s.now }
    requires a { IsLead (K.elements k.now) s.now a }
    requires b { IsLead (K.elements k.now) s.now b }
    ensures lead { IsLead (K.elements k.now) s.now result }
    ensures class { result.class ≡ (a.class + b.class) % s.now.e }
    ensures value { let F = K.elements k.now in MeetsRule F s.now →
        F.value result.c ≡ F.mul (F.mul (F.value a.c) (F.value b.c))
        (top_constant F.ring (table_in F s.now) a.class b.class) }
{
    let class = class_sum(s.e, a.class, b.class);
    let factor = factor(k, s, a.class, b.class, class);
    Lead {
        class,
        c: k.mul(k.mul(a.c, b.c), factor),
    }
}

/// The leading coefficient of the product of h and an element with the leading term `power`, where
/// the weight of h, with `more` added, is n; otherwise 0.
fn coefficient_at<K: FiniteField<E = u32>>(
    k: &K,
    s: &System,
    h: &[Poly],
    power: Lead,
    more: u128,
    n: u128,
) -> u32
    requires table { HasTable (K.elements k.now) s.now }
    requires h { AreCoords (K.elements k.now) s.now h.now }
    requires power { IsLead (K.elements k.now) s.now power }
    requires more { more < 2 ^ 96 }
    ensures element { IsElement (K.elements k.now) result }
    ensures value { let F = K.elements k.now in MeetsRule F s.now →
        IsCoefficientAt F s.now h.now power more n result }
{
    match top(s, h) {
        Some(term) => {
            if term.weight + more != n {
                return k.zero();
            }
            let lead = Lead {
                class: term.class,
                c: leading_coefficient(k, &h[term.class]),
            };
            product_lead(k, s, lead, power).c
        },
        None => k.zero(),
    }
}

/// The leading polynomial of p at the level t: as many coefficients as p has.
pub fn leading_poly<K: FiniteField<E = u32>>(
    alloc: Global,
    k: &K,
    s: &System,
    p: &[PolyList],
    t: u32,
) -> Result<Vec<u32>, NoMemory>
    requires table { HasTable (K.elements k.now) s.now }
    requires level { weight_at s.now (t % s.now.e) ≤ t }
    requires p { All (AreCoords (K.elements k.now) s.now) p.now }
    ensures count { IfOk result (λ r. length r.items ≡ length p.now) }
    ensures each { IfOk result (λ r. All (IsElement (K.elements k.now)) r.items) }
    ensures value { let F = K.elements k.now in MeetsRule F s.now →
        IfOk result (λ r. map F.value r.items ≡
        leading_of F.ring (table_in F s.now) t (elements_in F s.now p.now)) }
{
    let n = top_weight(k, s, p, t);
    let step = Lead {
        class: class_of(s, t),
        c: k.one(),
    };
    let mut power = Lead {
        class: 0,
        c: k.one(),
    };
    let mut list = Vec::with_capacity(alloc, p.len())?;
    for i in 0..p.len() {
        list.push(coefficient_at(k, s, p[i].rows(), power, steps(i, t), n))?;
        power = product_lead(k, s, power, step);
    }
    Ok(list)
}

/// The value of a polynomial at c.
fn value_at<K: FiniteField<E = u32>>(k: &K, p: &[u32], c: u32) -> u32
    requires p { All (IsElement (K.elements k.now)) p.now }
    requires c { IsElement (K.elements k.now) c }
    ensures element { IsElement (K.elements k.now) result }
    ensures value { let F = K.elements k.now in F.value result ≡ value_of F p.now c }
{
    let mut value = k.zero();
    let mut i = p.len();
    while i > 0 {
        i -= 1;
        value = k.add(p[i], k.mul(c, value));
    }
    value
}

/// Whether c is a root of a polynomial.
pub fn is_root<K: FiniteField<E = u32>>(k: &K, p: &[u32], c: u32) -> bool
    requires p { All (IsElement (K.elements k.now)) p.now }
    requires c { IsElement (K.elements k.now) c }
    ensures { let F = K.elements k.now in result ≡ F.same (value_of F p.now c) F.zero }
{
    is_zero(k, value_at(k, p, c))
}
