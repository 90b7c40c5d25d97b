// Elements of the algebra of an equation.
ghost use Rattle.std.specs.Prelude.{◌≡◌, IfOk};
ghost use Rattle.ff_elem.specs.Elem.{IsElem, algebra_in, elem_of};

use crate::algebras::{algebra, fraction, quintic, two_fields};
use crate::made::{field, plane};
use ff_alg::{NoMemory, Ring};
use ff_elem::{Alg, Elem, InvFault};
use ff_prime::Prime;
use std::alloc::Global;
use std::cmp::Ordering;
use std::test::Fail;

// A fraction: the coefficients of the denominator, and of the rows of the numerator.
type Parts = [&'static [u64]; 3];

const Y: Parts = [&[1], &[], &[1]];

const ONE_OVER_X: Parts = [&[0, 1], &[1], &[]];

/// The element with these parts.
fn element(alloc: Global, a: &Alg<Prime>, parts: Parts) -> Result<Elem, Fail>
    ensures { let L = ⟦<Prime as Ring>⟧.lawful a.now.k in IfOk result (IsElem L a.now.f) }
{
    fraction(alloc, a, [parts[1], parts[2], &[]], parts[0])
}

/// Whether an element has a key.
fn has_key(alloc: Global, a: &Alg<Prime>, e: &Elem, want: &[u64]) -> Result<bool, Fail>
    requires { IsElem (⟦<Prime as Ring>⟧.lawful a.now.k) a.now.f e.now }
{
    let key = a.key(alloc, e)?;
    Ok(key.as_slice() == want)
}

/// Whether the element with these parts has a key.
fn parts_have_key(alloc: Global, a: &Alg<Prime>, parts: Parts, want: &[u64]) -> Result<bool, Fail> {
    let e = element(alloc, a, parts)?;
    has_key(alloc, a, &e, want)
}

/// Whether 0 and 1 have these keys.
fn constants_have_keys(
    alloc: Global,
    a: &Alg<Prime>,
    zero: &[u64],
    one: &[u64],
) -> Result<bool, Fail> {
    Ok(has_key(alloc, a, &a.zero(alloc)?, zero)? && has_key(alloc, a, &a.one(alloc)?, one)?)
}

/// Whether x has a key.
fn x_has_key(alloc: Global, a: &Alg<Prime>, want: &[u64]) -> Result<bool, Fail> {
    let x = a.x(alloc)?;
    has_key(alloc, a, &x, want)
}

/// Whether y has a key.
fn y_has_key(alloc: Global, a: &Alg<Prime>, want: &[u64]) -> Result<bool, Fail> {
    let y = a.y(alloc)?;
    has_key(alloc, a, &y, want)
}

/// Whether the negative of y has a key.
fn negative_has_key(alloc: Global, a: &Alg<Prime>, want: &[u64]) -> Result<bool, Fail> {
    let y = a.y(alloc)?;
    let negative = a.neg(alloc, &y)?;
    has_key(alloc, a, &negative, want)
}

/// Whether y to the power of the characteristic has a key.
fn power_has_key(alloc: Global, a: &Alg<Prime>, want: &[u64]) -> Result<bool, Fail> {
    let y = a.y(alloc)?;
    let power = a.frob(alloc, &y)?;
    has_key(alloc, a, &power, want)
}

/// Whether the sum of y and an element has a key.
fn sum_has_key(alloc: Global, a: &Alg<Prime>, t: Parts, want: &[u64]) -> Result<bool, Fail> {
    let t = element(alloc, a, t)?;
    let sum = a.add(alloc, &a.y(alloc)?, &t)?;
    has_key(alloc, a, &sum, want)
}

/// Whether a product has a key.
fn product_has_key(
    alloc: Global,
    a: &Alg<Prime>,
    s: &Elem,
    t: &Elem,
    want: &[u64],
) -> Result<bool, Fail>
    requires s { IsElem (⟦<Prime as Ring>⟧.lawful a.now.k) a.now.f s.now }
    requires t { IsElem (⟦<Prime as Ring>⟧.lawful a.now.k) a.now.f t.now }
{
    let product = a.mul(alloc, s, t)?;
    has_key(alloc, a, &product, want)
}

/// Whether the product of y by an element has a key.
fn multiple_has_key(alloc: Global, a: &Alg<Prime>, t: Parts, want: &[u64]) -> Result<bool, Fail> {
    let y = a.y(alloc)?;
    let t = element(alloc, a, t)?;
    product_has_key(alloc, a, &y, &t, want)
}

/// Whether the element has an inverse with a key.
fn inverse_has_key(alloc: Global, a: &Alg<Prime>, s: Parts, want: &[u64]) -> Result<bool, Fail> {
    let s = element(alloc, a, s)?;
    match a.inverse(alloc, &s) {
        Ok(r) => has_key(alloc, a, &r, want),
        Err(_) => Ok(false),
    }
}

/// Whether an element that is not 0 makes another one 0.
fn divides_zero(alloc: Global, a: &Alg<Prime>, s: &Elem, u: &Elem) -> Result<bool, Fail>
    requires s { IsElem (⟦<Prime as Ring>⟧.lawful a.now.k) a.now.f s.now }
    requires u { IsElem (⟦<Prime as Ring>⟧.lawful a.now.k) a.now.f u.now }
{
    let nonzero = !has_key(alloc, a, u, &[1, 1, 0, 0])?;
    Ok(nonzero && product_has_key(alloc, a, s, u, &[1, 1, 0, 0])?)
}

/// Whether the element has no inverse, and a divisor of zero says so.
fn has_no_inverse(alloc: Global, a: &Alg<Prime>, s: Parts) -> Result<bool, Fail> {
    let s = element(alloc, a, s)?;
    match a.inverse(alloc, &s) {
        Err(InvFault::ZeroDivisor { u }) => divides_zero(alloc, a, &s, &u),
        _ => Ok(false),
    }
}

/// Whether an element that is not 0 and has no inverse splits the equation into these factors.
fn splits(alloc: Global, a: &Alg<Prime>, s: &Elem, want: [Parts; 2]) -> Result<bool, Fail>
    requires s { IsElem (⟦<Prime as Ring>⟧.lawful a.now.k) a.now.f s.now }
    requires nonzero { let L = ⟦<Prime as Ring>⟧.lawful a.now.k in let f = a.now.f in
        ¬ (elem_of L f s.now ≡ (algebra_in L f).zero) }
    requires none { let L = ⟦<Prime as Ring>⟧.lawful a.now.k in let f = a.now.f in
        let A = algebra_in L f in
        (b : A.carrier) → ¬ (A.mul (elem_of L f s.now) b ≡ A.one) }
{
    let first = plane(alloc, &a.k, want[0])?;
    let second = plane(alloc, &a.k, want[1])?;
    let (g, h) = a.factors(alloc, s)?;
    Ok(g.same(&a.k, &first) && h.same(&a.k, &second))
}

/// Whether an element has no inverse, and splits the equation into these factors.
fn factors_are(alloc: Global, a: &Alg<Prime>, s: Parts, want: [Parts; 2]) -> Result<bool, Fail> {
    let s = element(alloc, a, s)?;
    let zero = a.zero(alloc)?;
    if a.same(&s, &zero) {
        return Ok(false);
    }
    match a.inverse(alloc, &s) {
        Err(InvFault::ZeroDivisor { u: _u }) => splits(alloc, a, &s, want),
        _ => Ok(false),
    }
}

/// Whether copies of y are the same, and x is another element.
fn copies_are_same(alloc: Global, a: &Alg<Prime>) -> Result<bool, Fail> {
    let y = a.y(alloc)?;
    let copy = y.copy(alloc)?;
    let rows = y.num.copy(alloc)?;
    let x = a.x(alloc)?;
    Ok(y.same(&a.k, &copy) && rows.rows().len() == 2 && !a.same(&x, &y))
}

/// How two elements compare.
fn order(alloc: Global, a: &Alg<Prime>, s: Parts, t: Parts) -> Result<Ordering, Fail> {
    let s = element(alloc, a, s)?;
    let t = element(alloc, a, t)?;
    Ok(a.compare(&s, &t))
}

/// Whether the equation has these rows, and the field this number.
fn has_parts(alloc: Global, a: &Alg<Prime>, rows: Parts, number: u64) -> Result<bool, Fail> {
    let f = plane(alloc, &a.k, rows)?;
    Ok(a.field().number() == number && a.equation().same(&a.k, &f))
}

#[test]
fn parts_of_an_algebra(rt: HostRuntime) -> Result<(), Fail> {
    let a = quintic(rt.alloc())?;
    assert!(rt; has_parts(rt.alloc(), &a, [&[2, 0, 0, 0, 0, 2], &[], &[1]], 3)?);
    Ok(())
}

#[test]
fn constants(rt: HostRuntime) -> Result<(), Fail> {
    let a = quintic(rt.alloc())?;
    assert!(rt; constants_have_keys(rt.alloc(), &a, &[1, 1, 0, 0], &[1, 1, 1, 1, 0])?);
    Ok(())
}

#[test]
fn variables(rt: HostRuntime) -> Result<(), Fail> {
    let a = quintic(rt.alloc())?;
    assert!(rt; x_has_key(rt.alloc(), &a, &[1, 1, 2, 1, 0, 0])?);
    assert!(rt; y_has_key(rt.alloc(), &a, &[1, 1, 0, 1, 1])?);
    Ok(())
}

// The third power of y is (x^5 + 1) * y.
#[test]
fn negatives_and_powers(rt: HostRuntime) -> Result<(), Fail> {
    let a = quintic(rt.alloc())?;
    assert!(rt; negative_has_key(rt.alloc(), &a, &[1, 1, 0, 1, 2])?);
    assert!(rt; power_has_key(rt.alloc(), &a, &[1, 1, 0, 6, 1, 0, 0, 0, 0, 1])?);
    Ok(())
}

#[test]
fn equal_copies(rt: HostRuntime) -> Result<(), Fail> {
    let a = quintic(rt.alloc())?;
    assert!(rt; copies_are_same(rt.alloc(), &a)?);
    Ok(())
}

#[test]
fn order_of_elements(rt: HostRuntime) -> Result<(), Fail> {
    let a = quintic(rt.alloc())?;
    let x: Parts = [&[1], &[0, 1], &[]];
    let next: Parts = [&[1], &[1, 1], &[]];
    assert_eq!(rt; order(rt.alloc(), &a, Y, x)?, Ordering::Less);
    assert_eq!(rt; order(rt.alloc(), &a, x, x)?, Ordering::Equal);
    assert_eq!(rt; order(rt.alloc(), &a, next, x)?, Ordering::Greater);
    Ok(())
}

// The square of y is x^5 + 1.
#[test]
fn sums_and_products(rt: HostRuntime) -> Result<(), Fail> {
    let a = quintic(rt.alloc())?;
    assert!(rt; sum_has_key(rt.alloc(), &a, ONE_OVER_X, &[2, 1, 0, 1, 1, 2, 1, 0])?);
    assert!(rt; multiple_has_key(rt.alloc(), &a, Y, &[1, 1, 6, 1, 0, 0, 0, 0, 1, 0])?);
    assert!(rt; multiple_has_key(rt.alloc(), &a, ONE_OVER_X, &[2, 1, 0, 0, 1, 1])?);
    Ok(())
}

/// Whether y^2 over x has a key.
fn square_over_x_has_key(alloc: Global, a: &Alg<Prime>, want: &[u64]) -> Result<bool, Fail> {
    let square = fraction(alloc, a, [&[], &[], &[1]], &[0, 1])?;
    has_key(alloc, a, &square, want)
}

#[test]
fn parts_above_the_degree(rt: HostRuntime) -> Result<(), Fail> {
    let a = quintic(rt.alloc())?;
    assert!(rt; square_over_x_has_key(rt.alloc(), &a, &[2, 1, 0, 6, 1, 0, 0, 0, 0, 1, 0])?);
    Ok(())
}

// The inverse of y is y / (x^5 + 1), and that of x * y / (x + 1) is
// y / (x * (x^4 - x^3 + x^2 - x + 1)).
#[test]
fn inverses(rt: HostRuntime) -> Result<(), Fail> {
    let a = quintic(rt.alloc())?;
    assert!(rt; inverse_has_key(rt.alloc(), &a, Y, &[6, 1, 0, 0, 0, 0, 1, 0, 1, 1])?);
    let s: Parts = [&[1, 1], &[], &[0, 1]];
    assert!(rt; inverse_has_key(rt.alloc(), &a, s, &[6, 1, 2, 1, 2, 1, 0, 0, 1, 1])?);
    Ok(())
}

// The product of y + x and y - x is 0.
#[test]
fn divisors_of_zero(rt: HostRuntime) -> Result<(), Fail> {
    let a = two_fields(rt.alloc())?;
    let s: Parts = [&[1], &[0, 1], &[1]];
    assert!(rt; has_no_inverse(rt.alloc(), &a, s)?);
    let factors: [Parts; 2] = [[&[0, 1], &[1], &[]], [&[0, 6], &[1], &[]]];
    assert!(rt; factors_are(rt.alloc(), &a, s, factors)?);
    Ok(())
}

// The square of y is 1 / x.
#[test]
fn equations_that_are_not_monic(rt: HostRuntime) -> Result<(), Fail> {
    let a = algebra(rt.alloc(), field(5)?, [&[4], &[], &[0, 1]])?;
    assert!(rt; multiple_has_key(rt.alloc(), &a, Y, &[2, 1, 0, 1, 1, 0])?);
    Ok(())
}

// y is 1 / x.
#[test]
fn linear_equations(rt: HostRuntime) -> Result<(), Fail> {
    let a = algebra(rt.alloc(), field(5)?, [&[4], &[0, 1], &[]])?;
    assert!(rt; y_has_key(rt.alloc(), &a, &[2, 1, 0, 1, 1])?);
    assert!(rt; parts_have_key(rt.alloc(), &a, Y, &[2, 1, 0, 1, 1])?);
    Ok(())
}

#[test]
fn out_of_memory(rt: HostRuntime) {
    assert!(rt; matches!(InvFault::from(NoMemory), InvFault::NoMemory));
}
