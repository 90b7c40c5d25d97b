// Limits of degrees, and tests on the terms of sums.
ghost use Rattle.std.specs.Prelude.{◌≡◌, ◌+◌, ◌*◌, ◌-◌, ◌<◌, ◌≤◌, false, position, length};
ghost use Rattle.std.specs.Prelude.{Some, None, MatchResult};
ghost use Rattle.std.specs.List.{All, list_any};
ghost use Rattle.ff_text.specs.Limits.{has_y, exceeds, top, raises, monic_exceeds};
ghost use Rattle.ff_text.specs.Limits.{lacks_y, is_over_zero, equation_exceeds, element_exceeds};
ghost use Rattle.ff_text.specs.Limits.{first_fault};

use crate::fault::TextFault;
use crate::reader::Monomial;
use crate::sums::Ratio;
use ff_poly::{MAX_MONIC_DEGREE, MAX_X_DEGREE, MAX_Y_DEGREE};

/// The greatest degree in x of the numerator and of the denominator of an element of the input.
pub const MAX_ELEM_X_DEGREE: usize = 512;

/// The greatest degree in y of the numerator of an element of the input.
pub const MAX_ELEM_Y_DEGREE: usize = 64;

/// The numbers of coefficients in x and in y of an equation within its limits.
pub const EQUATION_WIDTH: usize = MAX_X_DEGREE + 1;

pub const EQUATION_HEIGHT: u64 = MAX_Y_DEGREE as u64 + 1;

/// The numbers of coefficients in x and in y of an element within its limits.
pub const ELEM_WIDTH: usize = MAX_ELEM_X_DEGREE + 1;

pub const ELEM_HEIGHT: u64 = MAX_ELEM_Y_DEGREE as u64 + 1;

/// Whether y occurs.
fn has_y(terms: &[Monomial]) -> bool
    ensures { result ≡ has_y terms.now }
{
    terms.iter().any(|m| m.y > 0)
}

/// Whether some power of x is above the first number, or some power of y above the second.
fn exceeds(terms: &[Monomial], x: u64, y: u64) -> bool
    ensures { result ≡ exceeds x y terms.now }
{
    terms.iter().any(|m| m.x > x || m.y > y)
}

/// The term with the greatest power of y and, among those, the greatest power of x.
fn top(first: Monomial, rest: &[Monomial]) -> Monomial
    ensures { result ≡ top first rest.now }
{
    let mut top = first;
    for m in rest {
        if m.y > top.y || (m.y == top.y && m.x > top.x) {
            top = *m;
        }
    }
    top
}

/// Whether the monic form has a power of x above the limit, where the leading term is this one.
fn raises(terms: &[Monomial], leading: Monomial, limit: u64) -> bool
    requires x { leading.x ≤ MAX_X_DEGREE }
    requires y { leading.y ≤ MAX_Y_DEGREE }
    requires each { All (λ m. (m.x ≤ MAX_X_DEGREE) × (m.y ≤ MAX_Y_DEGREE)) terms.now }
    ensures { result ≡ list_any (raises limit leading) terms.now }
{
    for m in terms {
        if m.y < leading.y && m.x + (leading.y - 1 - m.y) * leading.x > limit {
            return true;
        }
    }
    false
}

/// Whether the degree in x of the monic form is above the limit. The powers are within the limits
/// of an equation.
#[tactic(auto, unfolding(crate::specs::Limits::monic_exceeds))]
fn monic_exceeds(terms: &[Monomial], limit: u64) -> bool
    requires { exceeds MAX_X_DEGREE MAX_Y_DEGREE terms.now ≡ false }
    ensures { result ≡ monic_exceeds limit terms.now }
{
    match terms {
        [] => false,
        [first, rest @ ..] => raises(terms, top(*first, rest), limit),
    }
}

/// Whether an equation is above its limits.
fn equation_exceeds(equation: &Ratio) -> bool
    ensures { result ≡ equation_exceeds equation.now }
{
    exceeds(
        &equation.numerator,
        MAX_X_DEGREE as u64,
        MAX_Y_DEGREE as u64,
    ) || monic_exceeds(&equation.numerator, MAX_MONIC_DEGREE as u64)
}

/// Whether a denominator is 0.
fn is_over_zero(element: &Ratio) -> bool
    ensures { result ≡ is_over_zero element.now }
{
    element.denominator.is_empty()
}

/// Whether an element is above its limits.
fn element_exceeds(element: &Ratio) -> bool
    ensures { result ≡ element_exceeds element.now }
{
    exceeds(
        &element.numerator,
        MAX_ELEM_X_DEGREE as u64,
        MAX_ELEM_Y_DEGREE as u64,
    ) || exceeds(
        &element.denominator,
        MAX_ELEM_X_DEGREE as u64,
        MAX_ELEM_Y_DEGREE as u64,
    )
}

/// The first equation without y.
fn without_y(equations: &[Ratio]) -> Option<usize>
    ensures { result ≡ position lacks_y equations.now }
{
    equations.iter().position(|e| !has_y(&e.numerator))
}

/// The first element over 0.
fn over_zero(elements: &[Ratio]) -> Option<usize>
    ensures { result ≡ position is_over_zero elements.now }
{
    elements.iter().position(|e| is_over_zero(e))
}

/// The first equation above its limits.
fn equation_above(equations: &[Ratio]) -> Option<usize>
    ensures { result ≡ position equation_exceeds equations.now }
{
    equations.iter().position(|e| equation_exceeds(e))
}

/// The first element above its limits.
fn element_above(elements: &[Ratio]) -> Option<usize>
    ensures { result ≡ position element_exceeds elements.now }
{
    elements.iter().position(|e| element_exceeds(e))
}

/// Checks the lines of a text, of which the first two are equations, and answers the first fault.
#[tactic(auto, unfolding(crate::specs::Limits::first_fault))]
pub fn check_lines(lines: &[Ratio]) -> Result<(), TextFault>
    requires { length lines.now ≤ 6 }
    ensures { let found = first_fault lines.now in
        MatchResult result (λ _. found ≡ None) (λ e. found ≡ Some e) }
{
    let (equations, elements) = lines.split_at(lines.len().min(2));
    if let Some(i) = without_y(equations) {
        return Err(TextFault::NoY { which: i as u8 + 1 });
    }
    if let Some(i) = over_zero(elements) {
        return Err(TextFault::ZeroDenominator { which: i as u8 + 3 });
    }
    if let Some(i) = equation_above(equations) {
        return Err(TextFault::Degree { which: i as u8 + 1 });
    }
    if let Some(i) = element_above(elements) {
        return Err(TextFault::Degree { which: i as u8 + 3 });
    }
    Ok(())
}
