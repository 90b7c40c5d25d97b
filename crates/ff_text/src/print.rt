// The printed texts of faults and of polynomials.
ghost use Rattle.std.specs.Prelude.{◌≡◌, ◌≤◌, [], ◌∷◌, ◌++◌, ◌<◌, map, codes, IfOk};
ghost use Rattle.std.specs.List.{flat_map};
ghost use Rattle.std.specs.String.{string_bytes};
ghost use Rattle.ff_text.specs.Printed.{letter_of, degree_of, fault_text, HasText};
ghost use Rattle.ff_text.specs.Printed.{join, coefficient_factor, power_text, power_factor};
ghost use Rattle.ff_text.specs.Printed.{term_text};
ghost use Rattle.ff_text.specs.Printed.{row_terms, rows_terms, sum_text, poly_text, is_one};

use crate::fault::TextFault;
use crate::reader::Monomial;
use ff_alg::NoMemory;
use ff_poly::{Plane, Poly};
use std::alloc::Global;
use std::slice;

/// The letter of an element: 3 to 6 are X, Y, U and V.
fn letter(which: u8) -> &'static str
    requires low { 3 ≤ which }
    requires high { which ≤ 6 }
    ensures { result.now ≡ letter_of which }
{
    match which {
        3 => "X",
        4 => "Y",
        5 => "U",
        _ => "V",
    }
}

/// An equation by its number, and an element by its letter.
fn name(which: u8) -> &'static str
    requires low { 1 ≤ which }
    requires high { which ≤ 6 }
    ensures { result.now ≡ degree_of which }
{
    match which {
        1 => "equation 1",
        2 => "equation 2",
        _ => letter(which),
    }
}

/// The line for a fault, which is not `NoMemory`.
///
/// `which` is 1 or 2 in `NoY`, 3 to 6 in `ZeroDenominator` and 1 to 6 in `Degree`.
/// The only error is out of memory.
pub fn print_fault(alloc: Global, fault: &TextFault) -> Result<Vec<u8>, NoMemory>
    requires { HasText fault.now }
    ensures { IfOk result (λ text. text.items ≡ fault_text fault.now) }
{
    let text = match *fault {
        TextFault::Syntax { at } => format!(in alloc; "bad input: syntax at {at}\n")?,
        TextFault::NotPrime => format!(in alloc; "bad input: p is not in the table\n")?,
        TextFault::NoY { which } => format!(in alloc; "bad input: equation {which} has no y\n")?,
        TextFault::ZeroDenominator { which } => {
            let letter = letter(which);
            format!(in alloc; "bad input: denominator of {letter} is zero\n")?
        }
        TextFault::Degree { which } => {
            let name = name(which);
            format!(in alloc; "limit: degree of {name}\n")?
        }
        TextFault::NoMemory => return Err(NoMemory),
    };
    Ok(text.into_bytes())
}

/// The texts with the separator between each two.
fn join(alloc: Global, separator: &str, texts: &[String]) -> Result<String, NoMemory>
    ensures { let all = map string_bytes texts.now in
        IfOk result (λ r. string_bytes r ≡ join separator.now all) }
{
    let mut joined = String::new(alloc);
    let [first, rest @ ..] = texts else {
        return Ok(joined);
    };
    joined.push_str(first.as_str())?;
    for text in rest {
        joined.push_str(separator)?;
        joined.push_str(text.as_str())?;
    }
    Ok(joined)
}

/// A power of a letter, without the exponent 1.
fn power(alloc: Global, letter: &str, n: u64) -> Result<String, NoMemory>
    ensures { IfOk result (λ r. string_bytes r ≡ power_text letter.now n) }
{
    let text = if n == 1 {
        format!(in alloc; "{letter}")?
    } else {
        format!(in alloc; "{letter}^{n}")?
    };
    Ok(text)
}

/// The factors of a term: its coefficient, where that is not 1 or there is no power, and its powers
/// of x and y.
fn factors(alloc: Global, m: Monomial) -> Result<Vec<String>, NoMemory>
    ensures { let powers = power_factor (codes "x") m.x ++ power_factor (codes "y") m.y in
        IfOk result (λ r. map string_bytes r.items ≡ coefficient_factor m ++ powers) }
{
    let mut factors = Vec::new(alloc);
    if m.coefficient != 1 || (m.x == 0 && m.y == 0) {
        let coefficient = m.coefficient;
        factors.push(format!(in alloc; "{coefficient}")?)?;
    }
    if m.x > 0 {
        factors.push(power(alloc, "x", m.x)?)?;
    }
    if m.y > 0 {
        factors.push(power(alloc, "y", m.y)?)?;
    }
    Ok(factors)
}

/// A coefficient, then a power of x, then a power of y.
fn term(alloc: Global, m: Monomial) -> Result<String, NoMemory>
    ensures { IfOk result (λ r. string_bytes r ≡ term_text m) }
{
    join(alloc, "*", &factors(alloc, m)?)
}

/// The texts of terms.
fn terms(alloc: Global, monomials: &[Monomial]) -> Result<Vec<String>, NoMemory>
    ensures { IfOk result (λ r. map string_bytes r.items ≡ map term_text monomials.now) }
{
    let mut terms = Vec::new(alloc);
    for m in monomials {
        terms.push(term(alloc, *m)?)?;
    }
    Ok(terms)
}

/// Appends the terms of the row of y^j that are not 0, by falling power of x.
fn push_row(terms: &mut Vec<Monomial>, row: &[u32], j: u64) -> Result<(), NoMemory>
    ensures { let old = terms.old.items in
        IfOk result (λ _. terms.new.items ≡ old ++ row_terms j 0 row.now) }
{
    for i in (0..row.len()).rev() {
        if row[i] > 0 {
            terms.push(Monomial {
                coefficient: row[i],
                x: i as u64,
                y: j,
            })?;
        }
    }
    Ok(())
}

/// The terms of a polynomial that are not 0, by falling power of y and, for equal powers of y, by
/// falling power of x.
fn monomials(alloc: Global, rows: &[Poly]) -> Result<Vec<Monomial>, NoMemory>
    ensures { IfOk result (λ r. r.items ≡ rows_terms 0 rows.now) }
{
    let mut terms = Vec::new(alloc);
    for j in (0..rows.len()).rev() {
        push_row(&mut terms, rows[j].coeffs(), j as u64)?;
    }
    Ok(terms)
}

/// The text of a polynomial by its rows.
pub fn polynomial(alloc: Global, rows: &[Poly]) -> Result<String, NoMemory>
    ensures { IfOk result (λ r. string_bytes r ≡ poly_text rows.now) }
{
    let monomials = monomials(alloc, rows)?;
    if monomials.is_empty() {
        return Ok(format!(in alloc; "0")?);
    }
    join(alloc, "+", &terms(alloc, &monomials)?)
}

/// The text of a polynomial in x and y.
///
/// Its terms that are not 0 are sorted by falling power of y and, for equal powers of y, by falling
/// power of x, with `+` between them: `4*x^5*y^2+y+1`. The coefficient 1 is left out before a
/// power, and so is the exponent 1. The text of 0 is `0`. The only error is out of memory.
pub fn print_poly(alloc: Global, f: &Plane) -> Result<Vec<u8>, NoMemory>
    ensures { IfOk result (λ text. text.items ≡ poly_text f.now) }
{
    Ok(polynomial(alloc, f.rows())?.into_bytes())
}

/// Whether a polynomial in x is 1.
pub fn is_one(p: &Poly) -> bool
    ensures { result ≡ is_one p.now }
{
    matches!(p.coeffs(), [1])
}

/// The text of a polynomial in x.
pub fn denominator(alloc: Global, p: &Poly) -> Result<String, NoMemory>
    ensures { IfOk result (λ r. string_bytes r ≡ poly_text (p.now ∷ [])) }
{
    polynomial(alloc, slice::from_ref(p))
}
