// What a text stands for.
ghost use Rattle.std.specs.Prelude.{◌≡◌, ℕ, ◌-◌, ◌≤◌, ◌<◌, false, min, length};
ghost use Rattle.std.specs.Prelude.{None, Err, IfOk};
ghost use Rattle.std.specs.List.{All, AllZip, HoldsAt};
ghost use Rattle.ff_prime.specs.Number.{number_of};
ghost use Rattle.ff_text.specs.declared.sums.Ratio.{Ratio};
ghost use Rattle.ff_text.specs.Limits.{equation_exceeds, element_exceeds};
ghost use Rattle.ff_text.specs.Limits.{elements, first_fault};
ghost use Rattle.ff_text.specs.Grammar.{Text, Derives, IsFaultAt};
ghost use Rattle.ff_text.specs.Values.{Answers, HasEquations, NeedsText};
ghost use Rattle.ff_text.specs.Parts.{IsReduced, IsEquationOf, IsElementOf};

use crate::fault::TextFault;
use crate::layout::Mode;
use crate::limits::{ELEM_HEIGHT, ELEM_WIDTH, EQUATION_HEIGHT, EQUATION_WIDTH, check_lines};
use crate::planes::{plane, polynomial};
use crate::reader::Monomial;
use crate::reading::read;
use crate::sums::{Ratio, ratios};
use ff_alg::NoMemory;
use ff_poly::{Plane, Poly};
use ff_prime::Prime;
use std::alloc::Global;

/// The greatest number of bytes of an input.
pub const MAX_BYTES: usize = 65536;

/// An element as it was read: a numerator in x and y over a denominator in x.
///
/// It is not reduced: its class modulo an equation is what it stands for.
#[derive(Drop)]
pub struct RawElem {
    pub num: Plane,
    pub den: Poly,
}

/// What an input asks for.
#[derive(Drop)]
pub struct Job {
    pub prime: Prime,
    /// The equation of the line f.
    pub first: Plane,
    /// The equation of the line g, and that of f again where there is none.
    pub second: Plane,
    /// X, Y, U and V in the mode `Check`, and none in the other modes.
    pub elems: Vec<RawElem>,
}

/// The polynomial of an equation within its limits.
fn equation(alloc: Global, k: &Prime, sum: &Ratio) -> Result<Plane, NoMemory>
    requires reduced { IsReduced (number_of k.now) sum.now }
    requires within { equation_exceeds sum.now ≡ false }
    ensures { IfOk result (IsEquationOf (number_of k.now) sum.now) }
{
    plane(alloc, k, &sum.numerator, EQUATION_WIDTH, EQUATION_HEIGHT)
}

/// An element within its limits.
fn element(alloc: Global, k: &Prime, sum: &Ratio) -> Result<RawElem, NoMemory>
    requires reduced { IsReduced (number_of k.now) sum.now }
    requires within { element_exceeds sum.now ≡ false }
    ensures { IfOk result (IsElementOf (number_of k.now) sum.now) }
{
    let num = plane(alloc, k, &sum.numerator, ELEM_WIDTH, ELEM_HEIGHT)?;
    let den = polynomial(alloc, k, &sum.denominator, ELEM_WIDTH)?;
    Ok(RawElem { num, den })
}

/// Elements within their limits.
fn elements(alloc: Global, k: &Prime, sums: &[Ratio]) -> Result<Vec<RawElem>, NoMemory>
    requires reduced { All (IsReduced (number_of k.now)) sums.now }
    requires within { All (λ (s : Ratio). element_exceeds s ≡ false) sums.now }
    ensures { let p = number_of k.now in
        IfOk result (λ r. AllZip (IsElementOf p) sums.now r.items) }
{
    let mut elems = Vec::new(alloc);
    for sum in sums {
        elems.push(element(alloc, k, sum)?)?;
    }
    Ok(elems)
}

impl Job {
    /// The job of lines without a fault.
    fn of(alloc: Global, prime: Prime, sums: &[Ratio]) -> Result<Job, NoMemory>
        requires some { 0 < length sums.now }
        requires reduced { All (IsReduced (number_of prime)) sums.now }
        requires right { first_fault sums.now ≡ None }
        ensures prime { IfOk result (λ job. job.prime ≡ prime) }
        ensures first { let p = number_of prime in
            IfOk result (λ job. HoldsAt (λ (s : Ratio). IsEquationOf p s job.first) sums.now 0) }
        ensures second { let p = number_of prime in
            let last = min (length sums.now) 2 - 1 in
            IfOk result (λ job.
            HoldsAt (λ (s : Ratio). IsEquationOf p s job.second) sums.now last) }
        ensures elems { let p = number_of prime in
            IfOk result (λ job. AllZip (IsElementOf p) (elements sums.now) job.elems.items) }
    {
        let count = sums.len().min(2);
        let first = equation(alloc, &prime, &sums[0])?;
        let second = equation(alloc, &prime, &sums[count - 1])?;
        let (_, others) = sums.split_at(count);
        let elems = elements(alloc, &prime, others)?;
        Ok(Job {
            prime,
            first,
            second,
            elems,
        })
    }
}

/// Reads an input of at most `MAX_BYTES` bytes. The grammar is this project's own.
///
/// Ok holds the job of the bytes: the field, one or two equations with y that are within their
/// limits, and in the mode `Check` four elements. Like terms are added before any degree is taken.
///
/// `Syntax` comes exactly where the grammar of the mode does not derive the bytes, at the length of
/// their longest prefix with which some text of the mode begins. Each other fault but `NoMemory`
/// comes exactly where it is the first one of the text: `NotPrime` where the number after `p` is
/// not in the table of primes, `NoY` where an equation has no nonzero term with y,
/// `ZeroDenominator` where a denominator is 0, and `Degree` where a degree is above its limit.
/// `NoMemory` is out of memory, and may come at any input.
pub fn read_input(alloc: Global, bytes: &[u8], mode: Mode) -> Result<Job, TextFault>
    requires { length bytes.now ≤ MAX_BYTES }
    ensures syntax { (at : ℕ) → result ≡ Err (TextFault.Syntax at) → IsFaultAt mode bytes.now at }
    ensures text { (v : Text) → Derives mode bytes.now v → Answers v result }
    ensures derived { NeedsText result → (v : Text) × Derives mode bytes.now v }
    ensures equations { IfOk result HasEquations }
{
    let (number, lines) = read(alloc, mode, bytes)?.into_parts();
    let Some(prime) = Prime::of(number as u64) else {
        return Err(TextFault::NotPrime);
    };
    let sums = ratios(alloc, number, &lines)?;
    match check_lines(&sums) {
        Err(fault) => Err(fault),
        Ok(()) => Ok(Job::of(alloc, prime, &sums)?),
    }
}
