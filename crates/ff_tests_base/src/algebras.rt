// What tests make of lists of numbers: algebras and their elements.
ghost use Rattle.std.specs.Prelude.{◌≡◌, IfOk};
ghost use Rattle.ff_elem.specs.Elem.{IsElem};

use crate::made::{field, plane, poly};
use ff_alg::Ring;
use ff_elem::{Alg, Elem};
use ff_prime::Prime;
use std::alloc::Global;
use std::test::Fail;

/// The algebra of the equation with these rows.
pub fn algebra(alloc: Global, k: Prime, rows: [&[u64]; 3]) -> Result<Alg<Prime>, Fail>
    ensures { IfOk result (λ a. a.k ≡ k) }
{
    let f = plane(alloc, &k, rows)?;
    if f.rows().len() < 2 {
        return Err(Fail::from("an equation with y"));
    }
    let algebra = Alg::new(alloc, k, &f)?;
    Ok(algebra)
}

/// The algebra of y^2 - x^5 - 1 over three elements.
pub fn quintic(alloc: Global) -> Result<Alg<Prime>, Fail> {
    algebra(alloc, field(3)?, [&[2, 0, 0, 0, 0, 2], &[], &[1]])
}

/// The algebra of y^2 - x^2 over seven elements, a product of two fields, in which y is x and -x.
pub fn two_fields(alloc: Global) -> Result<Alg<Prime>, Fail> {
    algebra(alloc, field(7)?, [&[0, 0, 6], &[], &[1]])
}

/// The polynomial with the rows `rows` over `den`, where that is not 0.
pub fn fraction(alloc: Global, a: &Alg<Prime>, rows: [&[u64]; 3], den: &[u64]) -> Result<Elem, Fail>
    ensures { let L = ⟦<Prime as Ring>⟧.lawful a.now.k in IfOk result (IsElem L a.now.f) }
{
    let num = plane(alloc, &a.k, rows)?;
    let den = poly(alloc, &a.k, den)?;
    if den.is_zero() {
        return Err(Fail::from("a denominator that is not 0"));
    }
    let e = a.from_parts(alloc, &num, &den)?;
    Ok(e)
}
