// What the tests make: elements and pairs of elements, from lists of numbers.
ghost use Rattle.std.specs.Prelude.{IfOk};
ghost use Rattle.ff_elem.specs.Elem.{IsElem};
ghost use Rattle.ff_data.specs.Pairs.{IsPair};

use ff_alg::Ring;
use ff_data::Pair;
use ff_elem::{Alg, Elem};
use ff_prime::Prime;
use ff_tests_base::algebras::fraction;
use std::alloc::Global;
use std::test::Fail;

/// A fraction: the coefficients of the denominator, and of the rows of the numerator.
pub type Parts = [&'static [u64]; 3];

/// The element with these parts.
pub fn element(alloc: Global, a: &Alg<Prime>, parts: Parts) -> Result<Elem, Fail>
    ensures { let L = ⟦<Prime as Ring>⟧.lawful a.now.k in IfOk result (IsElem L a.now.f) }
{
    fraction(alloc, a, [parts[1], parts[2], &[]], parts[0])
}

/// The pair with these parts.
pub fn pair(alloc: Global, a: &Alg<Prime>, parts: [Parts; 2]) -> Result<Pair, Fail>
    ensures { let L = ⟦<Prime as Ring>⟧.lawful a.now.k in IfOk result (IsPair L a.now.f) }
{
    let x = element(alloc, a, parts[0])?;
    let y = element(alloc, a, parts[1])?;
    Ok(Pair { x, y })
}
