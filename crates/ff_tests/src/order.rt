// The maximal orders of equations, their lists and their refusals; planes and their vectors.
ghost use Rattle.std.specs.Prelude.{◌≡◌, length};

use ff_basis::order_basis;
use ff_data::{Chart, Refusal};
use ff_elem::{Alg, Elem};
use ff_lattice::{plane_of_vector, residues, vector_of_plane};
use ff_order::maximal;
use ff_prime::Prime;
use ff_sep::separate;
use ff_tests_base::algebras::algebra;
use ff_tests_base::made::{elements, field, plane, poly};
use ff_text::{print_order, print_refusal};
use std::alloc::Global;
use std::test::Fail;

/// The list of the maximal order of a chart.
fn list(alloc: Global, a: &Alg<Prime>, chart: Chart) -> Result<Vec<Elem>, Fail> {
    match separate(alloc, a) {
        Ok(sep) => {
            let order = maximal(alloc, a, &sep, chart)?;
            Ok(order_basis(alloc, a, &order)?)
        },
        Err(_) => Err(Fail::from("an equation that is separable")),
    }
}

/// Whether the lists of both maximal orders have this text.
fn has_lists(alloc: Global, a: &Alg<Prime>, want: &[u8]) -> Result<bool, Fail> {
    let finite = list(alloc, a, Chart::Finite)?;
    let infinite = list(alloc, a, Chart::Infinite)?;
    let text = print_order(alloc, &finite, &infinite)?;
    Ok(text.as_slice() == want)
}

/// Whether the line for a first field without a pole system within the limit is this.
fn is_limit_line(alloc: Global, want: &[u8]) -> Result<bool, Fail> {
    let text = print_refusal(alloc, &Refusal::PoleLimit)?;
    Ok(text.as_slice() == want)
}

/// Whether the plane of a vector of two rows of three entries has these rows, and the vector back.
fn has_rows(alloc: Global, k: &Prime, v: &[u64], rows: [&[u64]; 3]) -> Result<bool, Fail>
    requires { length v.now ≡ 6 }
{
    let v = elements(alloc, k, v)?;
    let made = plane_of_vector(alloc, k, &v, 2, 3)?;
    let back = vector_of_plane(alloc, k, &made, 2, 3)?;
    let want = plane(alloc, k, rows)?;
    Ok(made.same(k, &want) && back.as_slice() == v.as_slice())
}

/// Whether the residues of a plane of two rows modulo `m` have these rows.
fn has_residues(
    alloc: Global,
    k: &Prime,
    a: [&[u64]; 3],
    m: &[u64],
    want: [&[u64]; 3],
) -> Result<bool, Fail> {
    let a = plane(alloc, k, a)?;
    let m = poly(alloc, k, m)?;
    if m.is_zero() {
        return Err(Fail::from("a modulus"));
    }
    let want = plane(alloc, k, want)?;
    Ok(residues(alloc, k, &a, &m)?.same(k, &want))
}

#[test]
fn lists_of_maximal_orders(rt: HostRuntime) -> Result<(), Fail> {
    let a = algebra(
        rt.alloc(),
        field(3)?,
        [&[0, 0, 2, 0, 0, 0, 0, 2], &[], &[1]],
    )?;
    assert!(rt; has_lists(rt.alloc(), &a, b"finite: 1\n(y)/(x)\ninfinite: 0\n")?);
    Ok(())
}

#[test]
fn lists_of_an_equation_that_is_not_monic(rt: HostRuntime) -> Result<(), Fail> {
    let a = algebra(
        rt.alloc(),
        field(3)?,
        [&[0, 2, 0, 0, 0, 0, 2], &[], &[0, 1]],
    )?;
    assert!(rt; has_lists(rt.alloc(), &a, b"finite: 1\ny\ninfinite: 0\n")?);
    Ok(())
}

#[test]
fn line_of_a_limit(rt: HostRuntime) -> Result<(), Fail> {
    assert!(rt; is_limit_line(rt.alloc(), b"limit: no pole system within 1200\n")?);
    Ok(())
}

#[test]
fn planes_and_vectors(rt: HostRuntime) -> Result<(), Fail> {
    let k = field(5)?;
    let rows: [&[u64]; 3] = [&[1, 2, 3], &[0, 4], &[]];
    assert!(rt; has_rows(rt.alloc(), &k, &[1, 2, 3, 0, 4, 0], rows)?);
    Ok(())
}

#[test]
fn residues_of_rows(rt: HostRuntime) -> Result<(), Fail> {
    let k = field(5)?;
    let a: [&[u64]; 3] = [&[1, 0, 1], &[0, 1, 1], &[]];
    assert!(rt; has_residues(rt.alloc(), &k, a, &[0, 0, 1], [&[1], &[0, 1], &[]])?);
    Ok(())
}
