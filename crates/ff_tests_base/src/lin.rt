// Spaces over three elements, whose vectors are written by the indices of their entries.
ghost use Rattle.std.specs.Prelude.{◌≡◌, IfOk};
ghost use Rattle.std.specs.List.{All};
ghost use Rattle.ff_theory.specs.Ring.{IsElement};
ghost use Rattle.ff_theory.specs.PrimeTable.{prime_elements};
ghost use Rattle.ff_lin.specs.Space.{AreVectors, IsSpace, IsSpaceOf};

use crate::made::{elements, field};
use ff_alg::FiniteField;
use ff_lin::{Space, solve};
use ff_prime::Prime;
use std::alloc::Global;
use std::test::Fail;

/// Vectors of length `n`.
fn vectors(alloc: Global, k: &Prime, n: usize, rows: &[&[u64]]) -> Result<Vec<Vec<u32>>, Fail>
    ensures { IfOk result (λ v. AreVectors (prime_elements k.now.number) n v.items) }
{
    let mut vectors = Vec::new(alloc);
    for row in rows {
        if row.len() != n {
            return Err(Fail::from("a vector of this length"));
        }
        vectors.push(elements(alloc, k, row)?)?;
    }
    Ok(vectors)
}

/// The space of the combinations of two vectors of length two.
fn space(alloc: Global, k: &Prime, rows: [&[u64]; 2]) -> Result<Space, Fail>
    ensures { IfOk result (IsSpaceOf (prime_elements k.now.number) 2) }
{
    let rows = vectors(alloc, k, 2, &rows)?;
    let space = Space::span(alloc, k, 2, &rows)?;
    Ok(space)
}

/// The space of the multiples of a vector of length two.
fn line(alloc: Global, k: &Prime, row: &[u64]) -> Result<Space, Fail>
    ensures { IfOk result (IsSpaceOf (prime_elements k.now.number) 2) }
{
    space(alloc, k, [row, row])
}

/// Whether a vector has these entries.
fn has_entries(k: &Prime, v: &[u32], want: &[u64]) -> bool
    requires { All (IsElement (prime_elements k.now.number)) v.now }
{
    if v.len() != want.len() {
        return false;
    }
    for j in 0..v.len() {
        if k.index(v[j]) != want[j] {
            return false;
        }
    }
    true
}

/// Whether the basis has these vectors.
fn has_basis(k: &Prime, space: &Space, want: &[&[u64]]) -> bool
    requires { IsSpace (prime_elements k.now.number) space.now }
{
    let basis = space.basis();
    if basis.len() != want.len() {
        return false;
    }
    for i in 0..basis.len() {
        if !has_entries(k, &basis[i], want[i]) {
            return false;
        }
    }
    true
}

/// Whether the combinations of two vectors have this basis.
fn span_is(alloc: Global, k: &Prime, rows: [&[u64]; 2], want: &[&[u64]]) -> Result<bool, Fail> {
    let space = space(alloc, k, rows)?;
    Ok(space.dim() == want.len() && space.len() == 2 && has_basis(k, &space, want))
}

/// Whether the multiples of a vector contain another.
fn contains(alloc: Global, k: &Prime, row: &[u64], v: [u64; 2]) -> Result<bool, Fail> {
    let space = line(alloc, k, row)?;
    let v = elements(alloc, k, &v)?;
    Ok(space.contains(k, &v))
}

/// Whether two vectors, put in one after the other, give this basis.
fn insertion_is(
    alloc: Global,
    k: &Prime,
    rows: [[u64; 2]; 2],
    want: &[&[u64]],
) -> Result<bool, Fail> {
    let first = elements(alloc, k, &rows[0])?;
    let one = Space::zero(alloc, 2).insert(alloc, k, first)?;
    let second = elements(alloc, k, &rows[1])?;
    let both = one.insert(alloc, k, second)?;
    Ok(has_basis(k, &both, want))
}

/// Whether two vectors have the same multiples.
fn are_same(alloc: Global, k: &Prime, a: &[u64], b: &[u64]) -> Result<bool, Fail> {
    let a = line(alloc, k, a)?;
    let b = line(alloc, k, b)?;
    Ok(a.is_same(k, &b))
}

/// The dimension of the intersection of two lines.
fn meet_dim(alloc: Global, k: &Prime, a: &[u64], b: &[u64]) -> Result<usize, Fail> {
    let b = line(alloc, k, b)?;
    let meet = line(alloc, k, a)?.meet(alloc, k, &b)?;
    Ok(meet.dim())
}

/// The dimension of the sum of two lines.
fn sum_dim(alloc: Global, k: &Prime, a: &[u64], b: &[u64]) -> Result<usize, Fail> {
    let b = line(alloc, k, b)?;
    let sum = line(alloc, k, a)?.sum(alloc, k, &b)?;
    Ok(sum.dim())
}

/// Whether the preimage of a line under these images has this basis.
fn preimage_is(
    alloc: Global,
    k: &Prime,
    row: &[u64],
    images: &[&[u64]],
    want: &[&[u64]],
) -> Result<bool, Fail> {
    let line = line(alloc, k, row)?;
    let images = vectors(alloc, k, 2, images)?;
    let preimage = line.preimage(alloc, k, &images)?;
    Ok(has_basis(k, &preimage, want))
}

/// Whether the semilinear preimage of a line under these images has this basis.
fn semi_preimage_is(
    alloc: Global,
    k: &Prime,
    row: &[u64],
    images: &[&[u64]],
    want: &[&[u64]],
) -> Result<bool, Fail> {
    let line = line(alloc, k, row)?;
    let images = vectors(alloc, k, 2, images)?;
    let preimage = line.semi_preimage(alloc, k, &images)?;
    Ok(has_basis(k, &preimage, want))
}

/// Whether the roots of a line have this basis.
fn roots_are(alloc: Global, k: &Prime, row: &[u64], want: &[&[u64]]) -> Result<bool, Fail> {
    let roots = line(alloc, k, row)?.roots(alloc, k)?;
    Ok(has_basis(k, &roots, want))
}

/// Whether the kernel of a row of length two has this basis.
fn kernel_is(alloc: Global, k: &Prime, row: &[u64], want: &[&[u64]]) -> Result<bool, Fail> {
    let rows = vectors(alloc, k, 2, &[row])?;
    let kernel = Space::kernel(alloc, k, 2, &rows)?;
    Ok(has_basis(k, &kernel, want))
}

/// Whether the linear relations of these vectors of length one have this basis.
fn relations_are(
    alloc: Global,
    k: &Prime,
    images: &[&[u64]],
    want: &[&[u64]],
) -> Result<bool, Fail> {
    let images = vectors(alloc, k, 1, images)?;
    let relations = Space::relations(alloc, k, 1, &images)?;
    Ok(has_basis(k, &relations, want))
}

/// Whether the semilinear relations of these vectors of length one have this basis.
fn semi_kernel_is(
    alloc: Global,
    k: &Prime,
    images: &[&[u64]],
    want: &[&[u64]],
) -> Result<bool, Fail> {
    let images = vectors(alloc, k, 1, images)?;
    let kernel = Space::semi_kernel(alloc, k, 1, &images)?;
    Ok(has_basis(k, &kernel, want))
}

/// Whether the equations with these columns have this solution, or none.
fn solution_is(
    alloc: Global,
    k: &Prime,
    cols: &[&[u64]],
    rhs: [u64; 2],
    want: Option<&[u64]>,
) -> Result<bool, Fail> {
    let cols = vectors(alloc, k, 2, cols)?;
    let rhs = elements(alloc, k, &rhs)?;
    match (solve(alloc, k, 2, &cols, &rhs)?, want) {
        (Some(found), Some(want)) => Ok(has_entries(k, &found, want)),
        (None, None) => Ok(true),
        _ => Ok(false),
    }
}

#[test]
fn spans(rt: HostRuntime) -> Result<(), Fail> {
    let k = field(3)?;
    assert!(rt; span_is(rt.alloc(), &k, [&[1, 2], &[2, 1]], &[&[1, 2]])?);
    assert!(rt; contains(rt.alloc(), &k, &[1, 2], [2, 1])?);
    assert!(rt; !contains(rt.alloc(), &k, &[1, 2], [1, 0])?);
    assert!(rt; insertion_is(rt.alloc(), &k, [[0, 2], [0, 1]], &[&[0, 1]])?);
    assert!(rt; insertion_is(rt.alloc(), &k, [[0, 2], [2, 1]], &[&[1, 0], &[0, 1]])?);
    Ok(())
}

#[test]
fn two_spaces(rt: HostRuntime) -> Result<(), Fail> {
    let k = field(3)?;
    assert!(rt; are_same(rt.alloc(), &k, &[1, 2], &[2, 1])?);
    assert!(rt; !are_same(rt.alloc(), &k, &[1, 2], &[1, 1])?);
    assert_eq!(rt; meet_dim(rt.alloc(), &k, &[1, 0], &[1, 1])?, 0);
    assert_eq!(rt; sum_dim(rt.alloc(), &k, &[1, 0], &[1, 1])?, 2);
    Ok(())
}

#[test]
fn preimages(rt: HostRuntime) -> Result<(), Fail> {
    let k = field(3)?;
    assert!(rt; preimage_is(rt.alloc(), &k, &[1, 0], &[&[1, 0], &[0, 1]], &[&[1, 0]])?);
    assert!(rt; semi_preimage_is(rt.alloc(), &k, &[1, 0], &[&[1, 0], &[0, 1]], &[&[1, 0]])?);
    assert!(rt; roots_are(rt.alloc(), &k, &[1, 1], &[&[1, 1]])?);
    Ok(())
}

#[test]
fn kernels(rt: HostRuntime) -> Result<(), Fail> {
    let k = field(3)?;
    assert!(rt; kernel_is(rt.alloc(), &k, &[1, 2], &[&[1, 1]])?);
    assert!(rt; relations_are(rt.alloc(), &k, &[&[1], &[2]], &[&[1, 1]])?);
    assert!(rt; semi_kernel_is(rt.alloc(), &k, &[&[1], &[2]], &[&[1, 1]])?);
    Ok(())
}

#[test]
fn solutions(rt: HostRuntime) -> Result<(), Fail> {
    let k = field(3)?;
    assert!(rt; solution_is(rt.alloc(), &k, &[&[1, 0], &[1, 1]], [0, 1], Some(&[2, 1]))?);
    assert!(rt; solution_is(rt.alloc(), &k, &[&[1, 0]], [0, 1], None)?);
    Ok(())
}
