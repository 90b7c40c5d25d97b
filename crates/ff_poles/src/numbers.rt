// Pole numbers, by the dimensions of the spaces L_0, L_1, ..
ghost use Rattle.ff_poles.specs.Spaces.{RisesAt, IsLeastIndex, AreLeastIndices, HasNoIndex};
ghost use Rattle.std.specs.Prelude.{ℕ, ◌↔◌, IsTrue, IfNone, ◌≡◌, ◌<◌, ◌≤◌, length, IfOk, IfSome};
ghost use Rattle.std.specs.List.{All};

use ff_alg::NoMemory;
use ff_data::RRSpace;
use std::alloc::Global;

/// Whether j is positive and the dimension rises at L_j.
fn rises(spaces: &[RRSpace], j: usize) -> bool
    requires index { j < length spaces.now }
    ensures { IsTrue result ↔ RisesAt spaces.now j }
{
    if j == 0 {
        return false;
    }
    let lower = &spaces[j - 1];
    let upper = &spaces[j];
    lower.basis.items.len() < upper.basis.items.len()
}

/// The least positive pole number, and the number of spaces where there is none.
pub fn first_number(spaces: &[RRSpace]) -> usize
    ensures within { result ≤ length spaces.now }
    ensures rises { result < length spaces.now → RisesAt spaces.now result }
    ensures least { (j : ℕ) → j < result → ¬ RisesAt spaces.now j }
{
    for j in 0..spaces.len() {
        if rises(spaces, j) {
            return j;
        }
    }
    spaces.len()
}

/// The least pole number with remainder i modulo e, and the number of spaces where there is none.
fn least_number(spaces: &[RRSpace], e: usize, i: usize) -> usize
    requires positive { 0 < e }
    ensures { IsLeastIndex spaces.now e i result }
{
    if i == 0 {
        return 0;
    }
    for j in 0..spaces.len() {
        if j % e == i && rises(spaces, j) {
            return j;
        }
    }
    spaces.len()
}

/// For each class modulo e the least pole number; None where one has none.
pub fn least_numbers(
    alloc: Global,
    spaces: &[RRSpace],
    e: usize,
) -> Result<Option<Vec<usize>>, NoMemory>
    requires positive { 0 < e }
    ensures count { IfOk result (λ o. IfSome o (λ v. length v.items ≡ e)) }
    ensures within { IfOk result (λ o. IfSome o
        (λ v. All (λ m. m < length spaces.now) v.items)) }
    ensures least { IfOk result (λ o. IfSome o
        (λ v. AreLeastIndices spaces.now e e v.items)) }
    ensures none { IfOk result (λ o. IfNone o (HasNoIndex spaces.now e)) }
{
    let mut numbers = Vec::with_capacity(alloc, e)?;
    for i in 0..e {
        let m = least_number(spaces, e, i);
        if m >= spaces.len() {
            return Ok(None);
        }
        numbers.push(m)?;
    }
    Ok(Some(numbers))
}
