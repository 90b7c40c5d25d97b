// The least pole numbers in their classes modulo the first.
ghost use Rattle.std.specs.Prelude.{◌≡◌, ℕ, ◌+◌, ◌%◌, ◌<◌, ◌≤◌, length, get_or, IfOk, IfSome};
ghost use Rattle.std.specs.Prelude.{IsTrue, Bool, true, false, pred};
ghost use Rattle.ff_lin.specs.Space.{SpaceParts};
ghost use Rattle.ff_functions.specs.Searches.{IsVerdict, IsDecided, AreNumbers};
ghost use Rattle.ff_functions.specs.Searches.{HasNumber, AgreesAt};
ghost use Rattle.std.specs.List.{All};
ghost use Rattle.ff_theory.specs.Ring.{Elements};
ghost use Rattle.ff_theory.specs.Vector.{IsVector};
ghost use Rattle.ff_functions.specs.Searches.{HasWeights, HasClass, IsComplete, IsNumber};

use ff_alg::{FiniteField, NoMemory};
use ff_data::System;

/// A positive pole number j, and the coefficients of a combination with a pole of order j.
#[derive(Drop)]
pub struct PoleNumber {
    pub j: u32,
    pub relation: Vec<u32>,
}

/// The index of the first number that is i modulo e, and the length where there is none.
pub(crate) fn class_index(numbers: &[PoleNumber], e: u32, i: u32) -> usize
    requires { 0 < e }
    ensures within { result ≤ length numbers.now }
    ensures found { HasClass numbers.now e i → result < length numbers.now }
    ensures class { result < length numbers.now → HasClass numbers.now e i }
    ensures own { result < length numbers.now → (d : PoleNumber) →
        (get_or numbers.now result d).j % e ≡ i }
{
    for t in 0..numbers.len() {
        if numbers[t].j % e == i {
            return t;
        }
    }
    numbers.len()
}

/// Whether each class modulo the first number has one.
pub(crate) fn is_complete(numbers: &[PoleNumber]) -> bool
    requires { All (λ p. 0 < p.j) numbers.now }
    ensures yes { IsTrue result → IsComplete numbers.now }
    ensures no { result ≡ false → ¬ IsComplete numbers.now }
{
    if numbers.len() == 0 {
        return false;
    }
    let e = numbers[0].j;
    for i in 0..e {
        if class_index(numbers, e, i) == numbers.len() {
            return false;
        }
    }
    true
}

/// Whether j is the first in its class modulo the first number.
fn is_first(numbers: &[PoleNumber], j: u32) -> bool
    requires { All (λ p. 0 < p.j) numbers.now }
    ensures yes { result ≡ true → 0 < length numbers.now → (d : PoleNumber) →
        let e = (get_or numbers.now 0 d).j in ¬ (HasClass numbers.now e (j % e)) }
    ensures some { result ≡ false → 0 < length numbers.now }
    ensures no { result ≡ false → (d : PoleNumber) →
        let e = (get_or numbers.now 0 d).j in HasClass numbers.now e (j % e) }
{
    if numbers.len() == 0 {
        return true;
    }
    let e = numbers[0].j;
    class_index(numbers, e, j % e) == numbers.len()
}

/// The numbers, and j where there is a relation and j is the first in its class; and whether there
/// is a relation.
pub(crate) fn with_relation<K: FiniteField<E = u32>>(
    k: &K,
    numbers: Vec<PoleNumber>,
    c: usize,
    j: u32,
    relation: Option<Vec<u32>>,
) -> Result<(Vec<PoleNumber>, bool), NoMemory>
    requires numbers { All (IsNumber (K.elements k.now) c j) numbers.items }
    requires positive { 0 < j }
    requires relation { let F = K.elements k.now in
        IfSome relation (λ r. IsVector F (c + j) r.items) }
    ensures form { let F = K.elements k.now in
        IfOk result (λ r. All (IsNumber F c j) r.0.items) }
    ensures numbers { let F = K.elements k.now in
        IfOk result (λ r. (t : SpaceParts) (images : ℕ → ℕ → F.carrier) →
        IsVerdict F t c images j relation → AreNumbers F t c images (pred j) numbers.items →
        AreNumbers F t c images j r.0.items) }
    ensures decided { let F = K.elements k.now in
        IfOk result (λ r. (t : SpaceParts) (images : ℕ → ℕ → F.carrier) →
        IsVerdict F t c images j relation → IsDecided F t c images j r.1) }
{
    let _field = k;
    let _count = c;
    match relation {
        None => Ok((numbers, false)),
        Some(relation) => {
            let mut numbers = numbers;
            if is_first(&numbers, j) {
                numbers.push(PoleNumber { j, relation })?;
            }
            Ok((numbers, true))
        },
    }
}

/// Whether j is a pole number of the system.
fn has_number(s: &System, j: u32) -> bool
    requires positive { 0 < s.now.e }
    requires count { length s.now.weights ≡ s.now.e }
    ensures yes { result ≡ true → HasNumber s.now j }
    ensures no { result ≡ false → ¬ HasNumber s.now j }
{
    let i = (j % s.e) as usize;
    s.weights.items[i] <= j
}

/// Whether j is a pole number of the system exactly where `is_number` says so; true where there is
/// no system.
pub(crate) fn agrees(like: Option<&System>, j: u32, is_number: bool) -> bool
    requires { IfSome like (λ s. HasWeights s.now) }
    ensures { result ≡ false → ¬ (IfSome like.entry (λ s. AgreesAt s.now j is_number)) }
{
    match like {
        None => true,
        Some(s) => has_number(s, j) == is_number,
    }
}
