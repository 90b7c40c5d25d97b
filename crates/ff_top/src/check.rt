// The verdict of `check` on the pairs of a job.
ghost use Rattle.std.specs.Prelude.{◌≡◌, ◌+◌, length, IfOk};
ghost use Rattle.std.specs.List.{All};
ghost use Rattle.ff_theory.specs.PrimeTable.{prime_elements};
ghost use Rattle.ff_prime.specs.Number.{number_of};
ghost use Rattle.ff_data.specs.Pairs.{IsPair};
ghost use Rattle.ff_top.specs.Check.{IsFraction, IsPairOf, IsSound, IsVerdict, TestsBack};
ghost use Rattle.ff_top.specs.Check.{TestsPairs, verdict_text};
ghost use Rattle.ff_top.specs.Input.{RisesOnceAtMost};

use crate::Status;
use crate::input::Answer;
use ff_alg::{NoMemory, Ring, Steps};
use ff_data::Pair;
use ff_elem::Alg;
use ff_prime::Prime;
use ff_subst::is_inverse;
use ff_text::{Job, RawElem};
use std::alloc::Global;
use std::sync::ledger::Ledger;

/// The verdict on the pairs of a job. It ticks `tests` once. `NoMemory` is the only error.
pub fn judge<L: Ledger>(alloc: Global, job: &Job, tests: &mut Steps<L>) -> Result<Answer, NoMemory>
    requires { IsSound job.now }
    ensures status { IfOk result (λ a. a.status ≡ Status.Done) }
    ensures verdict { IfOk result (λ a. IsVerdict job.now a.text.items) }
    ensures ticked { IfOk result (λ _. tests.new ≡ tests.old + 1) }
    ensures tests { RisesOnceAtMost tests.old tests.new }
{
    let first = Alg::new(alloc, job.prime, &job.first)?;
    let second = Alg::new(alloc, job.prime, &job.second)?;
    let inverse = are_inverse(alloc, &first, &second, &job.elems, tests)?;
    write_verdict(alloc, inverse)
}

// Whether the fractions X, Y, U and V are a satisfying pair and its inverse pair.
fn are_inverse<L: Ledger>(
    alloc: Global,
    first: &Alg<Prime>,
    second: &Alg<Prime>,
    elems: &[RawElem],
    tests: &mut Steps<L>,
) -> Result<bool, NoMemory>
    requires field { first.now.k ≡ second.now.k }
    requires four { length elems.now ≡ 4 }
    requires fractions { let F = prime_elements (number_of second.now.k) in
        All (IsFraction F) elems.now }
    ensures answer { let L = ⟦<Prime as Ring>⟧.lawful second.now.k in
        IfOk result (TestsPairs L first.now.f second.now.f elems.now) }
    ensures ticked { IfOk result (λ _. tests.new ≡ tests.old + 1) }
    ensures tests { RisesOnceAtMost tests.old tests.new }
{
    let pair = pair_of(alloc, second, &elems[0], &elems[1])?;
    are_back(alloc, first, second, &pair, &elems[2], &elems[3], tests)
}

// Whether the fractions U and V are the inverse pair of a pair.
fn are_back<L: Ledger>(
    alloc: Global,
    first: &Alg<Prime>,
    second: &Alg<Prime>,
    pair: &Pair,
    u: &RawElem,
    v: &RawElem,
    tests: &mut Steps<L>,
) -> Result<bool, NoMemory>
    requires field { first.now.k ≡ second.now.k }
    requires pair { let L = ⟦<Prime as Ring>⟧.lawful second.now.k in
        IsPair L second.now.f pair.now }
    requires u { IsFraction (prime_elements (number_of second.now.k)) u.now }
    requires v { IsFraction (prime_elements (number_of second.now.k)) v.now }
    ensures answer { let L = ⟦<Prime as Ring>⟧.lawful second.now.k in
        IfOk result (TestsBack L first.now.f second.now.f u.now v.now pair.now) }
    ensures ticked { IfOk result (λ _. tests.new ≡ tests.old + 1) }
    ensures tests { RisesOnceAtMost tests.old tests.new }
{
    let back = pair_of(alloc, first, u, v)?;
    is_inverse(alloc, first, second, pair, &back, tests)
}

// The pair of an algebra that two fractions are.
fn pair_of(alloc: Global, alg: &Alg<Prime>, x: &RawElem, y: &RawElem) -> Result<Pair, NoMemory>
    requires x { IsFraction (prime_elements (number_of alg.now.k)) x.now }
    requires y { IsFraction (prime_elements (number_of alg.now.k)) y.now }
    ensures { let L = ⟦<Prime as Ring>⟧.lawful alg.now.k in
        IfOk result (IsPairOf L alg.now.f x.now y.now) }
{
    let x = alg.from_parts(alloc, &x.num, &x.den)?;
    let y = alg.from_parts(alloc, &y.num, &y.den)?;
    Ok(Pair { x, y })
}

// The answer that a verdict is.
fn write_verdict(alloc: Global, inverse: bool) -> Result<Answer, NoMemory>
    ensures status { IfOk result (λ a. a.status ≡ Status.Done) }
    ensures text { IfOk result (λ a. a.text.items ≡ verdict_text inverse) }
{
    let text = if inverse { "yes\n" } else { "no\n" };
    Ok(Answer {
        status: Status::Done,
        text: text.as_bytes().to_vec(alloc)?,
    })
}
