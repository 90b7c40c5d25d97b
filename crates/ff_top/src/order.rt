// The answer of `order` to a job: both maximal orders of its equation, or why there is none.
ghost use Rattle.std.specs.Prelude.{◌≡◌, IfOk};
ghost use Rattle.ff_data.specs.Orders.{IsSep};
ghost use Rattle.ff_text.specs.Lists.{order_text};
ghost use Rattle.ff_text.specs.Values.{HasEquations};
ghost use Rattle.ff_top.specs.Order.{IsAnswered, IsListOf, IsOrderAnswer, IsOrderText};

use crate::Status;
use crate::input::Answer;
use crate::refusal::refuse;
use ff_alg::{NoMemory, Ring};
use ff_basis::order_basis;
use ff_data::{Chart, Refusal, Sep};
use ff_elem::{Alg, Elem};
use ff_order::maximal;
use ff_prime::Prime;
use ff_sep::{SepFault, separate};
use ff_text::{Job, print_order};
use std::alloc::Global;

/// The lists of both maximal orders of the equation of a job (Stichtenoth, *Algebraic Function
/// Fields and Codes*, section 3.2), or the refusal of one that is not separable in y. `NoMemory` is
/// the only error.
pub fn judge(alloc: Global, job: &Job) -> Result<Answer, NoMemory>
    requires { HasEquations job.now }
    ensures { IfOk result (λ a. IsAnswered job.now a.status a.text.items) }
{
    let alg = Alg::new(alloc, job.prime, &job.first)?;
    answer_in(alloc, &alg)
}

// The answer for the equation of an algebra.
fn answer_in(alloc: Global, alg: &Alg<Prime>) -> Result<Answer, NoMemory>
    ensures { let L = ⟦<Prime as Ring>⟧.lawful alg.now.k in
        IfOk result (λ a. IsOrderAnswer L alg.now.f a.status a.text.items) }
{
    match separate(alloc, alg) {
        Ok(sep) => list_orders(alloc, alg, &sep),
        Err(SepFault::Inseparable) => refuse(alloc, &Refusal::Inseparable { which: 1 }),
        Err(SepFault::Square { g, h }) => refuse(alloc, &Refusal::Reducible { which: 1, g, h }),
        Err(SepFault::NoMemory) => Err(NoMemory),
    }
}

// The answer that the lists of both maximal orders are.
fn list_orders(alloc: Global, alg: &Alg<Prime>, sep: &Sep) -> Result<Answer, NoMemory>
    requires { let L = ⟦<Prime as Ring>⟧.lawful alg.now.k in IsSep L alg.now.f sep.now }
    ensures status { IfOk result (λ a. a.status ≡ Status.Done) }
    ensures text { let L = ⟦<Prime as Ring>⟧.lawful alg.now.k in
        IfOk result (λ a. IsOrderText L alg.now.f a.text.items) }
{
    let finite = list_of(alloc, alg, sep, Chart::Finite)?;
    let infinite = list_of(alloc, alg, sep, Chart::Infinite)?;
    write_orders(alloc, &finite, &infinite)
}

// The answer that two lists are.
fn write_orders(alloc: Global, finite: &[Elem], infinite: &[Elem]) -> Result<Answer, NoMemory>
    ensures status { IfOk result (λ a. a.status ≡ Status.Done) }
    ensures text { IfOk result (λ a. a.text.items ≡ order_text finite.now infinite.now) }
{
    let text = print_order(alloc, finite, infinite)?;
    Ok(Answer {
        status: Status::Done,
        text,
    })
}

// The list of the maximal order of a chart.
fn list_of(alloc: Global, alg: &Alg<Prime>, sep: &Sep, chart: Chart) -> Result<Vec<Elem>, NoMemory>
    requires { let L = ⟦<Prime as Ring>⟧.lawful alg.now.k in IsSep L alg.now.f sep.now }
    ensures { let L = ⟦<Prime as Ring>⟧.lawful alg.now.k in
        IfOk result (λ r. IsListOf L alg.now.f chart r.items) }
{
    let order = maximal(alloc, alg, sep, chart)?;
    order_basis(alloc, alg, &order)
}
