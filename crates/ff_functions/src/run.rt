// The least functions of a point.
ghost use Rattle.std.specs.Prelude.{◌≡◌, ℕ, ◌+◌, ◌*◌, ◌<◌, ◌≤◌, pred, length, IfOk, IfSome};
ghost use Rattle.ff_data.specs.declared.order.Chart.TheVariants.{Finite, Infinite};
ghost use Rattle.ff_data.specs.Orders.{y_degree, IsOrder};
ghost use Rattle.ff_forms.specs.Forms.{HasPointForm, HasFunctionsForm, AreAlike};
ghost use Rattle.ff_forms.specs.declared.functions.TheConstants.{POLE_LIMIT};
ghost use Rattle.ff_systems.specs.Places.{IsPlace};
ghost use Rattle.ff_functions.specs.Searches.{HasWeights, HasFrameForm, HasSearchForm};
ghost use Rattle.ff_functions.specs.Searches.{IsOutcome, IsBegun};
ghost use Rattle.ff_functions.specs.Answers.{IsAnswer, IsAnswerOf, IsAnswerAt};
ghost use Rattle.ff_functions.specs.Answers.{AreFunctionsAt};

use crate::answer::Answer;
use crate::assembly::assembled;
use crate::frame::Frame;
use crate::search::{Outcome, Search, Trail};
use ff_alg::{FiniteField, NoMemory};
use ff_data::{Chart, Order, Point, System};
use ff_elem::Alg;
use ff_forms::{Functions, POLE_LIMIT};
use ff_frac::Powers;
use std::alloc::Global;

/// The order of the pole at infinity up to which elements of the finite order are combined.
fn reach(chart: Chart, infinite: &Order, bound: u32) -> Result<usize, NoMemory>
    requires { 0 < length infinite.now.d }
    ensures least { IfOk result (λ m. pred (length infinite.now.d) ≤ m) }
    ensures room { chart ≡ Infinite →
        IfOk result (λ m. pred (length infinite.now.d) + bound ≤ m) }
{
    let m = infinite.d.coeffs().len() - 1;
    match chart {
        Chart::Finite => Ok(m),
        Chart::Infinite => match m.checked_add(bound as usize) {
            Some(sum) => Ok(sum),
            None => Err(NoMemory),
        },
    }
}

/// The search before the first pole order.
fn first_search<K: FiniteField<E = u32>>(
    alloc: Global,
    alg: &Alg<K>,
    order: &Order,
    finite: &Order,
    infinite: &Order,
    point: &Point,
    frame: &Frame,
) -> Result<Search, NoMemory>
    requires order { IsOrder (K.lawful alg.now.k) alg.now.f order.now }
    requires finite { IsOrder (K.lawful alg.now.k) alg.now.f finite.now }
    requires infinite { IsOrder (K.lawful alg.now.k) alg.now.f infinite.now }
    requires point { HasPointForm (K.elements alg.now.k) order.now point.now }
    requires frame { HasFrameForm (K.lawful alg.now.k) alg.now.f frame.now }
    requires room { pred (length infinite.now.d) ≤ frame.now.h }
    ensures form { let L = K.lawful alg.now.k in let n = y_degree L alg.now.f in IfOk result
        (HasSearchForm L alg.now.f order.now (n * frame.now.h)
        (length frame.now.numerators.items) 1 0) }
    ensures begun { let L = K.lawful alg.now.k in let d = finite.now.d in
        IfOk result (IsBegun L alg.now.f order.now point.now frame.now d infinite.now) }
{
    let echelon = frame.start(alloc, alg, &finite.d, infinite)?;
    let powers = Powers::start(alloc, alg, order, point)?;
    let trail = Trail {
        powers,
        passed: Vec::new(alloc),
    };
    Ok(Search {
        echelon,
        trail,
        numbers: Vec::new(alloc),
    })
}

/// The functions of an outcome of a search at a point of the order.
fn answer<K: FiniteField<E = u32>>(
    alloc: Global,
    alg: &Alg<K>,
    order: &Order,
    finite: &Order,
    frame: &Frame,
    outcome: &Outcome,
) -> Result<Answer, NoMemory>
    requires order { IsOrder (K.lawful alg.now.k) alg.now.f finite.now }
    requires own { order.now.chart ≡ Finite → order.now ≡ finite.now }
    requires frame { HasFrameForm (K.lawful alg.now.k) alg.now.f frame.now }
    requires outcome { let L = K.lawful alg.now.k in IsOutcome L alg.now.f order.now
        (length frame.now.numerators.items) outcome.now }
    ensures form { IfOk result (IsAnswer (K.lawful alg.now.k) alg.now.f) }
    ensures exact { let L = K.lawful alg.now.k in IfOk result (IsAnswerOf L alg.now.f
        order.now.chart finite.now.d frame.now outcome.now) }
{
    match outcome {
        Outcome::Differs => Ok(Answer::Differs),
        Outcome::Short => Ok(Answer::Short),
        Outcome::Complete(search) => {
            let functions = assembled(alloc, alg, order, finite, frame, search)?;
            Ok(Answer::Found(functions))
        },
    }
}

/// The search at a point of the order, one of the finite and the infinite one, up to a bound.
fn search_within<K: FiniteField<E = u32>>(
    alloc: Global,
    alg: &Alg<K>,
    order: &Order,
    finite: &Order,
    infinite: &Order,
    point: &Point,
    like: Option<&System>,
    bound: u32,
) -> Result<Answer, NoMemory>
    requires order { IsOrder (K.lawful alg.now.k) alg.now.f order.now }
    requires finite { IsOrder (K.lawful alg.now.k) alg.now.f finite.now }
    requires infinite { IsOrder (K.lawful alg.now.k) alg.now.f infinite.now }
    requires own { order.now.chart ≡ Finite → order.now ≡ finite.now }
    requires own_infinite { order.now.chart ≡ Infinite → order.now ≡ infinite.now }
    requires point { HasPointForm (K.elements alg.now.k) order.now point.now }
    requires like { IfSome like (λ s. HasWeights s.now) }
    requires bound { bound ≤ POLE_LIMIT }
    ensures form { IfOk result (IsAnswer (K.lawful alg.now.k) alg.now.f) }
    ensures at_finite { let L = K.lawful alg.now.k in let f = alg.now.f in let o = order.now in
        let p = point.now in
        let alike = λ (s : System). IfSome like.entry (λ t. AreAlike s t.now) in
        o.chart ≡ Finite → IsPlace L f o p infinite.now →
        IfOk result (IsAnswerAt L f o p infinite.now alike bound) }
    ensures at_infinity { let L = K.lawful alg.now.k in let f = alg.now.f in let o = order.now in
        let p = point.now in
        let alike = λ (s : System). IfSome like.entry (λ t. AreAlike s t.now) in
        o.chart ≡ Infinite → IsPlace L f o p finite.now →
        IfOk result (IsAnswerAt L f o p finite.now alike bound) }
{
    let m = reach(order.chart, infinite, bound)?;
    let frame = Frame::new(alloc, alg, finite, m)?;
    let search = first_search(alloc, alg, order, finite, infinite, point, &frame)?;
    let outcome = search.run(alloc, alg, order, &frame, like, bound)?;
    answer(alloc, alg, order, finite, &frame, &outcome)
}

/// The greatest weight up to the limit, and 16 where all are less.
fn first_bound(like: Option<&System>) -> u32
    ensures positive { 0 < result }
    ensures within { result ≤ POLE_LIMIT }
{
    let mut bound = 16;
    if let Some(s) = like {
        for m in &s.weights.items {
            bound = bound.max(*m);
        }
    }
    bound.min(POLE_LIMIT)
}

/// The least functions of a point of an order up to the limit.
fn search_at_limit<K: FiniteField<E = u32>>(
    alloc: Global,
    alg: &Alg<K>,
    order: &Order,
    finite: &Order,
    infinite: &Order,
    point: &Point,
    like: Option<&System>,
) -> Result<Option<Functions>, NoMemory>
    requires order { IsOrder (K.lawful alg.now.k) alg.now.f order.now }
    requires finite { IsOrder (K.lawful alg.now.k) alg.now.f finite.now }
    requires infinite { IsOrder (K.lawful alg.now.k) alg.now.f infinite.now }
    requires own { order.now.chart ≡ Finite → order.now ≡ finite.now }
    requires own_infinite { order.now.chart ≡ Infinite → order.now ≡ infinite.now }
    requires point { HasPointForm (K.elements alg.now.k) order.now point.now }
    requires like { IfSome like (λ s. HasWeights s.now) }
    ensures form { let L = K.lawful alg.now.k in
        IfOk result (λ o. IfSome o (HasFunctionsForm L alg.now.f)) }
    ensures at_finite { let L = K.lawful alg.now.k in let f = alg.now.f in let o = order.now in
        let p = point.now in
        let alike = λ (s : System). IfSome like.entry (λ t. AreAlike s t.now) in
        o.chart ≡ Finite → IsPlace L f o p infinite.now →
        IfOk result (AreFunctionsAt L f o p infinite.now alike POLE_LIMIT) }
    ensures at_infinity { let L = K.lawful alg.now.k in let f = alg.now.f in let o = order.now in
        let p = point.now in
        let alike = λ (s : System). IfSome like.entry (λ t. AreAlike s t.now) in
        o.chart ≡ Infinite → IsPlace L f o p finite.now →
        IfOk result (AreFunctionsAt L f o p finite.now alike POLE_LIMIT) }
{
    match search_within(alloc, alg, order, finite, infinite, point, like, POLE_LIMIT)? {
        Answer::Found(functions) => Ok(Some(functions)),
        Answer::Differs => Ok(None),
        Answer::Short => Ok(None),
    }
}

/// The search at a point of the infinite order, up to bounds that double.
fn search_at_infinity<K: FiniteField<E = u32>>(
    alloc: Global,
    alg: &Alg<K>,
    order: &Order,
    other: &Order,
    point: &Point,
    like: Option<&System>,
) -> Result<Option<Functions>, NoMemory>
    requires order { IsOrder (K.lawful alg.now.k) alg.now.f order.now }
    requires other { IsOrder (K.lawful alg.now.k) alg.now.f other.now }
    requires chart { order.now.chart ≡ Infinite }
    requires point { HasPointForm (K.elements alg.now.k) order.now point.now }
    requires like { IfSome like (λ s. HasWeights s.now) }
    ensures form { let L = K.lawful alg.now.k in
        IfOk result (λ o. IfSome o (HasFunctionsForm L alg.now.f)) }
    ensures exact { let L = K.lawful alg.now.k in let f = alg.now.f in let o = order.now in
        let p = point.now in
        let alike = λ (s : System). IfSome like.entry (λ t. AreAlike s t.now) in
        IsPlace L f o p other.now →
        IfOk result (AreFunctionsAt L f o p other.now alike POLE_LIMIT) }
{
    let mut bound = first_bound(like);
    while bound < POLE_LIMIT {
        match search_within(alloc, alg, order, other, order, point, like, bound)? {
            Answer::Found(functions) => return Ok(Some(functions)),
            Answer::Differs => return Ok(None),
            Answer::Short => bound = (bound * 2).min(POLE_LIMIT),
        }
    }
    search_at_limit(alloc, alg, order, other, order, point, like)
}

/// The least functions of a point of an order, where `other` is the order of the other chart: z has
/// a pole of the least positive order e at the point and no other pole, and b_i one of the least
/// order in its class modulo e. None comes where e or the order of a b_i is above `POLE_LIMIT`, and
/// where e or the orders are not those of the system `like`, if there is one. `NoMemory` is the
/// only error. One elimination, this project's own.
pub fn functions_at<K: FiniteField<E = u32>>(
    alloc: Global,
    alg: &Alg<K>,
    order: &Order,
    other: &Order,
    point: &Point,
    like: Option<&System>,
) -> Result<Option<Functions>, NoMemory>
    requires order { IsOrder (K.lawful alg.now.k) alg.now.f order.now }
    requires other { IsOrder (K.lawful alg.now.k) alg.now.f other.now }
    requires charts { ¬ (other.now.chart ≡ order.now.chart) }
    requires point { HasPointForm (K.elements alg.now.k) order.now point.now }
    requires like { IfSome like (λ s. HasWeights s.now) }
    ensures form { let L = K.lawful alg.now.k in
        IfOk result (λ o. IfSome o (HasFunctionsForm L alg.now.f)) }
    ensures exact { let L = K.lawful alg.now.k in let f = alg.now.f in let o = order.now in
        let p = point.now in
        let alike = λ (s : System). IfSome like.entry (λ t. AreAlike s t.now) in
        IsPlace L f o p other.now →
        IfOk result (AreFunctionsAt L f o p other.now alike POLE_LIMIT) }
{
    match order.chart {
        Chart::Infinite => search_at_infinity(alloc, alg, order, other, point, like),
        Chart::Finite => search_at_limit(alloc, alg, order, order, other, point, like),
    }
}
