// The answers that refusals of equations are.
ghost use Rattle.std.specs.Prelude.{◌≡◌, ◌≢◌, IfOk};
ghost use Rattle.ff_text.specs.Refusals.{HasLine, refusal_text};
ghost use Rattle.ff_top.specs.Refusals.{status_of_refusal};

use crate::Status;
use crate::input::Answer;
use ff_alg::NoMemory;
use ff_data::Refusal;
use ff_text::print_refusal;
use std::alloc::Global;

/// The answer that a refusal is. Where memory ran out there is none.
pub fn refuse(alloc: Global, refusal: &Refusal) -> Result<Answer, NoMemory>
    requires { refusal.now ≢ Refusal.NoMemory → HasLine refusal.now }
    ensures line { IfOk result (λ _. HasLine refusal.now) }
    ensures status { IfOk result (λ a. a.status ≡ status_of_refusal refusal.now) }
    ensures text { IfOk result (λ a. a.text.items ≡ refusal_text refusal.now) }
{
    match refusal {
        Refusal::NoMemory => Err(NoMemory),
        Refusal::PoleLimit => line_of(alloc, Status::Limit, refusal),
        Refusal::Inseparable { which: _ } => line_of(alloc, Status::Premise, refusal),
        Refusal::Reducible {
            which: _,
            g: _,
            h: _,
        } => line_of(alloc, Status::Premise, refusal),
        Refusal::NoRationalPlace {
            finite: _,
            infinite: _,
        } => line_of(alloc, Status::Premise, refusal),
        Refusal::SmallGenus { system: _ } => line_of(alloc, Status::Premise, refusal),
    }
}

// The line of a refusal, with this status.
fn line_of(alloc: Global, status: Status, refusal: &Refusal) -> Result<Answer, NoMemory>
    requires { HasLine refusal.now }
    ensures status { IfOk result (λ a. a.status ≡ status) }
    ensures text { IfOk result (λ a. a.text.items ≡ refusal_text refusal.now) }
{
    let text = print_refusal(alloc, refusal)?;
    Ok(Answer { status, text })
}
