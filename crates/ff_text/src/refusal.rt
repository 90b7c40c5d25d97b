// The printed texts of refusals.
ghost use Rattle.std.specs.Prelude.{◌≡◌, ◌<◌, ◌≤◌, IfOk};
ghost use Rattle.std.specs.String.{string_bytes};
ghost use Rattle.ff_text.specs.Refusals.{HasLine, inseparable_text, product_text};
ghost use Rattle.ff_text.specs.Refusals.{no_rational_place_text, pole_limit_text};
ghost use Rattle.ff_text.specs.Refusals.{reducible_text, refusal_text, small_genus_text};
ghost use Rattle.ff_data.specs.Systems.{gaps_of};

use crate::print::polynomial;
use ff_alg::NoMemory;
use ff_data::{Refusal, System, gap_number};
use ff_poly::Plane;
use std::alloc::Global;

/// Two factors, each in parentheses.
#[tactic(auto, unfolding(crate::specs::Refusals::product_text))]
fn product(alloc: Global, g: &Plane, h: &Plane) -> Result<String, NoMemory>
    ensures { IfOk result (λ r. string_bytes r ≡ product_text g.now h.now) }
{
    let g = polynomial(alloc, g.rows())?;
    let h = polynomial(alloc, h.rows())?;
    Ok(format!(in alloc; "({g})*({h})")?)
}

/// The line for an equation whose derivative in y is 0.
fn inseparable(alloc: Global, which: u8) -> Result<String, NoMemory>
    ensures { IfOk result (λ r. string_bytes r ≡ inseparable_text which) }
{
    Ok(format!(in alloc; "premise: equation {which} is inseparable in y\n")?)
}

/// The line for an equation that has factors.
fn reducible(alloc: Global, which: u8, g: &Plane, h: &Plane) -> Result<String, NoMemory>
    ensures { IfOk result (λ r. string_bytes r ≡ reducible_text which g.now h.now) }
{
    let product = product(alloc, g, h)?;
    Ok(format!(in alloc; "premise: equation {which} is reducible: {product}\n")?)
}

/// The line for a first field without points.
fn no_rational_place(alloc: Global) -> Result<String, NoMemory>
    ensures { IfOk result (λ r. string_bytes r ≡ no_rational_place_text) }
{
    Ok(format!(in alloc; "premise: the first field has no rational place\n")?)
}

/// The line for a first field without a pole system within the limit.
fn pole_limit(alloc: Global) -> Result<String, NoMemory>
    ensures { IfOk result (λ r. string_bytes r ≡ pole_limit_text) }
{
    Ok(format!(in alloc; "limit: no pole system within 1200\n")?)
}

/// The line for a pole system of gap number 0 or 1.
fn small_genus(alloc: Global, system: &System) -> Result<String, NoMemory>
    requires positive { 0 < system.now.e }
    requires small { gaps_of system.now.e system.now.weights ≤ 1 }
    ensures { let s = system.now in
        IfOk result (λ r. string_bytes r ≡ small_genus_text (gaps_of s.e s.weights)) }
{
    let genus = gap_number(system);
    Ok(format!(in alloc; "premise: the genus is {genus}\n")?)
}

/// The line for a refusal.
fn line(alloc: Global, refusal: &Refusal) -> Result<String, NoMemory>
    requires { HasLine refusal.now }
    ensures { IfOk result (λ r. string_bytes r ≡ refusal_text refusal.now) }
{
    match refusal {
        Refusal::Inseparable { which } => inseparable(alloc, *which),
        Refusal::Reducible { which, g, h } => reducible(alloc, *which, g, h),
        Refusal::NoRationalPlace {
            finite: _,
            infinite: _,
        } => no_rational_place(alloc),
        Refusal::PoleLimit => pole_limit(alloc),
        Refusal::SmallGenus { system } => small_genus(alloc, system),
        Refusal::NoMemory => Err(NoMemory),
    }
}

/// The line for a refusal that is not `NoMemory`.
///
/// `which` is 1 or 2, and a system has e of at least 1 and a gap number of 0 or 1. The only error
/// is out of memory.
pub fn print_refusal(alloc: Global, refusal: &Refusal) -> Result<Vec<u8>, NoMemory>
    requires { HasLine refusal.now }
    ensures { IfOk result (λ text. text.items ≡ refusal_text refusal.now) }
{
    Ok(line(alloc, refusal)?.into_bytes())
}
