// The printed texts of elements, of lists of pairs and of bases of orders.
ghost use Rattle.std.specs.Prelude.{◌≡◌, codes, length, IfOk};
ghost use Rattle.std.specs.List.{flat_map};
ghost use Rattle.std.specs.String.{string_bytes};
ghost use Rattle.ff_text.specs.Lists.{elem_text, elem_line, entry_text, list_name, list_text};
ghost use Rattle.ff_text.specs.Lists.{HasList, order_text, first_entry_text, made_text};
ghost use Rattle.ff_text.specs.Lists.{equation_lines, heading};
ghost use Rattle.ff_prime.specs.Number.{number_of};

use crate::layout::Mode;
use crate::print::{denominator, is_one, polynomial};
use ff_alg::NoMemory;
use ff_data::{Entry, IsoList};
use ff_elem::Elem;
use ff_poly::Plane;
use ff_prime::Prime;
use std::alloc::Global;

/// The text of an element.
#[tactic(auto, unfolding(crate::specs::Lists::elem_text))]
fn element(alloc: Global, e: &Elem) -> Result<String, NoMemory>
    ensures { IfOk result (λ r. string_bytes r ≡ elem_text e.now) }
{
    let num = polynomial(alloc, e.num.rows())?;
    if is_one(&e.den) {
        return Ok(num);
    }
    let den = denominator(alloc, &e.den)?;
    Ok(format!(in alloc; "({num})/({den})")?)
}

/// The line of an entry.
fn entry(alloc: Global, e: &Entry) -> Result<String, NoMemory>
    ensures { IfOk result (λ r. string_bytes r ≡ entry_text e.now) }
{
    let x = element(alloc, &e.pair.x)?;
    let y = element(alloc, &e.pair.y)?;
    let u = element(alloc, &e.back.x)?;
    let v = element(alloc, &e.back.y)?;
    Ok(format!(in alloc; "X={x}; Y={y}; U={u}; V={v}\n")?)
}

/// The lines of entries.
fn entry_lines(alloc: Global, entries: &[Entry]) -> Result<String, NoMemory>
    ensures { IfOk result (λ r. string_bytes r ≡ flat_map entry_text entries.now) }
{
    let mut lines = String::new(alloc);
    for e in entries {
        lines.push_str(entry(alloc, e)?.as_str())?;
    }
    Ok(lines)
}

/// The lines of elements.
fn elem_lines(alloc: Global, elems: &[Elem]) -> Result<String, NoMemory>
    ensures { IfOk result (λ r. string_bytes r ≡ flat_map elem_line elems.now) }
{
    let mut lines = String::new(alloc);
    for e in elems {
        lines.push_str(element(alloc, e)?.as_str())?;
        lines.push_str("\n")?;
    }
    Ok(lines)
}

/// What the entries of a list are.
fn list_name(mode: Mode) -> &'static str
    requires { HasList mode }
    ensures { result.now ≡ list_name mode }
{
    match mode {
        Mode::Iso => "isomorphisms",
        _ => "automorphisms",
    }
}

/// The text of an element: that of its numerator, and where the denominator is not 1, `(`
/// numerator `)/(` denominator `)`. The only error is out of memory.
pub fn print_elem(alloc: Global, e: &Elem) -> Result<Vec<u8>, NoMemory>
    ensures { IfOk result (λ text. text.items ≡ elem_text e.now) }
{
    Ok(element(alloc, e)?.into_bytes())
}

/// The text of an isomorphism list, or in the mode `Aut` of a list of automorphisms.
///
/// It has a line with the number of entries, and a line for each entry with its pair X, Y and the
/// inverse pair U, V. The only error is out of memory.
pub fn print_list(alloc: Global, mode: Mode, list: &IsoList) -> Result<Vec<u8>, NoMemory>
    requires { HasList mode }
    ensures { IfOk result (λ text. text.items ≡ list_text mode list.now) }
{
    let name = list_name(mode);
    let count = list.entries.items.len();
    let lines = entry_lines(alloc, &list.entries.items)?;
    let text = format!(in alloc; "{name}: {count}\n{lines}")?;
    Ok(text.into_bytes())
}

// The line with the number of isomorphisms.
fn count_line(alloc: Global, list: &IsoList) -> Result<String, NoMemory>
    ensures { let count = length list.now.entries in
        IfOk result (λ r. string_bytes r ≡ heading (codes "isomorphisms") count) }
{
    let count = list.entries.items.len();
    Ok(format!(in alloc; "isomorphisms: {count}\n")?)
}

// The line of the first entry, and none where there is no entry.
fn first_entry(alloc: Global, list: &IsoList) -> Result<String, NoMemory>
    ensures { IfOk result (λ r. string_bytes r ≡ first_entry_text list.now.entries) }
{
    match list.entries.items.as_slice() {
        [first, ..] => entry(alloc, first),
        [] => Ok(String::new(alloc)),
    }
}

// The lines of a prime field and two equations, in the form of an input.
fn equation_lines(
    alloc: Global,
    k: &Prime,
    first: &Plane,
    second: &Plane,
) -> Result<String, NoMemory>
    ensures { IfOk result (λ r. string_bytes r ≡
        equation_lines (number_of k.now) first.now second.now) }
{
    let p = k.number();
    let f = polynomial(alloc, first.rows())?;
    let g = polynomial(alloc, second.rows())?;
    Ok(format!(in alloc; "p {p}\nf {f}\ng {g}\n")?)
}

/// The text of two equations over a prime field, in the form of an input, with a line of the number
/// of entries of their isomorphism list, and the line of its first entry where there is one. The
/// only error is out of memory.
pub fn print_made(
    alloc: Global,
    k: &Prime,
    first: &Plane,
    second: &Plane,
    list: &IsoList,
) -> Result<Vec<u8>, NoMemory>
    ensures { IfOk result (λ text. text.items ≡
        made_text (number_of k.now) first.now second.now list.now) }
{
    let equations = equation_lines(alloc, k, first, second)?;
    let count = count_line(alloc, list)?;
    let entry = first_entry(alloc, list)?;
    let text = format!(in alloc; "{equations}{count}{entry}")?;
    Ok(text.into_bytes())
}

/// The text of two bases: of the finite maximal order, the elements that are integral over k[x],
/// and of the infinite one, those that are integral over the ring of fractions in x of degree at
/// most 0 (Stichtenoth, *Algebraic Function Fields and Codes*, section 3.3).
///
/// For each there is a line with the number of its elements, and a line for each element.
/// The only error is out of memory.
pub fn print_order(alloc: Global, finite: &[Elem], infinite: &[Elem]) -> Result<Vec<u8>, NoMemory>
    ensures { IfOk result (λ text. text.items ≡ order_text finite.now infinite.now) }
{
    let first = finite.len();
    let second = infinite.len();
    let upper = elem_lines(alloc, finite)?;
    let lower = elem_lines(alloc, infinite)?;
    let text = format!(in alloc; "finite: {first}\n{upper}infinite: {second}\n{lower}")?;
    Ok(text.into_bytes())
}
