// Inputs that are read, and texts that are printed. The faults of the mode `Check` are rows of
// the table of `ff_rows`.
ghost use Rattle.ff_text.specs.Lists.{HasList};
ghost use Rattle.ff_text.specs.Printed.{HasText};

use ff_alg::NoMemory;
use ff_data::{Entry, EntryList, IsoList, Pair};
use ff_elem::{Elem, PolyList};
use ff_poly::Plane;
use ff_text::{
    Job, MAX_BYTES, MAX_ELEM_X_DEGREE, MAX_ELEM_Y_DEGREE, Mode, RawElem, TextFault, print_elem,
    print_fault, print_list, print_order, print_poly, read_input,
};
use std::alloc::{AllocError, AllocFailed, Global};
use std::test::Fail;

/// Reads a text of a test, all of which are short enough.
fn read(alloc: Global, text: &[u8], mode: Mode) -> Result<Job, TextFault> {
    if text.len() > MAX_BYTES {
        return Err(TextFault::NoMemory);
    }
    read_input(alloc, text, mode)
}

/// The job of a text.
fn job(alloc: Global, text: &[u8], mode: Mode) -> Result<Job, Fail> {
    let job = read(alloc, text, mode).ok().ok_or("a text")?;
    Ok(job)
}

/// The fault of a text, if it has one.
fn fault(alloc: Global, text: &[u8], mode: Mode) -> Option<TextFault> {
    read(alloc, text, mode).err()
}

/// A fault of syntax.
fn at(at: usize) -> Option<TextFault> {
    Some(TextFault::Syntax { at })
}

/// The fault of a text with one equation, if it has one.
fn fault_of_one(alloc: Global, text: &[u8]) -> Option<TextFault> {
    fault(alloc, text, Mode::Aut)
}

#[test]
fn syntax_of_two_equations(rt: HostRuntime) {
    assert_eq!(rt; fault(rt.alloc(), b"p 3\nf y^2-x^5-1\n", Mode::Iso), at(16));
    assert_eq!(rt; fault(rt.alloc(), b"", Mode::Iso), at(0));
    assert_eq!(rt;
        fault(rt.alloc(), b"p 3\nf y\ng y\ng y\n", Mode::Iso),
        at(12)
    );
    assert_eq!(rt; fault(rt.alloc(), b"p 3\nf y\ng y", Mode::Iso), None);
}

#[test]
fn syntax_of_terms(rt: HostRuntime) {
    assert_eq!(rt; fault_of_one(rt.alloc(), b"p 3\nf y^2-x^5--1\n"), at(14));
    assert_eq!(rt; fault_of_one(rt.alloc(), b"p 3\nf y^2-x^5 - 1 0\n"), at(18));
    assert_eq!(rt; fault_of_one(rt.alloc(), b"p 3\nf 1234567890*y\n"), at(15));
    assert_eq!(rt; fault_of_one(rt.alloc(), b"p 5\nf 123456789*y\n"), None);
    assert_eq!(rt; fault_of_one(rt.alloc(), b"p 3\nf 2y\n"), at(7));
    assert_eq!(rt; fault_of_one(rt.alloc(), b"p 3\nf y*(x+1)\n"), at(8));
}

#[test]
fn syntax_of_lines(rt: HostRuntime) {
    assert_eq!(rt; fault_of_one(rt.alloc(), b"p 3\nf y+a\n"), at(8));
    assert_eq!(rt; fault_of_one(rt.alloc(), b"p 3 f y\n"), at(4));
    assert_eq!(rt; fault_of_one(rt.alloc(), b"p 3\nf y\n\n \t\r\n"), None);
    assert_eq!(rt; fault_of_one(rt.alloc(), b"p 3\nf y\ng y\n"), at(8));
    assert_eq!(rt; fault_of_one(rt.alloc(), b"p 3\nf"), at(5));
    assert_eq!(rt; fault_of_one(rt.alloc(), b"p003\nf-y^01*x^0+2\n"), None);
}

#[test]
fn a_text_of_blanks(rt: HostRuntime) -> Result<(), Fail> {
    let blanks = vec![in rt.alloc(); b' '; 65536]?;
    let fault = fault(rt.alloc(), &blanks, Mode::Iso);
    assert_eq!(rt; fault, Some(TextFault::Syntax { at: 65536 }));
    assert_eq!(rt; MAX_BYTES, 65536);
    Ok(())
}

#[test]
fn numbers_that_are_no_prime_of_the_table(rt: HostRuntime) {
    let no = Some(TextFault::NotPrime);
    assert_eq!(rt; fault(rt.alloc(), b"p 101\nf y^2-x^5-1\n", Mode::Order), no);
    assert_eq!(rt; fault(rt.alloc(), b"p 4\nf y^2-x^5-1\n", Mode::Order), no);
    assert_eq!(rt; fault(rt.alloc(), b"p 1\nf y^2-x^5-1\n", Mode::Order), no);
    assert_eq!(rt; fault(rt.alloc(), b"p 0\nf y^2-x^5-1\n", Mode::Order), no);
    assert_eq!(rt;
        fault(rt.alloc(), b"p 97\nf y^2-x^5-1\n", Mode::Order),
        None
    );
}

#[test]
fn equations_without_y_or_above_a_degree(rt: HostRuntime) {
    let no = Some(TextFault::NoY { which: 1 });
    let degree = Some(TextFault::Degree { which: 1 });
    assert_eq!(rt; fault_of_one(rt.alloc(), b"p 3\nf x\n"), no);
    assert_eq!(rt; fault_of_one(rt.alloc(), b"p 3\nf x+3*y\n"), no);
    assert_eq!(rt; fault_of_one(rt.alloc(), b"p 3\nf y^7-x\n"), degree);
    assert_eq!(rt; fault_of_one(rt.alloc(), b"p 3\nf y^6-x^13\n"), degree);
    assert_eq!(rt; fault_of_one(rt.alloc(), b"p 5\nf x^12*y^3-x\n"), degree);
}

#[test]
fn equations_within_the_limits(rt: HostRuntime) {
    assert_eq!(rt; fault_of_one(rt.alloc(), b"p 3\nf y^2-3*y^9-1\n"), None);
    assert_eq!(rt; fault_of_one(rt.alloc(), b"p 5\nf x^12*y^3-1\n"), None);
    assert_eq!(rt; fault_of_one(rt.alloc(), b"p 3\nf x*y^2-x^6-x\n"), None);
    assert_eq!(rt; (MAX_ELEM_X_DEGREE, MAX_ELEM_Y_DEGREE), (512, 64));
}

/// Whether the polynomial has these rows, by rising power of y.
fn has_rows(f: &Plane, rows: &[&[u32]]) -> bool {
    f.rows().len() == rows.len()
        && f.rows()
            .iter()
            .zip(rows)
            .all(|(row, want)| row.coeffs() == *want)
}

/// Whether a text gives a job over two elements with this one equation.
fn has_equation(alloc: Global, text: &[u8], rows: &[&[u32]]) -> Result<bool, Fail> {
    let job = job(alloc, text, Mode::Aut)?;
    let first = has_rows(&job.first, rows);
    let second = has_rows(&job.second, rows);
    Ok(job.prime.number() == 2 && first && second && job.elems.is_empty())
}

#[test]
fn jobs_of_one_equation(rt: HostRuntime) -> Result<(), Fail> {
    let rows: &[&[u32]] = &[&[0, 0, 0, 0, 0, 1], &[1], &[1]];
    assert!(rt; has_equation(rt.alloc(), b"p 2\nf y^2+y-x^5\n", rows)?);
    let spaced = b" \n p 2 \r\n f y ^ 2 + y - x ^ 5 \r";
    assert!(rt; has_equation(rt.alloc(), spaced, rows)?);
    Ok(())
}

const PAIRS: &[u8] =
    b"p 3\nf y^2-4*x^5-x^5+x^5-1\ng y^2-x^7-x^2\nX x^0*x\nY (2*y)/(x)\nU x\nV 2*x*y\n";

/// Whether a text gives a job with these equations and four elements.
fn has_equations(
    alloc: Global,
    text: &[u8],
    first: &[&[u32]],
    second: &[&[u32]],
) -> Result<bool, Fail> {
    let job = job(alloc, text, Mode::Check)?;
    let equations = has_rows(&job.first, first) && has_rows(&job.second, second);
    Ok(equations && job.elems.len() == 4)
}

/// Whether an element of a text has this numerator and this denominator.
fn has_elem(
    alloc: Global,
    text: &[u8],
    i: usize,
    num: &[&[u32]],
    den: &[u32],
) -> Result<bool, Fail> {
    let job = job(alloc, text, Mode::Check)?;
    let raw = job.elems.get(i).ok_or("an element")?;
    Ok(has_rows(&raw.num, num) && raw.den.coeffs() == den)
}

#[test]
fn jobs_of_two_pairs(rt: HostRuntime) -> Result<(), Fail> {
    let first: &[&[u32]] = &[&[2, 0, 0, 0, 0, 2], &[], &[1]];
    let second: &[&[u32]] = &[&[0, 0, 2, 0, 0, 0, 0, 2], &[], &[1]];
    assert!(rt; has_equations(rt.alloc(), PAIRS, first, second)?);
    assert!(rt; has_elem(rt.alloc(), PAIRS, 0, &[&[0, 1]], &[1])?);
    assert!(rt; has_elem(rt.alloc(), PAIRS, 1, &[&[], &[2]], &[0, 1])?);
    assert!(rt; has_elem(rt.alloc(), PAIRS, 3, &[&[], &[0, 2]], &[1])?);
    Ok(())
}

/// Whether the equation of a text has this text.
fn prints_poly(alloc: Global, text: &[u8], want: &[u8]) -> Result<bool, Fail> {
    let job = job(alloc, text, Mode::Aut)?;
    let printed = print_poly(alloc, &job.first)?;
    Ok(printed.as_slice() == want)
}

#[test]
fn texts_of_polynomials(rt: HostRuntime) -> Result<(), Fail> {
    assert!(rt; prints_poly(rt.alloc(), b"p 5\nf y^2-x^11-1\n", b"y^2+4*x^11+4")?);
    let sum = b"p 5\nf y^2+2*x^5*y+2*x*y+x^10+2*x^6+x^2-x^11-x^10-2*x^6-2*x^5-x-2";
    let want = b"y^2+2*x^5*y+2*x*y+4*x^11+3*x^5+x^2+4*x+3";
    assert!(rt; prints_poly(rt.alloc(), sum, want)?);
    assert!(rt; prints_poly(rt.alloc(), b"p 7\nf x+3-2*y^3*x+y-0*y^5", b"5*x*y^3+y+x+3")?);
    assert!(rt; prints_poly(rt.alloc(), b"p 2\nf y+1", b"y+1")?);
    Ok(())
}

/// Whether a fault has this text.
fn prints(alloc: Global, fault: TextFault, want: &[u8]) -> Result<bool, Fail>
    requires { HasText fault }
{
    let printed = print_fault(alloc, &fault)?;
    Ok(printed.as_slice() == want)
}

#[test]
fn texts_of_faults(rt: HostRuntime) -> Result<(), Fail> {
    let syntax = TextFault::Syntax { at: 16 };
    assert!(rt; prints(rt.alloc(), syntax, b"bad input: syntax at 16\n")?);
    let prime = TextFault::NotPrime;
    assert!(rt; prints(rt.alloc(), prime, b"bad input: p is not in the table\n")?);
    let no_y = TextFault::NoY { which: 2 };
    assert!(rt; prints(rt.alloc(), no_y, b"bad input: equation 2 has no y\n")?);
    let zero = TextFault::ZeroDenominator { which: 5 };
    assert!(rt; prints(rt.alloc(), zero, b"bad input: denominator of U is zero\n")?);
    Ok(())
}

#[test]
fn texts_of_degrees(rt: HostRuntime) -> Result<(), Fail> {
    let first = TextFault::Degree { which: 1 };
    assert!(rt; prints(rt.alloc(), first, b"limit: degree of equation 1\n")?);
    let x = TextFault::Degree { which: 3 };
    assert!(rt; prints(rt.alloc(), x, b"limit: degree of X\n")?);
    let v = TextFault::Degree { which: 6 };
    assert!(rt; prints(rt.alloc(), v, b"limit: degree of V\n")?);
    Ok(())
}

/// An element of a text with its parts as they were read.
fn elem(alloc: Global, raw: &RawElem) -> Result<Elem, Fail> {
    let num = raw.num.copy(alloc)?.into_rows();
    let den = raw.den.copy(alloc)?;
    Ok(Elem {
        den,
        num: PolyList { items: num },
    })
}

/// Whether an element of a text has this text.
fn prints_elem(alloc: Global, text: &[u8], i: usize, want: &[u8]) -> Result<bool, Fail> {
    let job = job(alloc, text, Mode::Check)?;
    let elem = elem(alloc, job.elems.get(i).ok_or("an element")?)?;
    let printed = print_elem(alloc, &elem)?;
    Ok(printed.as_slice() == want)
}

#[test]
fn texts_of_elements(rt: HostRuntime) -> Result<(), Fail> {
    let text = b"p 3\nf y\ng y\nX (y^2*2+x^4+1)/(x^4)\nY x+3*y\nU (1)/(x-2)\nV 3*y";
    assert!(rt; prints_elem(rt.alloc(), text, 0, b"(2*y^2+x^4+1)/(x^4)")?);
    assert!(rt; prints_elem(rt.alloc(), text, 1, b"x")?);
    assert!(rt; prints_elem(rt.alloc(), text, 2, b"(1)/(x+1)")?);
    assert!(rt; prints_elem(rt.alloc(), text, 3, b"0")?);
    Ok(())
}

/// The pair of two elements of a text.
fn pair(alloc: Global, x: &RawElem, y: &RawElem) -> Result<Pair, Fail> {
    let x = elem(alloc, x)?;
    let y = elem(alloc, y)?;
    Ok(Pair { x, y })
}

/// The list of the one entry that the pairs of a text are.
fn list(alloc: Global, text: &[u8]) -> Result<IsoList, Fail> {
    let job = job(alloc, text, Mode::Check)?;
    let [x, y, u, v] = job.elems.as_slice() else {
        return Err(Fail::from("four elements"));
    };
    let pair_of_text = pair(alloc, x, y)?;
    let back = pair(alloc, u, v)?;
    let mut items = Vec::new(alloc);
    items.push(Entry {
        pair: pair_of_text,
        back,
    })?;
    Ok(IsoList {
        entries: EntryList { items },
    })
}

/// Whether the list of the pairs of a text has this text.
fn prints_list(alloc: Global, mode: Mode, text: &[u8], want: &[u8]) -> Result<bool, Fail>
    requires { HasList mode }
{
    let list = list(alloc, text)?;
    let printed = print_list(alloc, mode, &list)?;
    Ok(printed.as_slice() == want)
}

/// Whether a list without an entry has this text.
fn prints_no_entry(alloc: Global, want: &[u8]) -> Result<bool, Fail> {
    let list = IsoList {
        entries: EntryList {
            items: Vec::new(alloc),
        },
    };
    let printed = print_list(alloc, Mode::Iso, &list)?;
    Ok(printed.as_slice() == want)
}

#[test]
fn texts_of_lists(rt: HostRuntime) -> Result<(), Fail> {
    assert!(rt; prints_no_entry(rt.alloc(), b"isomorphisms: 0\n")?);
    let pairs = b"p 3\nf y^2-x^5-1\ng y^2-x^7-x^2\nX x\nY (2*y)/(x)\nU x\nV 2*x*y\n";
    let want = b"isomorphisms: 1\nX=x; Y=(2*y)/(x); U=x; V=2*x*y\n";
    assert!(rt; prints_list(rt.alloc(), Mode::Iso, pairs, want)?);
    let pairs = b"p 97\nf y^2-x^5-1\ng y^2-x^5-1\nX x\nY -y\nU x\nV 96*y\n";
    let want = b"automorphisms: 1\nX=x; Y=96*y; U=x; V=96*y\n";
    assert!(rt; prints_list(rt.alloc(), Mode::Aut, pairs, want)?);
    Ok(())
}

/// Whether a finite basis of the element X of a text, and an infinite one of none, has this text.
fn prints_finite(alloc: Global, text: &[u8], want: &[u8]) -> Result<bool, Fail> {
    let job = job(alloc, text, Mode::Check)?;
    let basis = [elem(alloc, job.elems.first().ok_or("an element")?)?];
    let printed = print_order(alloc, &basis, &[])?;
    Ok(printed.as_slice() == want)
}

/// Whether an infinite basis of the element X of a text, and a finite one of none, has this text.
fn prints_infinite(alloc: Global, text: &[u8], want: &[u8]) -> Result<bool, Fail> {
    let job = job(alloc, text, Mode::Check)?;
    let basis = [elem(alloc, job.elems.first().ok_or("an element")?)?];
    let printed = print_order(alloc, &[], &basis)?;
    Ok(printed.as_slice() == want)
}

#[test]
fn texts_of_orders(rt: HostRuntime) -> Result<(), Fail> {
    let finite = b"p 3\nf y\ng y\nX (y)/(x)\nY y\nU x\nV y\n";
    assert!(rt; prints_finite(rt.alloc(), finite, b"finite: 1\n(y)/(x)\ninfinite: 0\n")?);
    let infinite = b"p 3\nf y\ng y\nX (y^2)/(x^3)\nY y\nU x\nV y\n";
    let want = b"finite: 0\ninfinite: 1\n(y^2)/(x^3)\n";
    assert!(rt; prints_infinite(rt.alloc(), infinite, want)?);
    Ok(())
}

#[test]
fn out_of_memory(rt: HostRuntime) {
    assert_eq!(rt; TextFault::from(AllocError), TextFault::NoMemory);
    assert_eq!(rt;
        TextFault::from(AllocFailed { value: 1u32 }),
        TextFault::NoMemory
    );
    assert_eq!(rt; TextFault::from(NoMemory), TextFault::NoMemory);
}
