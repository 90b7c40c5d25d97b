// The equations that are formed of a number.
use ff_make::generate;
use ff_text::print_poly;
use std::alloc::Global;
use std::test::Fail;

/// Whether the number gives the field with p elements and equations with these texts.
fn has_equations(alloc: Global, n: u32, p: u64, first: &[u8], second: &[u8]) -> Result<bool, Fail> {
    let (k, f, g) = generate(alloc, n)?;
    let f = print_poly(alloc, &f)?;
    let g = print_poly(alloc, &g)?;
    Ok(k.number() == p && f.as_slice() == first && g.as_slice() == second)
}

#[test]
fn equations_of_numbers(rt: HostRuntime) -> Result<(), Fail> {
    let f = b"y^2+4*x^11+4";
    let g = b"y^2+2*x^5*y+2*x*y+4*x^11+3*x^5+x^2+4*x+3";
    assert!(rt; has_equations(rt.alloc(), 1, 5, f, g)?);
    Ok(())
}

#[test]
fn equations_without_multiples_of_the_prime(rt: HostRuntime) -> Result<(), Fail> {
    let f = b"y^2+60*x^9+60";
    let g =
        b"y^2+2*x^5*y+48*x*y+x^10+60*x^9+49*x^8+58*x^7+59*x^6+22*x^5+9*x^4+8*x^3+49*x^2+48*x+40";
    assert!(rt; has_equations(rt.alloc(), 1000, 61, f, g)?);
    Ok(())
}
