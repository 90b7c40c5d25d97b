// The prime fields, and what is computed in any field.
ghost use Rattle.std.specs.Prelude.{◌≡◌, ◌<◌};

use crate::made::field;
use ff_alg::{Field, FiniteField, NoMemory, Ring, Steps, is_zero, pow, same, sub};
use ff_prime::Prime;
use std::alloc::{AllocError, AllocFailed};
use std::marker::Brand;
use std::mem::size_of_val;
use std::sync::ledger::{Blank, Ledger};
use std::test::Fail;

#[test]
fn primes_of_the_table(rt: HostRuntime) {
    let found = (0..120u64).filter(|n| Prime::of(*n).is_some()).count();
    assert_eq!(rt; found, 25);
    assert!(rt; Prime::of(1).is_none());
    assert!(rt; Prime::of(4).is_none());
    assert!(rt; Prime::of(101).is_none());
}

#[test]
fn numbers(rt: HostRuntime) -> Result<(), Fail> {
    let k = field(97)?;
    assert_eq!(rt; (k.number(), k.characteristic()), (97, 97));
    assert_eq!(rt; k.count(), 97);
    Ok(())
}

#[test]
fn sums_modulo_97(rt: HostRuntime) -> Result<(), Fail> {
    let k = field(97)?;
    assert_eq!(rt; k.count(), 97);
    let (a, b) = (k.nth(96), k.nth(50));
    assert_eq!(rt; k.index(k.add(a, b)), 49);
    assert_eq!(rt; k.index(k.neg(b)), 47);
    assert_eq!(rt; k.index(k.neg(k.zero())), 0);
    assert_eq!(rt; k.index(sub(&k, b, a)), 51);
    Ok(())
}

#[test]
fn products_modulo_97(rt: HostRuntime) -> Result<(), Fail> {
    let k = field(97)?;
    assert_eq!(rt; k.count(), 97);
    let (a, b) = (k.nth(96), k.nth(50));
    assert_eq!(rt; k.index(k.mul(a, b)), 47);
    assert_eq!(rt; k.index(k.one()), 1);
    assert_eq!(rt; k.index(pow(&k, b, 5)), 47);
    assert_eq!(rt; k.index(k.frob(b)), 50);
    assert_eq!(rt; k.index(k.root(b)), 50);
    Ok(())
}

/// The index of the inverse of the element with an index, where it is an element and not 0.
fn inverse(k: &Prime, i: u64) -> Option<u64> {
    if i >= k.count() {
        return None;
    }
    let b = k.nth(i);
    if is_zero(k, b) {
        return None;
    }
    Some(k.index(k.inv(b)))
}

#[test]
fn inverses_modulo_97(rt: HostRuntime) -> Result<(), Fail> {
    let k = field(97)?;
    assert_eq!(rt; inverse(&k, 50), Some(33));
    assert_eq!(rt; inverse(&k, 0), None);
    assert!(rt; is_zero(&k, k.zero()));
    assert!(rt; !same(&k, k.one(), k.zero()));
    Ok(())
}

/// How many bytes a counter takes that was ticked twice.
fn bytes_of_counter<L: Ledger>(blank: Blank) -> usize
    requires name { blank.name ≡ L.name }
    requires parts { blank.parts ≡ L.parts }
    requires some { 0 < L.parts }
{
    let mut steps = Steps::<L>::new(blank);
    steps.tick();
    steps.tick();
    size_of_val(&steps)
}

#[test]
fn counters_take_no_bytes(rt: HostRuntime) {
    assert_eq!(rt; bytes_of_counter::<Brand>(Blank::new(1)), 0);
}

#[test]
fn out_of_memory(rt: HostRuntime) {
    assert_eq!(rt; NoMemory::from(AllocError), NoMemory);
    assert_eq!(rt; NoMemory::from(AllocFailed { value: 1u32 }), NoMemory);
}
