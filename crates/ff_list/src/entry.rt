// Lists of entries by rising key.
ghost use Rattle.std.specs.Prelude.{◌≡◌, IfOk, IfSome};
ghost use Rattle.std.specs.List.{All};
ghost use Rattle.ff_elem.specs.Key.{key_cmp};
ghost use Rattle.ff_data.specs.Lists.{IsEntry, pair_key};
ghost use Rattle.ff_data.specs.Pairs.{IsPair};
ghost use Rattle.ff_list.specs.Lists.{IsTrueList};
ghost use Rattle.ff_list.specs.Searches.{BelongsAt};

use ff_alg::{FiniteField, NoMemory};
use ff_data::{Entry, Pair};
use ff_elem::Alg;
use std::cmp::Ordering;

/// The order of the keys of two pairs.
fn compare<K: FiniteField<E = u32>>(alg: &Alg<K>, a: &Pair, b: &Pair) -> Ordering
    requires a { IsPair (K.lawful alg.now.k) alg.now.f a.now }
    requires b { IsPair (K.lawful alg.now.k) alg.now.f b.now }
    ensures { let F = K.elements alg.now.k in
        result ≡ key_cmp (pair_key F a.now) (pair_key F b.now) }
{
    let order = alg.compare(&a.x, &b.x);
    if order.is_ne() {
        return order;
    }
    alg.compare(&a.y, &b.y)
}

/// The index at which a pair belongs in a list by rising key; None where the list has it.
fn index_of<K: FiniteField<E = u32>>(alg: &Alg<K>, list: &[Entry], pair: &Pair) -> Option<usize>
    requires list { All (λ e. IsPair (K.lawful alg.now.k) alg.now.f e.pair) list.now }
    requires pair { IsPair (K.lawful alg.now.k) alg.now.f pair.now }
    ensures { IfSome result (BelongsAt (K.elements alg.now.k) list.now pair.now) }
{
    let mut low = 0;
    let mut high = list.len();
    while low < high {
        let middle = low + (high - low) / 2;
        match compare(alg, &list[middle].pair, pair) {
            Ordering::Less => low = middle + 1,
            Ordering::Equal => return None,
            Ordering::Greater => high = middle,
        }
    }
    Some(low)
}

/// Adds an entry at its place.
fn insert_at<K: FiniteField<E = u32>>(
    alg1: &Alg<K>,
    alg2: &Alg<K>,
    list: &mut Vec<Entry>,
    i: usize,
    entry: Entry,
) -> Result<(), NoMemory>
    requires list { IsTrueList (K.lawful alg2.now.k) alg1.now.f alg2.now.f list.old.items }
    requires entry { IsEntry (K.lawful alg2.now.k) alg1.now.f alg2.now.f entry }
    requires place { BelongsAt (K.elements alg2.now.k) list.old.items entry.pair i }
    ensures { let L = K.lawful alg2.now.k in
        IfOk result (λ _. IsTrueList L alg1.now.f alg2.now.f list.new.items) }
{
    let (_first, _second) = (alg1, alg2);
    list.insert(i, entry)?;
    Ok(())
}

/// Adds an entry at its place, unless the list has its pair.
pub fn insert<K: FiniteField<E = u32>>(
    alg1: &Alg<K>,
    alg2: &Alg<K>,
    list: &mut Vec<Entry>,
    entry: Entry,
) -> Result<(), NoMemory>
    requires list { IsTrueList (K.lawful alg2.now.k) alg1.now.f alg2.now.f list.old.items }
    requires entry { IsEntry (K.lawful alg2.now.k) alg1.now.f alg2.now.f entry }
    ensures { let L = K.lawful alg2.now.k in
        IfOk result (λ _. IsTrueList L alg1.now.f alg2.now.f list.new.items) }
{
    match index_of(alg2, list, &entry.pair) {
        Some(i) => insert_at(alg1, alg2, list, i, entry),
        None => {
            drop(entry);
            Ok(())
        },
    }
}
