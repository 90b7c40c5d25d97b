// Pairs of elements, and lists of them.
use ff_elem::Elem;
use std::marker::Model;

/// A pair (X, Y) of elements of one algebra, which are substituted for x and y.
#[derive(Drop)]
pub struct Pair {
    pub x: Elem,
    pub y: Elem,
}

/// A pair of E(g) that satisfies f, with its inverse pair of E(f).
#[derive(Drop)]
pub struct Entry {
    pub pair: Pair,
    pub back: Pair,
}

/// A list of entries. Contracts see it as that list.
#[derive(Drop)]
pub struct EntryList {
    pub items: Vec<Entry>,
}

impl Model for EntryList {
    ghost use Rattle.std.specs.Prelude.{List};
    ghost use Rattle.ff_data.specs.declared.pair.Entry.{Entry};

    ghost Value = { List Entry };

    ghost view = { λ l. l.items.items };
}

/// The isomorphism list of two equations f and g: each pair of E(g) that satisfies f and has an
/// inverse pair, with that inverse pair, by rising key of the pair.
#[derive(Drop)]
pub struct IsoList {
    pub entries: EntryList,
}
