// Lists of elements, of numbers and of coordinates over denominators.
use crate::system::Coords;
use ff_elem::Elem;
use std::marker::Model;

/// A list of elements of one algebra. Contracts see it as that list.
#[derive(Drop)]
pub struct ElemList {
    pub items: Vec<Elem>,
}

impl Model for ElemList {
    ghost use Rattle.std.specs.Prelude.{List};
    ghost use Rattle.ff_elem.specs.declared.elem.Elem.{Elem};

    ghost Value = { List Elem };

    ghost view = { λ l. l.items.items };
}

/// A list of numbers: elements of a field, or weights. Contracts see it as that list.
#[derive(Drop)]
pub struct NumberList {
    pub items: Vec<u32>,
}

impl Model for NumberList {
    ghost use Rattle.std.specs.Prelude.{ℕ, List};

    ghost Value = { List ℕ };

    ghost view = { λ l. l.items.items };
}

/// A list of coordinates, each over a polynomial of its own. Contracts see it as that list.
#[derive(Drop)]
pub struct CoordsList {
    pub items: Vec<Coords>,
}

impl Model for CoordsList {
    ghost use Rattle.std.specs.Prelude.{List};
    ghost use Rattle.ff_data.specs.declared.system.Coords.{Coords};

    ghost Value = { List Coords };

    ghost view = { λ l. l.items.items };
}
