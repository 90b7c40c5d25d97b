// The value of an element at a point of an order.
ghost use Rattle.std.specs.Prelude.{IfOk, IfSome, IfNone};
ghost use Rattle.ff_elem.specs.Elem.{elem_of, IsElem};
ghost use Rattle.ff_data.specs.Orders.{IsOrder, InOrder};
ghost use Rattle.ff_data.specs.Points.{IsPoint, IsValueAt};

use crate::numerators::rows_of;
use ff_alg::{FiniteField, NoMemory};
use ff_data::{Order, Point, value_of_numerator};
use ff_elem::{Alg, Elem};
use std::alloc::Global;

/// The value of the element at the point of the order. None comes exactly where the element is not
/// in the order. `NoMemory` is the only error. This project's own.
pub fn value<K: FiniteField<E = u32>>(
    alloc: Global,
    alg: &Alg<K>,
    order: &Order,
    point: &Point,
    w: &Elem,
) -> Result<Option<u32>, NoMemory>
    requires order { IsOrder (K.lawful alg.now.k) alg.now.f order.now }
    requires point { IsPoint (K.lawful alg.now.k) alg.now.f order.now point.now }
    requires w { IsElem (K.lawful alg.now.k) alg.now.f w.now }
    ensures some { let L = K.lawful alg.now.k in let f = alg.now.f in IfOk result
        (λ o. IfSome o (IsValueAt L f order.now point.now (elem_of L f w.now))) }
    ensures none { let L = K.lawful alg.now.k in let f = alg.now.f in IfOk result
        (λ o. IfNone o (¬ InOrder L f order.now (elem_of L f w.now))) }
{
    match rows_of(alloc, alg, order.chart, &order.d, w)? {
        Some(plane) => value_of_numerator(alloc, alg, order, point, &plane),
        None => Ok(None),
    }
}
