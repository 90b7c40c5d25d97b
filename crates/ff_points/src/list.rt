// Lists of points.
use ff_data::Point;
use std::marker::Model;

/// A list of points of one order. Contracts see it as that list.
#[derive(Drop)]
pub struct PointList {
    pub items: Vec<Point>,
}

impl Model for PointList {
    ghost use Rattle.std.specs.Prelude.{List};
    ghost use Rattle.ff_data.specs.declared.point.Point.{Point};

    ghost Value = { List Point };

    ghost view = { λ l. l.items.items };
}
