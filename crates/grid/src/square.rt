use crate::dir::Dir;
use std::marker::Model;

/// The number of a square: its row times the columns of the level, plus its column, both counted from 0.
#[derive(Clone, Copy, PartialEq, Eq, PartialOrd, Ord, Hash, Default, Debug)]
pub struct Square(pub u16);

impl Model for Square {
    ghost use Rattle.std.specs.Prelude.{ℕ};

    ghost Value = { ℕ };

    ghost view = { λ a. a.0 };

    ghost inverse = { λ q. record { 0 = q } };
}

/// A push: the square that the box left, and the direction. Ordered by square, then by direction.
#[derive(Clone, Copy, PartialEq, Eq, PartialOrd, Ord, Hash, Default, Debug)]
pub struct Push {
    pub square: Square,
    pub dir: Dir,
}
