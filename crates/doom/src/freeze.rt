ghost use Rattle.std.specs.Prelude.{◌≡◌, ℕ, ◌<◌, ◌↔◌, IsTrue, true, length};
ghost use Rattle.grid.specs.Squares.{Squares, contains};
ghost use Rattle.grid.specs.States.{FitsLevel};
ghost use Rattle.doom.specs.Deadlocks.{IsDead, Doomed, IsFrozen};
ghost use Rattle.doom.specs.Lost.{AreLost};

use crate::dead::Dead;
use crate::locked::any_locked;
use area::Scratch;
use grid::{Level, Position, Square};

/// Whether the boxes of the position are doomed: a box is on a dead square, or some boxes, at least one of them off
/// goal, are frozen, each blocked on both axes by a wall, another of them or two dead squares. No play from a state
/// with doomed boxes ends solved. Makes at most one pass more than there are boxes; a pass visits the words of the
/// grid, or the boxes if these are far fewer. `dead` is that of the level, and the scratch is made for its size. It
/// allocates no memory.
pub fn doomed(level: &Level, dead: &Dead, position: &Position, scratch: &mut Scratch) -> bool
    requires fits { FitsLevel level.now position.now }
    requires dead_of_level { dead.now ≡ level.now }
    requires room { scratch.old.size ≡ length level.now.cells }
    ensures doomed { IsTrue result ↔ Doomed level.now position.now.boxes }
    ensures lost { IsTrue result → AreLost level.now position.now.boxes }
    ensures kept { scratch.new ≡ scratch.old }
{
    let boxes = position.boxes();
    any_dead(dead, boxes) || any_frozen(level, dead, boxes, scratch)
}

/// Whether one of the boxes is on a dead square.
fn any_dead(dead: &Dead, boxes: &[Square]) -> bool
    ensures { IsTrue result ↔ ((q : ℕ) × (contains boxes.now q ≡ true) × IsDead dead.now q) }
{
    boxes.iter().any(|square| dead.is_dead(*square))
}

/// Whether some of the boxes, at least one of them off goal, are frozen. The caller may pass a part of a position's
/// boxes: if these are frozen, so is the position. `dead` is that of the level, and the scratch is made for its size.
/// It allocates no memory.
pub fn any_frozen(level: &Level, dead: &Dead, boxes: &[Square], scratch: &mut Scratch) -> bool
    requires inside { (q : ℕ) → contains boxes.now q ≡ true → q < length level.now.cells }
    requires dead_of_level { dead.now ≡ level.now }
    requires room { scratch.old.size ≡ length level.now.cells }
    ensures frozen { IsTrue result ↔ ((members : Squares) × IsFrozen level.now boxes.now members) }
    ensures kept { scratch.new ≡ scratch.old }
{
    any_locked(level, dead.holds(), boxes, scratch)
}
