ghost use Rattle.std.specs.Prelude.{◌≡◌, ℕ, ◌<◌, ◌↔◌, ◌⊎◌, IsTrue, false, true, length};
ghost use Rattle.grid.specs.Board.{is_wall, next};
ghost use Rattle.grid.specs.States.{FitsLevel};
ghost use Rattle.grid.specs.Squares.{Squares, contains, insert, remove};
ghost use Rattle.doom.specs.Lost.{AreLost};
ghost use Rattle.doom.specs.Deadlocks.{Doomed, IsDead, IsFrozen};
ghost use Rattle.doom.specs.Pushed.{AreOthersFrozen, ComeUndoomed, DoomedFrom, IsGroupFrozen};

use crate::dead::Dead;
use crate::locked::{any_locked_with, has_locked, is_locked_on};
use area::Scratch;
use area::bits::has;
use grid::{Level, Position, Push, Square};

/// Whether a push dooms the position that it leads to: the pushed box is on a dead square, or some boxes connected to
/// it, at least one of them off goal, are frozen. If the position before the push was not doomed, the result is that
/// of [`doomed`](crate::doomed), and this call is faster: it looks for one dead box only, and floods the connected
/// boxes only if some boxes of the position are frozen. `dead` is that of the level, and the scratch is made for its
/// size. It allocates no memory.
pub fn doomed_after(
    level: &Level,
    dead: &Dead,
    position: &Position,
    push: Push,
    scratch: &mut Scratch,
) -> bool
    requires fits { FitsLevel level.now position.now }
    requires dead_of_level { dead.now ≡ level.now }
    requires room { scratch.old.size ≡ length level.now.cells }
    requires inside { push.square < length level.now.cells }
    requires moved { contains position.now.boxes (next level.now push.square push.dir) ≡ true }
    ensures from { IsTrue result ↔ DoomedFrom level.now position.now.boxes (next level.now push.square push.dir) }
    ensures same { ComeUndoomed level.now push position.now.boxes → IsTrue result ↔
        Doomed level.now position.now.boxes }
    ensures lost { IsTrue result → AreLost level.now position.now.boxes }
    ensures kept { scratch.new ≡ scratch.old }
{
    let Push { square, dir } = push;
    is_doomed_from(
        level,
        dead,
        position.boxes(),
        level.next(square, dir),
        scratch,
    )
}

/// Whether a push onto a square that is not dead dooms the position that it leads to, where the position before it was
/// not doomed. The answer is that of [`doomed_after`]. In a grid of few words this call is faster: it stops once the
/// pushed box is loose. The last flood was that of the position before the push, and the scratch still holds it
/// afterwards. `dead` is that of the level. It allocates no memory.
pub fn dooms(
    level: &Level,
    dead: &Dead,
    position: &Position,
    push: Push,
    scratch: &mut Scratch,
) -> bool
    requires fits { FitsLevel level.now position.now }
    requires dead_of_level { dead.now ≡ level.now }
    requires room { scratch.old.size ≡ length level.now.cells }
    requires inside { push.square < length level.now.cells }
    requires live { ¬ (IsDead level.now (next level.now push.square push.dir)) }
    requires moved { position.now.boxes ≡
        insert (remove scratch.old.boxes push.square) (next level.now push.square push.dir) }
    requires undoomed { ¬ (Doomed level.now scratch.old.boxes) }
    ensures doomed { IsTrue result ↔ Doomed level.now position.now.boxes }
    ensures kept { scratch.new ≡ scratch.old }
{
    let Push { square, dir } = push;
    let ahead = level.next(square, dir);
    let boxes = scratch.boxes().as_words();
    let told = is_locked_on(dead.holds(), level.cols(), boxes, square, ahead);
    if let Some(told) = told {
        return told;
    }
    doomed_after(level, dead, position, Push { square, dir }, scratch)
}

/// Whether the square is dead, or some boxes connected to the one on it, at least one of them off goal, are frozen.
fn is_doomed_from(
    level: &Level,
    dead: &Dead,
    boxes: &[Square],
    square: Square,
    scratch: &mut Scratch,
) -> bool
    requires clear { (q : ℕ) → contains boxes.now q ≡ true → is_wall level.now q ≡ false }
    requires there { contains boxes.now square ≡ true }
    requires dead_of_level { dead.now ≡ level.now }
    requires room { scratch.old.size ≡ length level.now.cells }
    ensures from { IsTrue result ↔ DoomedFrom level.now boxes.now square }
    ensures others { (members : Squares) → IsFrozen level.now boxes.now members → IsTrue result ⊎
        AreOthersFrozen level.now boxes.now square }
    ensures kept { scratch.new ≡ scratch.old }
{
    dead.is_dead(square) || is_group_frozen(level, dead, boxes, square, scratch)
}

/// Whether some boxes connected to the one on the square, at least one of them off goal, are frozen. They are connected
/// through all boxes, also through those that nothing holds.
fn is_group_frozen(
    level: &Level,
    dead: &Dead,
    boxes: &[Square],
    square: Square,
    scratch: &mut Scratch,
) -> bool
    requires clear { (q : ℕ) → contains boxes.now q ≡ true → is_wall level.now q ≡ false }
    requires there { contains boxes.now square ≡ true }
    requires dead_of_level { dead.now ≡ level.now }
    requires room { scratch.old.size ≡ length level.now.cells }
    ensures group { IsTrue result ↔ IsGroupFrozen level.now boxes.now square }
    ensures others { (members : Squares) → IsFrozen level.now boxes.now members → IsTrue result ⊎
        AreOthersFrozen level.now boxes.now square }
    ensures kept { scratch.new ≡ scratch.old }
{
    let holds = dead.holds();
    let left = scratch.boxes_aside(boxes);
    if !has_locked(holds, level.cols(), boxes, left) {
        return false;
    }
    // the pushed box is itself frozen and off goal, so its group need not be found
    let frozen = has(left, square);
    let off = !level.is_goal(square);
    if frozen & off {
        return true;
    }
    any_locked_with(level, holds, boxes, square, scratch)
}
