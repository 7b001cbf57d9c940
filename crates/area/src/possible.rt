ghost use Rattle.std.specs.Prelude.{◌≡◌, ◌+◌, ◌<◌, ◌≤◌, true, length};
ghost use Rattle.grid.specs.Board.{dir_number};
ghost use Rattle.grid.specs.Squares.{contains};
ghost use Rattle.grid.specs.States.{FitsLevel};
ghost use Rattle.area.specs.After.{IsAreaOf};
ghost use Rattle.area.specs.Pushes.{ArePushes};
ghost use Rattle.area.specs.inside.PushLists.{AreAllowedBefore};

use crate::floods::flood;
use crate::scratch::Scratch;
use arrayvec::ArrayVec;
use grid::{Dir, Level, MAX_BOXES, Position, Push, Square};

/// The greatest number of pushes that a position allows: one for each box and direction.
pub const MAX_PUSHES: usize = 4 * MAX_BOXES;

/// Lists the pushes that the player can make after walking, each once, in their order: the boxes by rising squares,
/// and for each box down, left, right, up.
///
/// Overwrites the caller's list, so that a search makes no large value for each position, and takes no memory.
/// Leaves the flood of the position in the scratch. The position fits the level, and the scratch is made for the
/// level's size.
pub fn possible_pushes(
    level: &Level,
    position: &Position,
    scratch: &mut Scratch,
    pushes: &mut ArrayVec<Push, MAX_PUSHES>,
)
    requires fits { FitsLevel level.now position.now }
    requires room { scratch.old.size ≡ length level.now.cells }
    ensures pushes { ArePushes level.now position.now pushes.new.items }
    ensures flooded { IsAreaOf level.now position.now scratch.new.reached }
    ensures boxes { scratch.new.boxes ≡ position.now.boxes }
    ensures size { scratch.new.size ≡ scratch.old.size }
{
    flood(level, position, scratch);
    pushes.clear();
    let boxes = position.boxes();
    for square in boxes {
        push_box(level, scratch, *square, pushes);
    }
}

// Appends the pushes that the last flood allows of the box on a square, in their order.
#[inline(always)]
fn push_box(
    level: &Level,
    scratch: &Scratch,
    square: Square,
    pushes: &mut ArrayVec<Push, MAX_PUSHES>,
)
    requires inside { square < length level.now.cells }
    requires there { contains scratch.now.boxes square ≡ true }
    requires room { length pushes.old.items + 4 ≤ MAX_PUSHES }
    ensures pushes { AreAllowedBefore level.now scratch.now square 0 pushes.old.items →
        AreAllowedBefore level.now scratch.now (square + 1) 0 pushes.new.items }
    ensures bound { length pushes.new.items ≤ length pushes.old.items + 4 }
{
    push_if(level, scratch, square, Dir::D, pushes);
    push_if(level, scratch, square, Dir::L, pushes);
    push_if(level, scratch, square, Dir::R, pushes);
    push_if(level, scratch, square, Dir::U, pushes);
}

// Appends the push of the box on a square in a direction if the last flood allows it.
#[inline(always)]
fn push_if(
    level: &Level,
    scratch: &Scratch,
    square: Square,
    dir: Dir,
    pushes: &mut ArrayVec<Push, MAX_PUSHES>,
)
    requires inside { square < length level.now.cells }
    requires there { contains scratch.now.boxes square ≡ true }
    requires room { length pushes.old.items < MAX_PUSHES }
    ensures pushes { AreAllowedBefore level.now scratch.now square (dir_number dir) pushes.old.items →
        AreAllowedBefore level.now scratch.now square (dir_number dir + 1) pushes.new.items }
    ensures bound { length pushes.new.items ≤ length pushes.old.items + 1 }
{
    if !scratch.reaches(level.next(square, dir.opposite())) {
        return;
    }
    let ahead = level.next(square, dir);
    if level.is_wall(ahead) {
        return;
    }
    if scratch.has_box(ahead) {
        return;
    }
    pushes.push(Push { square, dir });
}
