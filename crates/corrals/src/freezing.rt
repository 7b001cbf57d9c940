//! Whether a held box, once pushed, freezes with other held boxes where they are.
ghost use Rattle.std.specs.Prelude.{◌≡◌, ◌≢◌, ◌<◌, ◌⊎◌, IsTrue, length};
ghost use Rattle.grid.specs.Squares.{contains};
ghost use Rattle.corrals.specs.Corrals.{FreezesHeld};
ghost use Rattle.corrals.specs.inside.Freezing.{AreMoved};

use crate::ground::Ground;
use area::Scratch;
use grid::{Dir, MAX_BOXES, Square};

/// Whether the box on the square, pushed in the direction, freezes with others of these boxes where they are.
pub(crate) fn freezes(
    ground: &Ground<'_>,
    boxes: &[Square],
    square: Square,
    dir: Dir,
    spare: &mut Scratch,
) -> bool
    requires square { square < length ground.now.board.cells }
    requires room { spare.old.size ≡ length ground.now.board.cells }
    ensures freezes { IsTrue result → FreezesHeld ground.now.board (λ q. contains boxes.now q) square dir }
    ensures kept { spare.new ≡ spare.old }
{
    let ahead = ground.next(square, dir);
    if !ground.has(ahead) {
        return false;
    }
    let mut moved = [ahead; MAX_BOXES];
    put_others(ground, boxes, square, ahead, &mut moved);
    ground.any_frozen(&moved, spare)
}

// Lists the boxes, with the square ahead instead of the pushed one.
fn put_others(
    ground: &Ground<'_>,
    boxes: &[Square],
    square: Square,
    ahead: Square,
    moved: &mut [Square],
)
    requires { ahead < length ground.now.board.cells }
    ensures { AreMoved ground.now.board boxes.now square ahead moved.old →
        AreMoved ground.now.board boxes.now square ahead moved.new }
{
    for place in 0..boxes.len().min(moved.len()) {
        let other = boxes[place];
        let stands = place_of(ground, square, ahead, other);
        moved[place] = stands;
    }
}

// The square of a box after the push: one square ahead for the pushed box, unchanged for the others.
fn place_of(ground: &Ground<'_>, square: Square, ahead: Square, other: Square) -> Square
    requires { ahead < length ground.now.board.cells }
    ensures inside { result < length ground.now.board.cells }
    ensures stands { (ahead ≡ result) ⊎ ((other ≡ result) × (square ≢ result)) }
{
    if other == square || !ground.has(other) {
        return ahead;
    }
    other
}
