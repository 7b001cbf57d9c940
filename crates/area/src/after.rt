ghost use Rattle.std.specs.Prelude.{◌≡◌, ◌≢◌, ℕ, ◌*◌, ◌<◌, true, IsTrue, length};
ghost use Rattle.grid.specs.States.{FitsLevel};
ghost use Rattle.grid.specs.Masks.{has_bit};
ghost use Rattle.grid.specs.Squares.{contains, insert, remove};
ghost use Rattle.area.specs.Area.{Area, IsNorm, at};
ghost use Rattle.area.specs.Words.{squares_of};
ghost use Rattle.area.specs.After.{IsAreaOf, IsPushed};
ghost use Rattle.area.specs.inside.Detours.{HasMoved};

use crate::bits::least_of;
use crate::floods::flood_from;
use crate::scratch::Scratch;
use crate::set::SquareSet;
use crate::sight::look_ahead;
use grid::{Level, Position, Push, Square, WORD_BITS};

/// Makes the position after a push normal: moves its player to the least square that the player reaches without a
/// push.
///
/// The scratch must hold the flood of the position before the push, and still holds it afterwards. In most cases
/// that flood and the squares round the box decide the answer. Only if they do not does another flood run. Takes no
/// memory.
pub fn normalise_after(
    level: &Level,
    before: &Position,
    push: Push,
    after: &mut Position,
    scratch: &mut Scratch,
)
    requires fits_before { FitsLevel level.now before.now }
    requires fits { FitsLevel level.now after.old }
    requires pushed { IsPushed level.now before.now push after.old }
    requires room { scratch.old.size ≡ length level.now.cells }
    requires flooded { IsAreaOf level.now before.now scratch.old.reached }
    requires boxes { scratch.old.boxes ≡ before.now.boxes }
    ensures norm { IsNorm level.now after.old after.new }
    ensures fits { FitsLevel level.now after.new }
    ensures kept { scratch.new ≡ scratch.old }
{
    let Push { square, dir } = push;
    let ahead = level.next(square, dir);
    let sight = look_ahead(level, square, dir, ahead, scratch);
    let joined = sight.is_joined;
    let player = if joined & sight.is_known {
        scratch.least_with(ahead, square)
    } else {
        least_again(level, after, square, ahead, joined, scratch)
    };
    after.set_player(player);
}

// The least square that the player reaches after a box moved, by another flood, which keeps the last one. With
// `joined`, the player still reaches all that the last flood reached, except the square ahead.
fn least_again(
    level: &Level,
    position: &Position,
    square: Square,
    ahead: Square,
    joined: bool,
    scratch: &mut Scratch,
) -> Square
    requires fits { FitsLevel level.now position.now }
    requires room { scratch.old.size ≡ length level.now.cells }
    requires moved { HasMoved level.now scratch.old.boxes position.now.boxes square ahead }
    requires known { IsTrue joined → (q : ℕ) → contains scratch.old.reached q ≡ true → q ≢ ahead
        → Area level.now position.now q }
    ensures norm { IsNorm level.now position.now (at position.now result) }
    ensures kept { scratch.new ≡ scratch.old }
{
    move_box(&scratch.boxes, square, ahead, &mut scratch.spare_boxes);
    scratch.spare.copy_if(joined, &scratch.reached, ahead);
    flood_from(
        level,
        position.player(),
        &mut scratch.spare_boxes,
        &mut scratch.spare,
        &mut scratch.marks,
        &mut scratch.queue,
    );
    least_of(scratch.spare.as_words())
}

// Copies a set of boxes, and moves one of them in the copy.
#[inline(always)]
fn move_box(boxes: &SquareSet, square: Square, ahead: Square, moved: &mut SquareSet)
    requires room { length moved.old ≡ length boxes.now }
    requires inside { square < WORD_BITS * length boxes.now }
    requires ahead { ahead < WORD_BITS * length boxes.now }
    ensures moved { (q : ℕ) → has_bit moved.new q ≡ contains (insert (remove (squares_of boxes.now) square) ahead) q }
    ensures size { length moved.new ≡ length moved.old }
{
    moved.copy_without(boxes, square);
    moved.put(ahead);
}
