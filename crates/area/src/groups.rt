ghost use Rattle.std.specs.Prelude.{◌≡◌, ℕ, ◌↔◌, true, false, length};
ghost use Rattle.grid.specs.Board.{is_wall};
ghost use Rattle.grid.specs.Masks.{has_bit, word_count};
ghost use Rattle.grid.specs.Squares.{contains};
ghost use Rattle.area.specs.Groups.{HangsWith};

use crate::floods::flood_from;
use crate::set::SquareSet;
use grid::{Level, Square};

// Makes `members` the set of the boxes that are connected to the box on a square: a chain of boxes leads to each,
// every box beside the one before it, and no chain wraps round the end of a row. Overwrites `others`.
pub(crate) fn group(
    level: &Level,
    boxes: &[Square],
    square: Square,
    others: &mut SquareSet,
    members: &mut SquareSet,
    marks: &mut [u16],
    queue: &mut [Square],
)
    requires clear { (q : ℕ) → contains boxes.now q ≡ true → is_wall level.now q ≡ false }
    requires there { contains boxes.now square ≡ true }
    requires places { length others.old ≡ word_count (length level.now.cells) }
    requires room { length members.old ≡ word_count (length level.now.cells) }
    requires marks { length marks.old ≡ length level.now.cells }
    requires queue { length queue.old ≡ length level.now.cells }
    ensures group { (q : ℕ) → (has_bit members.new q ≡ true) ↔ HangsWith level.now boxes.now square q }
    ensures places { length others.new ≡ length others.old }
    ensures room { length members.new ≡ length members.old }
{
    others.put_all(boxes);
    others.turn_over();
    members.clear();
    flood_from(level, square, others, members, marks, queue);
}
