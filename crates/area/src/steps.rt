//! Floods outside the player's room, one step at a time.
ghost use Rattle.std.specs.Prelude.{◌≡◌, ℕ, ◌*◌, ◌<◌, ◌≤◌, ◌↔◌, ◌&&◌, not, true, false, List, length, slice_index};
ghost use Rattle.std.specs.Prelude.{if◌then◌else◌};
ghost use Rattle.grid.specs.Board.{Scene, is_wall};
ghost use Rattle.grid.specs.Masks.{has_bit, word_count};
ghost use Rattle.area.specs.Area.{Area};
ghost use Rattle.area.specs.inside.Flooding.{FloodsFrom};

use crate::set::SquareSet;
use crate::spread::{BOX_MARK, spread};
use grid::{Level, MAX_SQUARES, Square, WORD_BITS};

// Makes a set the squares that the player reaches from a square, round the barred ones.
pub(crate) fn reach_by_steps(
    level: &Level,
    from: Square,
    barred: &SquareSet,
    reached: &mut SquareSet,
    marks: &mut [u16],
    queue: &mut [Square],
)
    requires floor { is_wall level.now from ≡ false }
    requires free { has_bit barred.now from ≡ false }
    requires room { length reached.old ≡ word_count (length level.now.cells) }
    requires marks { length marks.old ≡ length level.now.cells }
    requires queue { length queue.old ≡ length level.now.cells }
    ensures reached { (s : Scene) (old : List ℕ) → FloodsFrom level.now s from barred.now old →
        (q : ℕ) → (has_bit reached.new q ≡ true) ↔ Area level.now s q }
    ensures room { length reached.new ≡ length reached.old }
{
    level.tell();
    bar(level, barred, marks);
    spread(level, from, marks, queue);
    put_marked(marks, reached);
}

// Gives the barred squares that are no walls the mark of boxes, and clears all other marks.
fn bar(level: &Level, barred: &SquareSet, marks: &mut [u16])
    requires room { length marks.old ≡ length level.now.cells }
    requires small { length marks.old ≤ MAX_SQUARES }
    ensures { (q : ℕ) → slice_index marks.new q ≡
        (if has_bit barred.now q && not (is_wall level.now q) then BOX_MARK else 0) }
{
    for index in 0..marks.len() {
        let square = Square(index as u16);
        let is_box = barred.has(square) & !level.is_wall(square);
        marks[index] = if is_box { BOX_MARK } else { 0 };
    }
}

// Makes a set the squares whose marks are greater than that of boxes.
fn put_marked(marks: &[u16], reached: &mut SquareSet)
    requires small { length marks.now ≤ MAX_SQUARES }
    requires room { length marks.now ≤ WORD_BITS * length reached.old }
    ensures put { (q : ℕ) → (has_bit reached.new q ≡ true) ↔ (BOX_MARK < slice_index marks.now q) }
    ensures size { length reached.new ≡ length reached.old }
{
    reached.clear();
    for index in 0..marks.len() {
        if marks[index] > BOX_MARK {
            reached.put(Square(index as u16));
        }
    }
}
