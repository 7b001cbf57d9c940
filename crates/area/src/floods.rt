ghost use Rattle.std.specs.Prelude.{◌≡◌, ℕ, ◌↔◌, true, false, length};
ghost use Rattle.grid.specs.Board.{Scene, is_wall};
ghost use Rattle.grid.specs.States.{FitsLevel};
ghost use Rattle.grid.specs.Masks.{has_bit, word_count};
ghost use Rattle.grid.specs.Squares.{contains};
ghost use Rattle.area.specs.Area.{Area, IsNorm};
ghost use Rattle.area.specs.inside.Flooding.{FloodsFrom};

use crate::rooms::grow_in_room;
use crate::scratch::Scratch;
use crate::set::SquareSet;
use crate::steps::reach_by_steps;
use grid::{Level, Position, Square};

/// Finds the squares that the player reaches without a push. Afterwards [`Scratch::reaches`] tells them. The position
/// fits the level, and the scratch is made for the level's size.
pub fn flood(level: &Level, position: &Position, scratch: &mut Scratch)
    requires fits { FitsLevel level.now position.now }
    requires room { scratch.old.size ≡ length level.now.cells }
    ensures reached { (q : ℕ) → (contains scratch.new.reached q ≡ true) ↔ Area level.now position.now q }
    ensures boxes { scratch.new.boxes ≡ position.now.boxes }
    ensures size { scratch.new.size ≡ scratch.old.size }
{
    scratch.boxes.put_all(position.boxes());
    scratch.spare_boxes.copy_from(&scratch.boxes);
    scratch.reached.clear();
    flood_from(
        level,
        position.player(),
        &mut scratch.spare_boxes,
        &mut scratch.reached,
        &mut scratch.marks,
        &mut scratch.queue,
    );
}

/// The normal position: the same boxes, and the player on the least square that it reaches without a push. The position
/// fits the level, and the scratch is made for the level's size. Takes one flood.
pub fn normal(level: &Level, position: &Position, scratch: &mut Scratch) -> Position
    requires fits { FitsLevel level.now position.now }
    requires room { scratch.old.size ≡ length level.now.cells }
    ensures norm { IsNorm level.now position.now result }
    ensures fits { FitsLevel level.now result }
    ensures size { scratch.new.size ≡ scratch.old.size }
{
    flood(level, position, scratch);
    let mut normal = position.copy();
    normal.set_player(scratch.least());
    normal
}

// Adds to squares that the player reaches from a square all others that it reaches from there, round the barred ones.
// Overwrites the set of these. Goes by words in the player's room, and step by step outside it.
pub(crate) fn flood_from(
    level: &Level,
    from: Square,
    barred: &mut SquareSet,
    reached: &mut SquareSet,
    marks: &mut [u16],
    queue: &mut [Square],
)
    requires floor { is_wall level.now from ≡ false }
    requires free { has_bit barred.old from ≡ false }
    requires places { length barred.old ≡ word_count (length level.now.cells) }
    requires room { length reached.old ≡ word_count (length level.now.cells) }
    requires marks { length marks.old ≡ length level.now.cells }
    requires queue { length queue.old ≡ length level.now.cells }
    ensures reached { (s : Scene) → FloodsFrom level.now s from barred.old reached.old →
        (q : ℕ) → (has_bit reached.new q ≡ true) ↔ Area level.now s q }
    ensures places { length barred.new ≡ length barred.old }
    ensures room { length reached.new ≡ length reached.old }
{
    level.tell();
    if !level.in_room(from) {
        return reach_by_steps(level, from, barred, reached, marks, queue);
    }
    reached.put(from);
    grow_in_room(level, barred, reached);
}
