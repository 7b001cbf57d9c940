//! The proved check that distances are lower bounds: one step of the player, or one push, at a time.
ghost use Rattle.std.specs.Prelude.{◌≡◌, ℕ, ◌<◌, IsTrue, true, length, slice_index_or};
ghost use Rattle.prices.specs.Prices.{AreFar, CanStand, goals_of};
ghost use Rattle.prices.specs.inside.Checks.{AreClosed, AreZeroAtHome, AreWithinOne, DistancesLessenByOne, IsClosed};
ghost use Rattle.prices.specs.inside.Checks.{KeepRows, LessensByOne, StayAway, StaysIn};
ghost use Rattle.prices.specs.inside.Tables.{far_in, row_in, has_number, spot_of};

use crate::pulls::NEVER;
use crate::table::{DistanceTable, Side};
use grid::{Dir, Level, Square};

/// Makes sure that the distances of a table are lower bounds: a table that fails the check loses them all, which means
/// that no box needs a push.
pub(crate) fn make_sure(level: &Level, table: &mut DistanceTable)
    requires { table.old.goals.items ≡ goals_of level.now }
    ensures far { AreFar level.now (far_in table.new) }
    ensures away { StayAway level.now (far_in table.new) }
    ensures goals { table.new.goals ≡ table.old.goals }
{
    if !are_far(level, table) {
        table.far.clear();
    }
}

// Whether the distances are lower bounds.
#[tactic(auto, using(crate::proofs::Checking::stay_away))]
fn are_far(level: &Level, table: &DistanceTable) -> bool
    requires { table.now.goals.items ≡ goals_of level.now }
    ensures far { IsTrue result → AreFar level.now (far_in table.now) }
    ensures away { IsTrue result → StayAway level.now (far_in table.now) }
{
    let kept = keep_rows(level, table);
    let none = are_zero_at_home(level, table);
    let less = lessen_by_one(level, table);
    kept & none & less
}

// Whether steps of the player without a push stay on one side of each lone box.
#[tactic(auto, using(crate::proofs::Checking::rows_kept))]
fn keep_rows(level: &Level, table: &DistanceTable) -> bool
    ensures { IsTrue result → KeepRows level.now table.now }
{
    level.tell();
    for index in 0..level.squares() {
        if !are_closed(level, table, Square(index as u16)) {
            return false;
        }
    }
    true
}

// Whether the player leaves no side of a lone box on the square without pushing it.
fn are_closed(level: &Level, table: &DistanceTable, square: Square) -> bool
    ensures { IsTrue result → AreClosed level.now table.now square }
{
    for side in table.sides(square) {
        if !is_closed(level, table, square, *side) {
            return false;
        }
    }
    true
}

// Whether no step of the player that does not push a lone box on the square leaves this side of it.
#[tactic(auto, using(grid::proofs::lemmas::Steps::inside_grid))]
fn is_closed(level: &Level, table: &DistanceTable, square: Square, side: Side) -> bool
    ensures { IsTrue result → IsClosed level.now table.now square side }
{
    level.tell();
    for index in 0..level.squares() {
        if !stays_in(level, table, square, side, Square(index as u16)) {
            return false;
        }
    }
    true
}

// Whether no step from the player's square leaves the side of a lone box.
fn stays_in(
    level: &Level,
    table: &DistanceTable,
    square: Square,
    side: Side,
    player: Square,
) -> bool
    requires inside { player < length level.now.cells }
    ensures { IsTrue result → (d : Dir) → StaysIn level.now table.now square side player d }
{
    if level.is_wall(player) || player == square || !side.has(table.spot(player).number) {
        return true;
    }
    let down = is_in(level, table, square, side, level.next(player, Dir::D));
    let left = is_in(level, table, square, side, level.next(player, Dir::L));
    let right = is_in(level, table, square, side, level.next(player, Dir::R));
    let up = is_in(level, table, square, side, level.next(player, Dir::U));
    down & left & right & up
}

// Whether a square is a wall, or on this side of the lone box.
fn is_in(level: &Level, table: &DistanceTable, square: Square, side: Side, player: Square) -> bool
    ensures { IsTrue result → CanStand level.now square player →
        has_number side (spot_of table.now.spots.items player).number ≡ true }
{
    level.is_wall(player) || player == square || side.has(table.spot(player).number)
}

// Whether a box on a goal has distance 0 to it, wherever the player is.
#[tactic(auto, using(crate::proofs::Checking::none_at_home))]
fn are_zero_at_home(level: &Level, table: &DistanceTable) -> bool
    ensures { IsTrue result → AreZeroAtHome level.now table.now }
{
    for (place, goal) in table.goals.as_slice().iter().enumerate() {
        if !is_zero_at_home(level, table, place, *goal) {
            return false;
        }
    }
    true
}

// Whether a box on a goal with this index has distance 0 to it, wherever the player is.
fn is_zero_at_home(level: &Level, table: &DistanceTable, place: usize, goal: Square) -> bool
    ensures { IsTrue result → (p : ℕ) → p < length level.now.cells →
        slice_index_or (row_in table.now goal p) place 0 ≡ 0 }
{
    level.tell();
    for index in 0..level.squares() {
        if number_at(table.row(goal, Square(index as u16)), place) != 0 {
            return false;
        }
    }
    true
}

// The number at an index; 0 if there is none.
fn number_at(numbers: &[u32], place: usize) -> u32
    ensures { result ≡ slice_index_or numbers.now place 0 }
{
    match numbers.get(place) {
        Some(number) => *number,
        None => 0,
    }
}

// Whether each push lessens each distance of the box by at most one, and keeps those of `NEVER`.
fn lessen_by_one(level: &Level, table: &DistanceTable) -> bool
    ensures { IsTrue result → DistancesLessenByOne level.now table.now }
{
    level.tell();
    for index in 0..level.squares() {
        if !lessen_from(level, table, Square(index as u16)) {
            return false;
        }
    }
    true
}

// Whether each push of the player from a square lessens each distance of the box by at most one.
fn lessen_from(level: &Level, table: &DistanceTable, player: Square) -> bool
    requires { player < length level.now.cells }
    ensures { IsTrue result → (d : Dir) → LessensByOne level.now table.now player d }
{
    let down = lessens_by_one(level, table, player, Dir::D);
    let left = lessens_by_one(level, table, player, Dir::L);
    let right = lessens_by_one(level, table, player, Dir::R);
    let up = lessens_by_one(level, table, player, Dir::U);
    down & left & right & up
}

// Whether a push of the player from a square lessens each distance of the box by at most one.
#[tactic(auto, using(grid::proofs::lemmas::Steps::inside_grid))]
fn lessens_by_one(level: &Level, table: &DistanceTable, player: Square, dir: Dir) -> bool
    requires { player < length level.now.cells }
    ensures { IsTrue result → LessensByOne level.now table.now player dir }
{
    if level.is_wall(player) {
        return true;
    }
    let from = level.next(player, dir);
    if level.is_wall(from) {
        return true;
    }
    let to = level.next(from, dir);
    if level.is_wall(to) {
        return true;
    }
    are_within_one(table.row(from, player), table.row(to, from))
}

// Whether each number is at most one more than the other with its index, and those of `NEVER` or more have such
// another.
fn are_within_one(numbers: &[u32], others: &[u32]) -> bool
    ensures { IsTrue result → AreWithinOne numbers.now others.now }
{
    if numbers.len() > others.len() {
        return false;
    }
    let mut within = true;
    let mut never = true;
    for (place, number) in numbers.iter().enumerate() {
        within &= *number <= others[place].saturating_add(1);
        never &= *number < NEVER || others[place] >= NEVER;
    }
    within & never
}
