//! The proved check that a choice of boxes and squares is a corral.
ghost use Rattle.std.specs.Prelude.{◌≡◌, ℕ, suc, ◌<◌, ◌&&◌, ◌||◌, not, true, IsTrue, length};
ghost use Rattle.std.specs.List.{list_all, list_any};
ghost use Rattle.grid.specs.Board.{is_goal};
ghost use Rattle.grid.specs.Masks.{has_bit};
ghost use Rattle.grid.specs.Squares.{contains};
ghost use Rattle.corrals.specs.Corrals.{IsBarred, IsClosure, IsReady, LeadsIn};
ghost use Rattle.prices.specs.Solving.{Allows};
ghost use Rattle.corrals.specs.inside.Checking.{IsReadyBox, are_inside, has_to_change, shut_beside, shut_round};
ghost use Rattle.corrals.specs.inside.Views.{HasRoom};

use crate::corral::Sets;
use crate::freezing::freezes;
use crate::ground::Ground;
use area::Scratch;
use grid::{Dir, Square};

/// Whether these boxes and squares are a corral in which something has to change, and whose pushes are ready. It fills
/// the sets with the boxes and the squares.
#[tactic(auto, using(crate::proofs::Looks::inside_words))]
pub(crate) fn is_closure(
    ground: &Ground<'_>,
    boxes: &[Square],
    squares: &[Square],
    sets: &mut Sets,
    spare: &mut Scratch,
) -> bool
    requires room { HasRoom (length ground.now.board.cells) sets.old }
    requires spare { spare.old.size ≡ length ground.now.board.cells }
    ensures closure { IsTrue result → (m : ℕ) → Allows ground.now.left m
        → IsClosure ground.now.board (suc m) (has_bit sets.new.held) (has_bit sets.new.room) ground.now.scene }
    ensures room { HasRoom (length ground.now.board.cells) sets.new }
    ensures spare { spare.new ≡ spare.old }
{
    if !are_inside(ground, boxes) {
        return false;
    }
    if !are_inside(ground, squares) {
        return false;
    }
    sets.held.put_all(boxes);
    sets.room.put_all(squares);
    let found = is_found(ground, boxes, squares, sets, spare);
    found
}

// Whether each square is a square of the level.
fn are_inside(ground: &Ground<'_>, squares: &[Square]) -> bool
    ensures { result ≡ are_inside ground.now.board squares.now }
{
    squares.iter().all(|square| ground.has(*square))
}

// `is_closure`, once the sets hold the boxes and the squares.
fn is_found(
    ground: &Ground<'_>,
    boxes: &[Square],
    squares: &[Square],
    sets: &Sets,
    spare: &mut Scratch,
) -> bool
    requires held { (q : ℕ) → has_bit sets.now.held q ≡ contains boxes.now q }
    requires room { (q : ℕ) → has_bit sets.now.room q ≡ contains squares.now q }
    requires spare { spare.old.size ≡ length ground.now.board.cells }
    ensures closure { IsTrue result → (m : ℕ) → Allows ground.now.left m
        → IsClosure ground.now.board (suc m) (has_bit sets.now.held) (has_bit sets.now.room) ground.now.scene }
    ensures spare { spare.new ≡ spare.old }
{
    let outside = !sets.room.has(ground.position().player());
    let changes = has_to_change(ground, boxes, squares);
    let shut = are_shut(ground, squares, sets);
    if !outside {
        return false;
    }
    if !changes {
        return false;
    }
    if !shut {
        return false;
    }
    let ready = are_ready(ground, boxes, sets, spare);
    ready
}

// Whether a box is off goal, or a square has a goal.
fn has_to_change(ground: &Ground<'_>, boxes: &[Square], squares: &[Square]) -> bool
    ensures { result ≡ has_to_change ground.now.board boxes.now squares.now }
{
    is_one_off_goal(ground, boxes) || has_goal(ground, squares)
}

// Whether one of the boxes is off goal.
fn is_one_off_goal(ground: &Ground<'_>, boxes: &[Square]) -> bool
    ensures { result ≡ list_any (λ q. not (is_goal ground.now.board q)) boxes.now }
{
    boxes.iter().any(|square| !ground.is_goal(*square))
}

// Whether one of the squares has a goal.
fn has_goal(ground: &Ground<'_>, squares: &[Square]) -> bool
    ensures { result ≡ list_any (λ q. is_goal ground.now.board q) squares.now }
{
    squares.iter().any(|square| ground.is_goal(*square))
}

// Whether none of the squares has a box, and their neighbours shut a room.
fn are_shut(ground: &Ground<'_>, squares: &[Square], sets: &Sets) -> bool
    ensures { result ≡ list_all
        (λ q. shut_round ground.now.board ground.now.scene.boxes (has_bit sets.now.held) (has_bit sets.now.room) q)
        squares.now }
{
    squares
        .iter()
        .all(|square| is_shut_round(ground, *square, sets))
}

// Whether the square is one of the level, has no box, and is shut in each direction.
fn is_shut_round(ground: &Ground<'_>, square: Square, sets: &Sets) -> bool
    ensures { result ≡ shut_round ground.now.board ground.now.scene.boxes (has_bit sets.now.held)
        (has_bit sets.now.room) square }
{
    ground.has(square)
        && (!ground.has_box(square)
            && (is_shut_beside(ground, square, Dir::D, sets)
                && (is_shut_beside(ground, square, Dir::L, sets)
                    && (is_shut_beside(ground, square, Dir::R, sets)
                        && is_shut_beside(ground, square, Dir::U, sets)))))
}

// Whether a wall, a square of the room or a held box is beside the square.
fn is_shut_beside(ground: &Ground<'_>, square: Square, dir: Dir, sets: &Sets) -> bool
    requires { square < length ground.now.board.cells }
    ensures { result ≡ shut_beside ground.now.board (has_bit sets.now.held) (has_bit sets.now.room) square dir }
{
    let beside = ground.next(square, dir);
    ground.is_wall(beside) || (sets.room.has(beside) || sets.held.has(beside))
}

// Whether each of the squares has a box, and all its pushes that could be the first of a held box are ready.
fn are_ready(ground: &Ground<'_>, boxes: &[Square], sets: &Sets, spare: &mut Scratch) -> bool
    requires held { (q : ℕ) → has_bit sets.now.held q ≡ contains boxes.now q }
    requires spare { spare.old.size ≡ length ground.now.board.cells }
    ensures ready { IsTrue result → (m : ℕ) → Allows ground.now.left m → (b : ℕ) → contains boxes.now b ≡ true
        → IsReadyBox ground.now.board (suc m) (has_bit sets.now.held) (has_bit sets.now.room) ground.now.scene b }
    ensures spare { spare.new ≡ spare.old }
{
    for square in boxes {
        if !is_ready_round(ground, boxes, *square, sets, spare) {
            return false;
        }
    }
    true
}

// `are_ready` for one square.
fn is_ready_round(
    ground: &Ground<'_>,
    boxes: &[Square],
    square: Square,
    sets: &Sets,
    spare: &mut Scratch,
) -> bool
    requires held { (q : ℕ) → has_bit sets.now.held q ≡ contains boxes.now q }
    requires spare { spare.old.size ≡ length ground.now.board.cells }
    ensures ready { IsTrue result → (m : ℕ) → Allows ground.now.left m
        → IsReadyBox ground.now.board (suc m) (has_bit sets.now.held) (has_bit sets.now.room) ground.now.scene square }
    ensures spare { spare.new ≡ spare.old }
{
    if !ground.has(square) || !ground.has_box(square) {
        return false;
    }
    let down = is_ready_along(ground, boxes, square, Dir::D, sets, spare);
    let left = is_ready_along(ground, boxes, square, Dir::L, sets, spare);
    let right = is_ready_along(ground, boxes, square, Dir::R, sets, spare);
    let up = is_ready_along(ground, boxes, square, Dir::U, sets, spare);
    down & left & right & up
}

// Whether the push of a held box in a direction is ready or cannot be the first.
#[tactic(auto, using(crate::proofs::Frozen::held_freeze))]
fn is_ready_along(
    ground: &Ground<'_>,
    boxes: &[Square],
    square: Square,
    dir: Dir,
    sets: &Sets,
    spare: &mut Scratch,
) -> bool
    requires inside { square < length ground.now.board.cells }
    requires held { (q : ℕ) → has_bit sets.now.held q ≡ contains boxes.now q }
    requires spare { spare.old.size ≡ length ground.now.board.cells }
    ensures ready { IsTrue result → (m : ℕ) → Allows ground.now.left m
        → IsReady ground.now.board (suc m) (has_bit sets.now.held) (has_bit sets.now.room) ground.now.scene square dir }
    ensures spare { spare.new ≡ spare.old }
{
    let barred = is_barred(ground, square, dir, sets);
    if barred {
        return true;
    }
    let useless = ground.never_helps(square, dir);
    if useless {
        return true;
    }
    let leads = leads_in(ground, square, dir, sets);
    if leads {
        return true;
    }
    let frozen = freezes(ground, boxes, square, dir, spare);
    frozen
}

// Whether the square behind a held box, or the square ahead, blocks its push.
fn is_barred(ground: &Ground<'_>, square: Square, dir: Dir, sets: &Sets) -> bool
    requires { square < length ground.now.board.cells }
    ensures { IsTrue result → IsBarred ground.now.board (has_bit sets.now.held) (has_bit sets.now.room) square dir }
{
    let behind = ground.next(square, dir.opposite());
    let ahead = ground.next(square, dir);
    let shut = ground.is_wall(behind) || (sets.held.has(behind) || sets.room.has(behind));
    let stopped = ground.is_wall(ahead) || sets.held.has(ahead);
    shut || stopped
}

// Whether the push leads into the room, and is possible now.
fn leads_in(ground: &Ground<'_>, square: Square, dir: Dir, sets: &Sets) -> bool
    requires { square < length ground.now.board.cells }
    ensures { IsTrue result → LeadsIn ground.now.board (has_bit sets.now.room) ground.now.scene square dir }
{
    let behind = ground.next(square, dir.opposite());
    let ahead = ground.next(square, dir);
    let inside = sets.room.has(ahead);
    let reached = ground.reaches(behind);
    inside && reached
}
