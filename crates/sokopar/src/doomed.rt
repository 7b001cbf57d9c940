//! The remark on a lawful level.
ghost use Rattle.std.specs.Prelude.{◌≡◌, ℕ, ◌<◌, [], true, length, IfOk, MatchBool, MatchOption};
ghost use Rattle.doom.specs.Deadlocks.{IsFrozen, Undoomed};
ghost use Rattle.doom.specs.Lost.{IsLost};
ghost use Rattle.grid.specs.Board.{IsSolved, goal_cell, start};
ghost use Rattle.grid.specs.Squares.{Squares, contains, places_from};
ghost use Rattle.grid.specs.States.{IsScene, Steps, start_boxes};
ghost use Rattle.grid.specs.declared.state.Step.TheVariants.{Blocked};
ghost use Rattle.sokopar.specs.Explaining.{AreIn, IsIn, IsRemarkOnLevel, endangered};
ghost use Rattle.sokopar.specs.Judging.{IsUnsolvable};
ghost use Rattle.sokopar.specs.inside.Explaining.{AreAmong, AreFrozen, AreSafe, IsLostBy};

use crate::remark::{Plight, Remark};
use area::Scratch;
use doom::laws::doomed_are_lost;
use doom::{Dead, any_frozen};
use grid::{Dir, Level, MAX_BOXES, Position, Square, State, Step};
use prices::{Distances, Matching};
use std::alloc::{AllocError, Global};

/// The most squares times boxes of a level whose boxes are matched with goals.
const MOST_MATCHED: usize = 65_536;

/// Whether the box or the goal on a square is in this plight.
#[tactic(auto, unfolding(grid::specs::States::has_box))]
fn is_in(level: &Level, dead: &Dead, plight: Plight, square: Square) -> bool
    requires { dead.now ≡ level.now }
    ensures { MatchBool result (IsIn level.now plight square) (¬ (IsIn level.now plight square)) }
{
    match plight {
        Plight::Unreached => !level.in_room(square) && !level.is_goal(square),
        Plight::Unfilled => !level.in_room(square) && !level.has_box(square),
        Plight::OnDead => dead.is_dead(square),
    }
}

/// Those of the squares that are in this plight.
fn those_in(
    alloc: Global,
    level: &Level,
    dead: &Dead,
    plight: Plight,
    squares: &[Square],
) -> Result<Vec<Square>, AllocError>
    requires { dead.now ≡ level.now }
    ensures { IfOk result (λ found. AreIn level.now plight squares.now found.items) }
{
    let mut found = Vec::new(alloc);
    for square in squares {
        if is_in(level, dead, plight, *square) {
            found.push(*square)?;
        }
    }
    Ok(found)
}

/// Those of the squares that are in this plight; `None` if there are none.
fn some_in(
    alloc: Global,
    level: &Level,
    dead: &Dead,
    plight: Plight,
    squares: &[Square],
) -> Result<Option<Vec<Square>>, AllocError>
    requires dead_of_level { dead.now ≡ level.now }
    requires all { squares.now ≡ endangered level.now plight }
    ensures { IfOk result (λ found. MatchOption found (AreIn level.now plight (endangered level.now plight) [])
        (λ squares. IsLostBy level.now plight squares.items)) }
{
    let found = those_in(alloc, level, dead, plight, squares)?;
    if found.is_empty() {
        return Ok(None);
    }
    Ok(Some(found))
}

/// The boxes without one of them.
fn without(alloc: Global, boxes: &[Square], square: Square) -> Result<Vec<Square>, AllocError>
    ensures { IfOk result (λ others. AreAmong others.items boxes.now) }
{
    let mut others = Vec::new(alloc);
    for one in boxes {
        if *one != square {
            others.push(*one)?;
        }
    }
    Ok(others)
}

/// Some of the boxes that are frozen, without each box that these are frozen without.
fn fewest_frozen(
    alloc: Global,
    level: &Level,
    dead: &Dead,
    boxes: &[Square],
    scratch: &mut Scratch,
) -> Result<Vec<Square>, AllocError>
    requires inside { (q : ℕ) → contains boxes.now q ≡ true → q < length level.now.cells }
    requires dead_of_level { dead.now ≡ level.now }
    requires room { scratch.old.size ≡ length level.now.cells }
    requires frozen { (members : Squares) × IsFrozen level.now boxes.now members }
    ensures among { IfOk result (λ few. AreAmong few.items boxes.now) }
    ensures frozen { IfOk result (λ few. (members : Squares) × IsFrozen level.now few.items members) }
{
    let mut few = Vec::from_slice(alloc, boxes)?;
    for square in boxes {
        let others = without(alloc, few.as_slice(), *square)?;
        if any_frozen(level, dead, others.as_slice(), scratch) {
            few = others;
        }
    }
    Ok(few)
}

/// Some of the boxes that are frozen, at least one of them off goal; `None` if there are none. Of many boxes, all.
fn frozen_part(
    alloc: Global,
    level: &Level,
    dead: &Dead,
    boxes: &[Square],
) -> Result<Option<Vec<Square>>, AllocError>
    requires inside { (q : ℕ) → contains boxes.now q ≡ true → q < length level.now.cells }
    requires dead_of_level { dead.now ≡ level.now }
    ensures { IfOk result (λ found. MatchOption found (¬ ((members : Squares) × IsFrozen level.now boxes.now members))
        (λ few. AreFrozen level.now boxes.now few.items)) }
{
    let mut scratch = Scratch::new(alloc, level)?;
    if !any_frozen(level, dead, boxes, &mut scratch) {
        drop(scratch);
        return Ok(None);
    }
    if boxes.len() > MAX_BOXES {
        drop(scratch);
        return Ok(Some(Vec::from_slice(alloc, boxes)?));
    }
    let few = fewest_frozen(alloc, level, dead, boxes, &mut scratch);
    drop(scratch);
    Ok(Some(few?))
}

/// The boxes and goals of a level that make it unsolvable: the boxes that the player never gets to; or else the goals
/// to which no box gets; or else the boxes on dead squares. `None` if there are none.
fn lost_in(
    alloc: Global,
    level: &Level,
    dead: &Dead,
    boxes: &[Square],
    goals: &[Square],
) -> Result<Option<(Plight, Vec<Square>)>, AllocError>
    requires dead_of_level { dead.now ≡ level.now }
    requires boxes { boxes.now ≡ start_boxes level.now }
    requires goals { goals.now ≡ places_from goal_cell 0 level.now.cells }
    ensures { IfOk result (λ found. MatchOption found (AreSafe level.now)
        (λ lost. IsLostBy level.now lost.0 lost.1.items)) }
{
    if let Some(squares) = some_in(alloc, level, dead, Plight::Unreached, boxes)? {
        return Ok(Some((Plight::Unreached, squares)));
    }
    if let Some(squares) = some_in(alloc, level, dead, Plight::Unfilled, goals)? {
        return Ok(Some((Plight::Unfilled, squares)));
    }
    if let Some(squares) = some_in(alloc, level, dead, Plight::OnDead, boxes)? {
        return Ok(Some((Plight::OnDead, squares)));
    }
    Ok(None)
}

/// Whether no step is possible at the start of a level.
fn is_stuck(alloc: Global, level: &Level) -> Result<bool, AllocError>
    ensures { IfOk result (λ stuck. stuck ≡ true → (d : Dir) →
        Steps level.now (start level.now) d Blocked (start level.now)) }
{
    let mut state = State::start(alloc, level)?;
    for dir in Dir::ALL {
        match state.step(level, dir) {
            Step::Blocked => (),
            _ => return Ok(false),
        }
    }
    Ok(true)
}

/// Whether some boxes of a state get to fewer goals than they are, by these distances.
fn is_unmatched_by(distances: &Distances, position: &Position) -> bool
    requires { IsScene distances.now.level position.now }
    ensures { result ≡ true → IsLost distances.now.level position.now }
{
    let mut matching = Matching::new();
    distances.meet(position, &mut matching);
    distances.is_lost(position, &matching)
}

/// Whether some boxes of a level get to fewer goals than they are. Of many boxes and in large levels, no.
fn is_unmatched(alloc: Global, level: &Level) -> Result<bool, AllocError>
    ensures { IfOk result (λ unmatched. unmatched ≡ true → IsUnsolvable level.now) }
{
    level.tell_start();
    if level.squares().saturating_mul(level.boxes()) > MOST_MATCHED {
        return Ok(false);
    }
    let Some(position) = Position::start(level) else {
        return Ok(false);
    };
    let distances = Distances::of(alloc, level)?;
    Ok(is_unmatched_by(&distances, &position))
}

/// The remark on a lawful level that is not solved, in which no squares are in a plight and no boxes frozen.
fn remark_of_free(alloc: Global, level: &Level) -> Result<Remark, AllocError>
    requires unsolved { ¬ (IsSolved level.now (start level.now)) }
    requires safe { AreSafe level.now }
    requires undoomed { Undoomed level.now (start level.now) }
    ensures { IfOk result (IsRemarkOnLevel level.now) }
{
    level.tell_start();
    if is_stuck(alloc, level)? {
        return Ok(Remark::Stuck);
    }
    if is_unmatched(alloc, level)? {
        return Ok(Remark::Unmatched);
    }
    Ok(Remark::Sound)
}

/// The remark on a lawful level with these boxes, in which no squares are in a plight.
fn remark_of_safe(
    alloc: Global,
    level: &Level,
    dead: &Dead,
    boxes: &[Square],
) -> Result<Remark, AllocError>
    requires start { boxes.now ≡ start_boxes level.now }
    requires dead_of_level { dead.now ≡ level.now }
    requires unsolved { ¬ (IsSolved level.now (start level.now)) }
    requires safe { AreSafe level.now }
    ensures { IfOk result (IsRemarkOnLevel level.now) }
{
    level.tell_start();
    doomed_are_lost(level);
    match frozen_part(alloc, level, dead, boxes)? {
        Some(few) => Ok(Remark::Frozen(few)),
        None => remark_of_free(alloc, level),
    }
}

/// The remark on a lawful level with these boxes and goals that is not solved, given its dead squares.
fn remark_with(
    alloc: Global,
    level: &Level,
    dead: &Dead,
    boxes: &[Square],
    goals: &[Square],
) -> Result<Remark, AllocError>
    requires boxes { boxes.now ≡ start_boxes level.now }
    requires goals { goals.now ≡ places_from goal_cell 0 level.now.cells }
    requires dead_of_level { dead.now ≡ level.now }
    requires unsolved { ¬ (IsSolved level.now (start level.now)) }
    ensures { IfOk result (IsRemarkOnLevel level.now) }
{
    level.tell();
    level.tell_start();
    doomed_are_lost(level);
    match lost_in(alloc, level, dead, boxes, goals)? {
        Some((plight, squares)) => Ok(Remark::Lost { plight, squares }),
        None => remark_of_safe(alloc, level, dead, boxes),
    }
}

/// The remark on a lawful level with these boxes and goals.
pub(crate) fn remark_of_level(
    alloc: Global,
    level: &Level,
    boxes: &[Square],
    goals: &[Square],
) -> Result<Remark, AllocError>
    requires boxes { boxes.now ≡ start_boxes level.now }
    requires goals { goals.now ≡ places_from goal_cell 0 level.now.cells }
    ensures { IfOk result (IsRemarkOnLevel level.now) }
{
    if level.are_on_goals(boxes) {
        return Ok(Remark::Solved);
    }
    let dead = Dead::of(alloc, level)?;
    remark_with(alloc, level, &dead, boxes, goals)
}
