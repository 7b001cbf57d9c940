ghost use Rattle.std.specs.Prelude.{◌≡◌, ◌<◌, ◌↔◌, IsTrue, IfOk, length};
ghost use Rattle.doom.specs.inside.Pulling.{AreLiveFlags, is_marked};
ghost use Rattle.doom.specs.inside.Holding.{IsFast, AreFast, AreGoals, AreHolds};

use area::SquareSet;
use grid::{Dir, Level, Square};
use std::alloc::{AllocError, Global};

/// The squares of a level where walls or dead squares hold a box, and the goals.
#[derive(Drop)]
pub(crate) struct Holds {
    /// The squares where a box is held across: it can be pushed neither left nor right.
    pub(crate) across: SquareSet,
    /// The squares where a box is held along: it can be pushed neither up nor down.
    pub(crate) along: SquareSet,
    /// The goals, where a box may be held.
    pub(crate) goals: SquareSet,
}

/// The squares where walls or dead squares hold a box on each axis, and the goals. The only error is running out of
/// memory.
pub(crate) fn holds_of(alloc: Global, level: &Level, live: &[bool]) -> Result<Holds, AllocError>
    requires { AreLiveFlags level.now live.now }
    ensures { IfOk result (λ holds. AreHolds level.now holds) }
{
    Ok(Holds {
        across: fast_squares(alloc, level, live, Dir::R)?,
        along: fast_squares(alloc, level, live, Dir::D)?,
        goals: goal_squares(alloc, level)?,
    })
}

/// The squares where walls or dead squares hold a box on the axis of the direction.
fn fast_squares(
    alloc: Global,
    level: &Level,
    live: &[bool],
    dir: Dir,
) -> Result<SquareSet, AllocError>
    requires { AreLiveFlags level.now live.now }
    ensures { IfOk result (λ set. AreFast level.now dir set) }
{
    level.tell();
    let squares = level.squares();
    let mut set = SquareSet::none(alloc, squares)?;
    for index in 0..squares {
        let square = Square(index as u16);
        if is_fast(level, live, square, dir) {
            set.put(square);
        }
    }
    Ok(set)
}

/// The squares that have a goal.
fn goal_squares(alloc: Global, level: &Level) -> Result<SquareSet, AllocError>
    ensures { IfOk result (λ set. AreGoals level.now set) }
{
    level.tell();
    let squares = level.squares();
    let mut set = SquareSet::none(alloc, squares)?;
    for index in 0..squares {
        let square = Square(index as u16);
        if level.is_goal(square) {
            set.put(square);
        }
    }
    Ok(set)
}

/// Whether the square has, on the axis of the direction, a wall beside it or two dead squares.
fn is_fast(level: &Level, live: &[bool], square: Square, dir: Dir) -> bool
    requires inside { square < length level.now.cells }
    requires live { AreLiveFlags level.now live.now }
    ensures { IsTrue result ↔ IsFast level.now square dir }
{
    let ahead = level.next(square, dir);
    let behind = level.next(square, dir.opposite());
    level.is_wall(ahead)
        || level.is_wall(behind)
        || !(is_marked(live, ahead) || is_marked(live, behind))
}

/// Whether the flag of the square is set.
fn is_marked(flags: &[bool], square: Square) -> bool
    ensures { result ≡ is_marked flags.now square }
{
    flags.get(square.0 as usize).copied().unwrap_or(false)
}
