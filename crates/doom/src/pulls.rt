//! The squares from which a lone box can be pushed to a goal, and their distances, found from the goals by pulls.
ghost use Rattle.std.specs.Prelude.{◌≡◌, ◌+◌, ◌<◌, ◌≤◌, Some, None, OnOk, IfOk, [], vec_len, length, map, is_some};
ghost use Rattle.std.specs.Prelude.{replicate};
ghost use Rattle.doom.specs.inside.Pulling.{AreDistances, AreLiveFlags, IsDue, IsFilling, IsTurn, Marks, Pulls, far_at};
ghost use Rattle.doom.specs.inside.Pulling.{unknown};

use grid::{Dir, Level, Square};
use std::alloc::{AllocError, Global};
use std::mem;

/// For each square of the level, whether it is live: a lone box can be pushed from it to some goal.
pub(crate) fn live_flags(alloc: Global, level: &Level) -> Result<Vec<bool>, AllocError>
    ensures { IfOk result (λ flags. AreLiveFlags level.now flags.items) }
{
    let far = distances(alloc, level)?;
    let flags = known_flags(alloc, far.as_slice())?;
    Ok(flags)
}

// For each square, whether its distance is known.
fn known_flags(alloc: Global, far: &[Option<u16>]) -> Result<Vec<bool>, AllocError>
    ensures { IfOk result (λ flags. flags.items ≡ map (λ x. is_some x) far.now) }
{
    far.iter().map(|steps| steps.is_some()).collect(alloc)
}

/// For each square of the level the fewest pushes that take a lone box from it to a goal; none if no pushes do.
pub(crate) fn distances(alloc: Global, level: &Level) -> Result<Vec<Option<u16>>, AllocError>
    ensures { IfOk result (λ far. AreDistances level.now far.items) }
{
    let mut found = PullSearch::goals(alloc, level)?;
    level.tell();
    let mut steps = 0;
    while !found.marked.is_empty() {
        steps += 1;
        mem::swap(&mut found.due, &mut found.marked);
        found.turn(level, steps)?;
    }
    Ok(found.far)
}

/// The distances found so far; the squares of the round before that boxes are still to be pulled from; and the squares
/// found in this round.
#[derive(Drop)]
struct PullSearch {
    far: Vec<Option<u16>>,
    due: Vec<Square>,
    marked: Vec<Square>,
}

impl PullSearch {
    /// Starts with the goals, which need no push.
    fn goals(alloc: Global, level: &Level) -> Result<PullSearch, AllocError>
        ensures filling { IfOk result (λ found. IsFilling level.now 0 found.far.items [] found.marked.items) }
        ensures due { IfOk result (λ found. found.due.items ≡ []) }
    {
        let squares = level.squares();
        let mut found = PullSearch {
            far: vec![in alloc; None; squares]?,
            due: Vec::with_capacity(alloc, squares)?,
            marked: Vec::with_capacity(alloc, squares)?,
        };
        found.mark_goals(level)?;
        Ok(found)
    }

    /// Marks the goals.
    fn mark_goals(&mut self, level: &Level) -> Result<(), AllocError>
        requires none { self.old.far.items ≡ replicate (length level.now.cells) None }
        requires clear { self.old.marked.items ≡ [] }
        ensures filling { OnOk result (IsFilling level.now 0 self.new.far.items [] self.new.marked.items) }
        ensures due { self.new.due.items ≡ self.old.due.items }
    {
        level.tell();
        for index in 0..level.squares() {
            let square = Square(index as u16);
            if level.is_goal(square) {
                self.mark(square, 0)?;
            }
        }
        Ok(())
    }

    /// Pulls a box from each square that is due; their distance is `steps - 1`.
    fn turn(&mut self, level: &Level, steps: u16) -> Result<(), AllocError>
        requires before { IsFilling level.now steps self.old.far.items self.old.due.items self.old.marked.items }
        ensures { OnOk result
            (IsTurn level.now steps self.old.far.items self.old.marked.items self.new.far.items self.new.due.items
            self.new.marked.items) }
    {
        while let Some(square) = self.due.pop() {
            self.pull_around(level, square, steps)?;
        }
        Ok(())
    }

    /// Pulls a box by one square from the square, in each direction.
    fn pull_around(&mut self, level: &Level, square: Square, steps: u16) -> Result<(), AllocError>
        requires before { IsDue level.now steps square 0 self.old.far.items self.old.due.items self.old.marked.items }
        ensures after { OnOk result
            (IsFilling level.now steps self.new.far.items self.new.due.items self.new.marked.items) }
        ensures due { self.new.due.items ≡ self.old.due.items }
        ensures count { OnOk result
            (vec_len self.new.marked + unknown self.new.far.items ≤ vec_len self.old.marked +
            unknown self.old.far.items) }
    {
        for dir in Dir::ALL {
            self.pull(level, square, dir, steps)?;
        }
        Ok(())
    }

    /// Pulls a box by one square, if it and the player have room. A square without a distance gets `steps`.
    fn pull(
        &mut self,
        level: &Level,
        square: Square,
        dir: Dir,
        steps: u16,
    ) -> Result<(), AllocError>
        requires inside { square < length level.now.cells }
        requires size { vec_len self.old.far ≡ length level.now.cells }
        ensures pulls { OnOk result
            (Pulls level.now steps square dir self.old.far.items self.old.marked.items self.new.far.items
            self.new.marked.items) }
        ensures due { self.new.due.items ≡ self.old.due.items }
    {
        let from = level.next(square, dir);
        if level.is_wall(from) || level.is_wall(level.next(from, dir)) {
            return Ok(());
        }
        self.mark(from, steps)
    }

    /// Notes the distance of a square, unless one is known.
    fn mark(&mut self, square: Square, steps: u16) -> Result<(), AllocError>
        requires { square < vec_len self.old.far }
        ensures marks { OnOk result
            (Marks steps square self.old.far.items self.old.marked.items self.new.far.items self.new.marked.items) }
        ensures due { self.new.due.items ≡ self.old.due.items }
    {
        let index = square.0 as usize;
        if self.far[index].is_none() {
            self.marked.push(square)?;
            self.far[index] = Some(steps);
        }
        Ok(())
    }
}
