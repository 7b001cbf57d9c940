ghost use Rattle.std.specs.Prelude.{◌≡◌, ◌≤◌, IfNone, IfOk, IfSome, MatchOption, length};
ghost use Rattle.grid.specs.States.{FitsLevel};
ghost use Rattle.doom.specs.Bounds.{IsFar, IsLower};
ghost use Rattle.doom.specs.Sums.{HaveDead, LessenByOne, NeedAtLeast};
ghost use Rattle.doom.specs.Deadlocks.{IsDead};
ghost use Rattle.doom.specs.Lost.{AreLost};
ghost use Rattle.doom.specs.inside.Pulling.{far_at};

use crate::pulls::distances;
use grid::{Level, MAX_BOXES, Position, Square};
use std::alloc::{AllocError, Global};
use std::marker::Model;

/// A lower bound on the pushes that positions of a level need: for each square the fewest pushes that take a lone box
/// from there to a goal. It is made once for a level. Contracts show the level that it was made of.
#[derive(Drop)]
pub struct Bound {
    level: Level,
    // for each square its distance, none where it is dead
    far: Vec<Option<u16>>,
}

impl Model for Bound {
    ghost use Rattle.grid.specs.Board.{Board};
    ghost use Rattle.doom.specs.inside.Pulling.{AreDistances};

    ghost Value = { Board };

    ghost view = { λ a. a.level };

    ghost invariant = { λ a. AreDistances a.level a.far.items };
}

impl Bound {
    /// The bound of a level, in time linear in its squares. The only error is running out of memory.
    pub fn of(alloc: Global, level: &Level) -> Result<Bound, AllocError>
        ensures { IfOk result (λ bound. bound ≡ level.now) }
    {
        let far = distances(alloc, level)?;
        Ok(Bound {
            level: level.copy()?,
            far,
        })
    }

    /// The sum over the boxes of the fewest pushes that each needs to some goal, as if it were alone; `None` exactly
    /// if a box is on a dead square. No play that ends solved has fewer pushes, and if there is no sum there is no
    /// such play. A push lessens the sum by one at most
    /// ([`a_push_lessens_the_bound_by_one`](crate::laws::a_push_lessens_the_bound_by_one)). Visits each box once, and
    /// allocates no memory.
    pub fn lower(&self, position: &Position) -> Option<u32>
        requires { FitsLevel self.now position.now }
        ensures lower { MatchOption result (HaveDead self.now position.now.boxes)
            (λ low. IsLower self.now position.now.boxes low) }
        ensures needed { IfSome result (λ low. NeedAtLeast self.now position.now.boxes low) }
        ensures pushed { IfSome result (λ low. LessenByOne self.now position.now.boxes low) }
        ensures lost { IfNone result (AreLost self.now position.now.boxes) }
    {
        self.sum(position.boxes())
    }

    // The sum of the boxes' distances; `None` exactly if one is on a dead square.
    fn sum(&self, boxes: &[Square]) -> Option<u32>
        requires { length boxes.now ≤ MAX_BOXES }
        ensures { MatchOption result (HaveDead self.now boxes.now) (λ low. IsLower self.now boxes.now low) }
    {
        let mut sum = 0;
        for square in boxes {
            sum += u32::from(self.distance(*square)?);
        }
        Some(sum)
    }

    // The fewest pushes that take a lone box from the square to a goal; `None` exactly if the square is dead.
    fn distance(&self, square: Square) -> Option<u16>
        ensures { MatchOption result (IsDead self.now square) (λ n. IsFar self.now square n) }
    {
        far_at(self.far.as_slice(), square)
    }
}

// The distance of a square in a list of them; none outside.
fn far_at(far: &[Option<u16>], square: Square) -> Option<u16>
    ensures { result ≡ far_at far.now square }
{
    far.get(square.0 as usize).copied().unwrap_or(None)
}
