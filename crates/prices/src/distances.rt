ghost use Rattle.std.specs.Prelude.{◌≡◌, ℕ, ◌<◌, ◌≤◌, IfOk, IsTrue, drop, length, take};
ghost use Rattle.grid.specs.Lawful.{box_count};
ghost use Rattle.grid.specs.States.{IsScene};
ghost use Rattle.doom.specs.Lost.{IsLost};
ghost use Rattle.prices.specs.Solving.{NoneWithin};
ghost use Rattle.prices.specs.Prices.{AreFar, ComesOfTolls, goals_of};
ghost use Rattle.prices.specs.inside.Checks.{StayAway};
ghost use Rattle.prices.specs.inside.Tables.{far_in, row_in, row_start};

use crate::check::make_sure;
use crate::lost::mark_count;
use crate::matching::Matching;
use crate::needs::sum;
use crate::pulls::distances;
use crate::sides::sides_of;
use crate::table::{DistanceTable, part};
use grid::{Level, MAX_BOXES, Position, Square};
use std::alloc::{AllocError, Global};
use std::marker::Model;

/// The pushes that a lone box needs to each goal of a level, by its square and the side of it on which the player is.
/// Contracts see the level and the numbers.
///
/// It takes four bytes for each goal and each side of each square, 17 MB in the largest rooms with 64 goals. There it
/// distinguishes the sides of the first thousand squares that cut the room; in rooms of up to 8,192 squares, of all.
#[derive(Drop)]
pub struct Distances {
    pub(crate) level: Level,
    pub(crate) table: DistanceTable,
}

impl Model for Distances {
    ghost use Rattle.std.specs.Prelude.{◌≡◌};
    ghost use Rattle.prices.specs.Prices.{AreFar, goals_of};
    ghost use Rattle.prices.specs.inside.Checks.{StayAway};
    ghost use Rattle.prices.specs.inside.Tables.{far_in};
    ghost use Rattle.prices.specs.inside.Views.{DistancesView};

    ghost Value = { DistancesView };

    ghost view = { λ a. record { level = a.level; table = a.table } };

    ghost invariant = { λ a. AreFar a.level (far_in a.table) × (a.table.goals.items ≡ goals_of a.level) ×
        StayAway a.level (far_in a.table) };
}

impl Distances {
    /// The distances of a level with at most [`MAX_BOXES`] boxes. Fails only if out of memory.
    pub fn of(alloc: Global, level: &Level) -> Result<Distances, AllocError>
        requires { box_count level.now ≤ MAX_BOXES }
        ensures { IfOk result (λ distances. distances.level ≡ level.now) }
    {
        let mut table = empty_table(alloc, level)?;
        table.far = distances(alloc, level, &table)?;
        make_sure(level, &mut table);
        Ok(Distances {
            level: level.copy()?,
            table,
        })
    }

    /// Matches the boxes of a position with the goals, for callers that need only the matching's tolls. Takes no
    /// memory.
    pub fn meet(&self, position: &Position, matching: &mut Matching) {
        matching.meet(&self.table, position);
    }

    /// A lower bound on the pushes that the boxes need: no play from the position with fewer ends solved. It is
    /// [`NEVER`](crate::NEVER) or more if the distances say that the boxes cannot all come to goals of their own.
    /// Takes no memory. The matching may be that of any position; one of a position that differs by a push or two is
    /// fastest.
    pub fn lower(&self, position: &Position, matching: &mut Matching) -> u64
        requires { IsScene self.now.level position.now }
        ensures bound { (m : ℕ) → m < result → NoneWithin self.now.level m position.now }
        ensures tolls { ComesOfTolls self.now.level (far_in self.now.table) position.now result }
    {
        matching.meet(&self.table, position);
        self.needs_above(position, matching.tolls(self.table.goals.len()))
    }

    /// Whether some boxes can come only to goals that are fewer than these boxes: then no play from the position ends
    /// solved. The matching is that of the position, as `lower` or `meet` leaves it; with another the result may be
    /// `false`, which says nothing. Takes no memory.
    #[tactic(auto, using(crate::proofs::Losing::more_than_goals))]
    pub fn is_lost(&self, position: &Position, matching: &Matching) -> bool
        requires { IsScene self.now.level position.now }
        ensures { IsTrue result → IsLost self.now.level position.now }
    {
        let wanted = matching.wanted(&self.table);
        let marks = part(&wanted, 0, self.table.goals.len());
        if marks.len() != self.table.goals.len() {
            return false;
        }
        let keep = self
            .table
            .keep_to(marks, position.boxes(), position.player());
        mark_count(marks) < keep
    }

    /// States that the distances are lower bounds, for each goal of the level, and that a box that cannot come to a
    /// goal cannot come there after a push either. It does nothing; call it in proofs.
    pub fn tell(&self)
        ensures far { AreFar self.now.level (far_in self.now.table) }
        ensures away { StayAway self.now.level (far_in self.now.table) }
        ensures goals { self.now.table.goals.items ≡ goals_of self.now.level }
    {
        let _ = &self.table;
    }

    /// The number of goals.
    pub fn goals(&self) -> usize
        ensures { result ≡ length (goals_of self.now.level) }
    {
        self.table.goals.len()
    }

    /// The distances of a lone box to each goal, in the order of the goals, with the player on the second square. Empty
    /// if the distances did not pass their check; each then counts as 0.
    #[inline(always)]
    pub fn row(&self, square: Square, player: Square) -> &[u32]
        ensures { result.now ≡ row_in self.now.table square player }
    {
        self.table.row(square, player)
    }

    /// The index of the first distance of that row among the distances of all rows.
    #[inline(always)]
    pub fn row_start(&self, square: Square, player: Square) -> usize
        ensures { result ≡ row_start self.now.table.spots.items self.now.table.sides.items square player }
    {
        self.table.row_start(square, player) as usize
    }

    /// The row whose first distance has this index. It is shorter than a row if the distances end before.
    pub fn row_at(&self, start: usize) -> &[u32]
        ensures { result.now ≡ take (length self.now.table.goals.items) (drop start self.now.table.far.items) }
    {
        part(self.table.far.as_slice(), start, self.table.goals.len())
    }

    /// The number of distances of all rows.
    pub fn count(&self) -> usize {
        self.table.far.len()
    }

    // What the boxes need above the sum of these tolls; 0 if there is not one toll for each goal.
    #[tactic(auto, using(crate::proofs::Sums::none_above))]
    fn needs_above(&self, position: &Position, tolls: &[u32]) -> u64
        requires { length tolls.now ≤ MAX_BOXES }
        ensures { ComesOfTolls self.now.level (far_in self.now.table) position.now result }
    {
        if tolls.len() != self.table.goals.len() {
            return 0;
        }
        let needs = self.table.needs(position.boxes(), position.player(), tolls);
        needs.saturating_sub(sum(tolls))
    }
}

// A table of the level's goals and sides, without distances.
fn empty_table(alloc: Global, level: &Level) -> Result<DistanceTable, AllocError>
    ensures { IfOk result (λ table. table.goals.items ≡ goals_of level.now) }
{
    let goals = goal_squares(alloc, level)?;
    let count = u32::try_from(goals.len()).unwrap_or(u32::MAX);
    let sides = sides_of(alloc, level, count)?;
    Ok(DistanceTable {
        goals,
        spots: sides.spots,
        sides: sides.sides,
        far: Vec::new(alloc),
    })
}

// The squares with goals, in rising order.
#[tactic(auto, using(crate::proofs::Goals::all_gathered))]
fn goal_squares(alloc: Global, level: &Level) -> Result<Vec<Square>, AllocError>
    ensures { IfOk result (λ goals. goals.items ≡ goals_of level.now) }
{
    level.tell();
    let mut goals = Vec::new(alloc);
    for index in 0..level.squares() {
        let square = Square(index as u16);
        if level.is_goal(square) {
            goals.push(square)?;
        }
    }
    Ok(goals)
}
