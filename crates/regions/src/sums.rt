//! What all regions of a plan say, and what they count.
ghost use Rattle.std.specs.Prelude.{◌≡◌, ◌≤◌, ◌<◌, ℕ, IfNone, IfSome, IsTrue, Some, length};
ghost use Rattle.grid.specs.Board.{next};
ghost use Rattle.grid.specs.States.{FitsLevel};
ghost use Rattle.doom.specs.Lost.{IsLost};
ghost use Rattle.grid.specs.declared.dir.Dir.{Dir};
ghost use Rattle.prices.specs.Solving.{NoneWithin};
ghost use Rattle.prices.specs.inside.Tables.{far_in};
ghost use Rattle.regions.specs.Regions.{AreFinite, ArePaid, AreRegions, HasEndless, excess_of, waste_of};
ghost use Rattle.regions.specs.inside.Checks.{IsPaid};
ghost use Rattle.regions.specs.inside.Needs.{need_under};
ghost use Rattle.regions.specs.inside.Sound.{AreSound, IsTaken};
ghost use Rattle.regions.specs.inside.Views.{parts_of};

use crate::needs::{can_come, need, total_need};
use crate::plan::{Job, Plan};
use crate::table::ENDLESS;
use grid::{Dir, Level, Position, Square};
use prices::Distances;

/// Whether the jobs are of this level, and count no more for each push than it wastes under the tolls.
pub(crate) fn are_sound(level: &Level, distances: &Distances, tolls: &[u32], jobs: &[Job]) -> bool
    requires { level.now ≡ distances.now.level }
    ensures { IsTrue result → AreSound distances.now tolls.now jobs.now }
{
    let same = are_of(jobs, level);
    let paid = are_paid(level, distances, tolls, jobs);
    same & paid
}

// Whether all jobs are of this level.
fn are_of(jobs: &[Job], level: &Level) -> bool
    ensures { IsTrue result → AreRegions level.now (parts_of jobs.now) }
{
    let [first, rest @ ..] = jobs else {
        return true;
    };
    first.tell();
    first.is_of(level) && are_of(rest, level)
}

// Whether each push wastes what all regions count for it.
fn are_paid(level: &Level, distances: &Distances, tolls: &[u32], jobs: &[Job]) -> bool
    requires { level.now ≡ distances.now.level }
    ensures { IsTrue result →
        ArePaid level.now (far_in distances.now.table) (need_under distances.now tolls.now) (parts_of jobs.now) }
{
    level.tell();
    for index in 0..level.squares() {
        if !are_paid_from(level, distances, tolls, jobs, Square(index as u16)) {
            return false;
        }
    }
    true
}

// Whether each push that the player can make from this square wastes at least what all regions together count for it.
fn are_paid_from(
    level: &Level,
    distances: &Distances,
    tolls: &[u32],
    jobs: &[Job],
    player: Square,
) -> bool
    requires level { level.now ≡ distances.now.level }
    requires inside { player < length level.now.cells }
    ensures { IsTrue result → (d : Dir) →
        IsPaid level.now (far_in distances.now.table) (need_under distances.now tolls.now) (parts_of jobs.now)
        player d }
{
    let down = is_paid(level, distances, tolls, jobs, player, Dir::D);
    let left = is_paid(level, distances, tolls, jobs, player, Dir::L);
    let right = is_paid(level, distances, tolls, jobs, player, Dir::R);
    let up = is_paid(level, distances, tolls, jobs, player, Dir::U);
    down & left & right & up
}

// Whether the player's push in a direction wastes what all regions count for it.
fn is_paid(
    level: &Level,
    distances: &Distances,
    tolls: &[u32],
    jobs: &[Job],
    player: Square,
    dir: Dir,
) -> bool
    requires level { level.now ≡ distances.now.level }
    requires inside { player < length level.now.cells }
    ensures { IsTrue result →
        IsPaid level.now (far_in distances.now.table) (need_under distances.now tolls.now) (parts_of jobs.now)
        player dir }
{
    let square = level.next(player, dir);
    if level.is_wall(square) {
        return true;
    }
    let to = level.next(square, dir);
    // no push starts or ends at a wall, and the distances of a wall say nothing
    if level.is_wall(player) || level.is_wall(to) {
        return true;
    }
    if !can_come(distances, to, square) {
        return true;
    }
    let Some(waste) = waste_of(jobs, square, dir) else {
        return false;
    };
    let before = need(distances, tolls, square, player);
    let after = need(distances, tolls, to, square);
    before + waste <= after + 1
}

// What all regions count of a push; `None` if that is endless for one of them, or very much.
fn waste_of(jobs: &[Job], square: Square, dir: Dir) -> Option<u64>
    ensures { IfSome result (λ sum. AreFinite (parts_of jobs.now) square dir ×
        (sum ≡ waste_of (parts_of jobs.now) square dir) × (sum ≤ 4294967295)) }
{
    let [first, rest @ ..] = jobs else {
        return Some(0);
    };
    let waste = first.waste(square, dir);
    if waste == ENDLESS {
        return None;
    }
    let Some(others) = waste_of(rest, square, dir) else {
        return None;
    };
    let sum = others + u64::from(waste);
    if sum > u64::from(u32::MAX) {
        return None;
    }
    Some(sum)
}

impl Plan {
    /// A lower bound on the pushes that the boxes need: their needs and what all regions say, above the tolls. `None`
    /// if a region says that its boxes can never all come to goals.
    pub(crate) fn lower(&self, distances: &Distances, position: &Position) -> Option<u64>
        requires taken { IsTaken distances.now (Some self.now) }
        requires fits { FitsLevel distances.now.level position.now }
        ensures bound { IfSome result (λ low. (m : ℕ) → m < low → NoneWithin distances.now.level m position.now) }
        ensures lost { IfNone result (IsLost distances.now.level position.now) }
    {
        distances.tell();
        let excess = excess_of(self.jobs.as_slice(), position)?;
        let needs = total_need(distances, self.needs.as_slice(), position);
        Some(needs.saturating_add(excess).saturating_sub(self.price))
    }
}

// What all regions say of a position, or less; `None` if that is endless for one of them.
fn excess_of(jobs: &[Job], position: &Position) -> Option<u64>
    ensures sum { IfSome result (λ sum. sum ≤ excess_of (parts_of jobs.now) position.now) }
    ensures endless { IfNone result (HasEndless (parts_of jobs.now) position.now) }
{
    let [first, rest @ ..] = jobs else {
        return Some(0);
    };
    let excess = first.says(position);
    if excess == ENDLESS {
        return None;
    }
    let others = excess_of(rest, position)?;
    Some(others.saturating_add(u64::from(excess)))
}
