ghost use Rattle.std.specs.Prelude.{◌≡◌, ◌≤◌, ◌<◌, ℕ, IfNone, IfOk, IfSome, IsTrue};
ghost use Rattle.grid.specs.Lawful.{box_count};
ghost use Rattle.grid.specs.States.{FitsLevel};
ghost use Rattle.doom.specs.Lost.{IsLost};
ghost use Rattle.prices.specs.Solving.{NoneWithin};
ghost use Rattle.regions.specs.inside.Sound.{AreSound, IsTaken};

use crate::choosing::{choose, choose_for};
use crate::needs::{needs_of, price};
use crate::plan::{Plan, plan_of};
use crate::sums::are_sound;
use grid::{Level, MAX_BOXES, Position};
use prices::{Distances, Matching, NEVER};
use std::alloc::{AllocError, Global};
use std::marker::Model;

/// The distances of a level, and up to three sets of regions with their tables. Contracts see the level.
#[derive(Drop)]
pub struct Regions {
    distances: Distances,
    plan: Option<Plan>,
    // the last two that were chosen for sampled positions
    earlier: Option<Plan>,
    latest: Option<Plan>,
}

impl Model for Regions {
    ghost use Rattle.std.specs.Prelude.{◌≡◌};
    ghost use Rattle.grid.specs.Board.{Board};
    ghost use Rattle.regions.specs.inside.Sound.{IsTaken};

    ghost Value = { Board };

    ghost view = { λ a. a.distances.level };

    ghost invariant = { λ a. IsTaken a.distances a.plan × IsTaken a.distances a.earlier ×
        IsTaken a.distances a.latest };
}

impl Regions {
    /// The regions of a level with at most [`MAX_BOXES`] boxes, without tables: the bounds are those of [`Distances`].
    /// Fails only if out of memory.
    pub fn of_prices(alloc: Global, level: &Level) -> Result<Regions, AllocError>
        requires { box_count level.now ≤ MAX_BOXES }
        ensures { IfOk result (λ regions. regions ≡ level.now) }
    {
        let far = Distances::of(alloc, level)?;
        Ok(Regions {
            distances: far,
            plan: None,
            earlier: None,
            latest: None,
        })
    }

    /// The distances of lone boxes.
    pub fn distances(&self) -> &Distances
        ensures { result.now.level ≡ self.now }
    {
        &self.distances
    }

    /// Chooses regions of a level, and tolls that suit the start. Each table takes at most `bytes` bytes. The choice
    /// has no contract. Fails only if out of memory.
    pub fn plan(&self, alloc: Global, level: &Level, bytes: usize) -> Result<Plan, AllocError> {
        let choice = choose(alloc, level, &self.distances, bytes)?;
        plan_of(alloc, level, choice)
    }

    /// Chooses regions and tolls that suit sampled positions, for [`Regions::take_later`]: the first regions lie where
    /// the boxes of the samples are in each other's way. Each table takes at most `bytes` bytes. Takes up to some
    /// seconds. The choice has no contract. Fails only if out of memory.
    pub fn plan_for(
        &self,
        alloc: Global,
        level: &Level,
        bytes: usize,
        samples: &[Position],
    ) -> Result<Plan, AllocError> {
        let choice = choose_for(alloc, level, &self.distances, bytes, samples)?;
        plan_of(alloc, level, choice)
    }

    /// Takes the tables of a plan that passed their check, in place of those before. A plan of another level, or one
    /// whose regions count more for a push than it wastes, changes nothing. Fails only if out of memory, and then
    /// changes nothing.
    pub fn take(&mut self, alloc: Global, level: &Level, plan: Plan) -> Result<(), AllocError>
        requires { level.now ≡ self.old }
        ensures { self.new ≡ self.old }
    {
        if let Some(plan) = taken(alloc, level, &self.distances, plan)? {
            self.plan = Some(plan);
        }
        Ok(())
    }

    /// Adds the tables of a plan that passed their check. Those of [`Regions::take`] and of the last call stay, older
    /// ones go. A plan of another level, or one whose regions count more for a push than it wastes, changes nothing.
    /// Fails only if out of memory, and then changes nothing.
    pub fn take_later(&mut self, alloc: Global, level: &Level, plan: Plan) -> Result<(), AllocError>
        requires { level.now ≡ self.old }
        ensures { self.new ≡ self.old }
    {
        if let Some(plan) = taken(alloc, level, &self.distances, plan)? {
            self.earlier = self.latest.take();
            self.latest = Some(plan);
        }
        Ok(())
    }

    /// A lower bound on the pushes that the boxes need: no play from the position with fewer ends solved. It is the
    /// greatest of the matching's and of what each set of regions says. `None` only if no play from the position ends
    /// solved. Takes no memory. The matching may be that of any position; one of a position that differs by a push or
    /// two is fastest.
    pub fn lower(&self, position: &Position, matching: &mut Matching) -> Option<u64>
        requires { FitsLevel self.now position.now }
        ensures bound { IfSome result (λ low. (m : ℕ) → m < low → NoneWithin self.now m position.now) }
        ensures lost { IfNone result (IsLost self.now position.now) }
    {
        let low = self.distances.lower(position, matching);
        if low >= u64::from(NEVER) && self.distances.is_lost(position, matching) {
            return None;
        }
        let first = lower_of(&self.distances, &self.plan, position)?;
        let second = lower_of(&self.distances, &self.earlier, position)?;
        let third = lower_of(&self.distances, &self.latest, position)?;
        Some(low.max(first).max(second.max(third)))
    }
}

// The plan with what boxes need under its tolls, if it is of the level, and its regions count no more for a push than
// it wastes.
fn taken(
    alloc: Global,
    level: &Level,
    distances: &Distances,
    plan: Plan,
) -> Result<Option<Plan>, AllocError>
    requires { level.now ≡ distances.now.level }
    ensures { IfOk result (λ plan. IsTaken distances.now plan) }
{
    if distances.goals() > MAX_BOXES || !is_sound(level, distances, &plan) {
        return Ok(None);
    }
    let Plan { tolls, jobs, .. } = plan;
    let needs = needs_of(alloc, distances, tolls.as_slice())?;
    let price = price(distances, tolls.as_slice());
    Ok(Some(Plan {
        tolls,
        jobs,
        needs,
        price,
    }))
}

// Whether the plan is of the level, and its regions count no more for a push than it wastes.
fn is_sound(level: &Level, distances: &Distances, plan: &Plan) -> bool
    requires { level.now ≡ distances.now.level }
    ensures { IsTrue result → AreSound distances.now plan.now.tolls.items plan.now.jobs.items }
{
    are_sound(
        level,
        distances,
        plan.tolls.as_slice(),
        plan.jobs.as_slice(),
    )
}

// The bound of regions, 0 without any. `None` only if no play from the position ends solved.
fn lower_of(distances: &Distances, plan: &Option<Plan>, position: &Position) -> Option<u64>
    requires taken { IsTaken distances.now plan.now }
    requires fits { FitsLevel distances.now.level position.now }
    ensures bound { IfSome result (λ low. (m : ℕ) → m < low → NoneWithin distances.now.level m position.now) }
    ensures lost { IfNone result (IsLost distances.now.level position.now) }
{
    match plan {
        Some(plan) => plan.lower(distances, position),
        None => Some(0),
    }
}
