ghost use Rattle.std.specs.Prelude.{◌≡◌, ◌+◌, ◌≤◌, ◌↔◌, ℕ, suc, IsTrue, IfNone, IfOk, IfSome};
ghost use Rattle.grid.specs.Lawful.{box_count};
ghost use Rattle.grid.specs.States.{FitsLevel};
ghost use Rattle.doom.specs.Lost.{IsLost};
ghost use Rattle.prices.specs.Solving.{Allows};
ghost use Rattle.prover.specs.Frontier.{IsReachedAfter, IsBound, IsTotal, NoneGoesOn};
ghost use Rattle.prices.specs.Searching.{SomeHas};

use crate::parity::{are_odd, next_of};
use grid::{Level, MAX_BOXES, Position};
use prices::{Distances, Matching};
use regions::{Job, Plan, Regions};
use spreading::for_each_spread;
use std::alloc::{AllocError, Global};
use std::marker::Model;
use std::sync::atomic::{AtomicBool, Ordering};
use std::thread::Threads;
use successors::Problem;

/// A problem with the lower bounds that the search prunes by. Contracts see the level with its cap.
#[derive(Drop)]
pub(crate) struct Pruner<'a> {
    problem: &'a Problem,
    regions: Regions,
    // the matching of the start
    seed: Matching,
    // whether the solutions have an odd number of pushes
    odd: bool,
}

impl<'a> Model for Pruner<'a> {
    ghost use Rattle.std.specs.Prelude.{◌≡◌};
    ghost use Rattle.prover.specs.Parity.{AreOdd};
    ghost use Rattle.successors.specs.Problems.{Problem};

    ghost Value = { Problem };

    ghost view = { λ a. a.problem.now };

    ghost invariant = { λ a. (a.regions ≡ a.problem.now.board) × AreOdd a.problem.now.board a.odd };
}

impl<'a> Pruner<'a> {
    /// The pruner of a problem, without tables of regions. Fails only if out of memory.
    pub(crate) fn of(alloc: Global, problem: &'a Problem) -> Result<Pruner<'a>, AllocError>
        requires { box_count problem.now.board ≤ MAX_BOXES }
        ensures { IfOk result (λ pruner. pruner ≡ problem.now) }
    {
        let regions = Regions::of_prices(alloc, problem.level())?;
        let mut seed = Matching::new();
        if let Some(first) = Position::start(problem.level()) {
            regions.distances().meet(&first, &mut seed);
        }
        Ok(Pruner {
            problem,
            regions,
            seed,
            odd: are_odd(problem.level()),
        })
    }

    /// Chooses regions and makes their tables, each of at most `bytes` bytes, in at most `workers` threads. Fails only
    /// if out of memory.
    pub(crate) fn make_tables<R: Threads + Sync>(
        &mut self,
        rt: &R,
        alloc: Global,
        bytes: usize,
        workers: u8,
    ) -> Result<(), AllocError>
        ensures { self.new ≡ self.old }
    {
        let level = self.problem.level();
        let mut plan = self.regions.plan(alloc, level, bytes)?;
        run_plan(rt, alloc, workers, &mut plan)?;
        self.regions.take(alloc, level, plan)
    }

    /// Chooses regions that suit sampled positions, and makes their tables as [`Pruner::make_tables`] does. Fails only
    /// if out of memory.
    pub(crate) fn make_tables_for<R: Threads + Sync>(
        &mut self,
        rt: &R,
        alloc: Global,
        bytes: usize,
        samples: &[Position],
        workers: u8,
    ) -> Result<(), AllocError>
        ensures { self.new ≡ self.old }
    {
        let level = self.problem.level();
        let mut plan = self.regions.plan_for(alloc, level, bytes, samples)?;
        run_plan(rt, alloc, workers, &mut plan)?;
        self.regions.take_later(alloc, level, plan)
    }

    /// The problem.
    pub(crate) fn problem(&self) -> &'a Problem
        ensures { result.now ≡ self.now }
    {
        self.problem
    }

    /// The level.
    pub(crate) fn level(&self) -> &'a Level
        ensures { result.now ≡ self.now.board }
    {
        self.problem.level()
    }

    /// The distances to each goal.
    pub(crate) fn distances(&self) -> &Distances
        ensures { result.now.level ≡ self.now.board }
    {
        self.regions.distances()
    }

    /// The matching of the start, from which that of any position is mended. It never changes, so what a search finds
    /// of a position does not depend on what it expanded before.
    pub(crate) fn seed(&self) -> &Matching {
        &self.seed
    }

    // A lower bound on the pushes of a play that leads to the position with `pushes` of them and goes on to a solved
    // one. `None` only if no play from the position ends solved.
    fn total(&self, position: &Position, pushes: u32, matching: &mut Matching) -> Option<u32>
        requires { FitsLevel self.now.board position.now }
        ensures bound { IfSome result (λ total. (pushes ≤ total) × IsBound self.now.board pushes position.now total) }
        ensures lost { IfNone result (IsLost self.now.board position.now) }
    {
        let low = self.regions.lower(position, matching)?;
        Some(total_of(pushes, low))
    }

    /// The total, rounded up to the parity of all solutions, if the cap allows it. `None` only if no play that the cap
    /// allows leads to the position with `pushes` pushes and goes on to a solved one.
    pub(crate) fn allowed_total(
        &self,
        position: &Position,
        pushes: u32,
        matching: &mut Matching,
    ) -> Option<u32>
        requires fits { FitsLevel self.now.board position.now }
        requires reached { IsReachedAfter self.now.board pushes position.now }
        ensures total { IfSome result (λ total. IsTotal self.now.board self.now.cap pushes position.now total) }
        ensures none { IfNone result (NoneGoesOn self.now.board self.now.cap pushes position.now) }
    {
        let Some(total) = self.total(position, pushes, matching) else {
            return None;
        };
        let total = self.rounded(total);
        let allowed = self.allows(total);
        if !allowed {
            return None;
        }
        Some(total)
    }

    /// Whether the cap allows this many pushes.
    pub(crate) fn allows(&self, pushes: u32) -> bool
        ensures { IsTrue result ↔ Allows self.now.cap pushes }
    {
        match self.problem.cap() {
            None => true,
            Some(most) => pushes <= most,
        }
    }

    /// The least number from this one on that some solution may have by its parity. `u32::MAX` stays.
    pub(crate) fn rounded(&self, pushes: u32) -> u32
        ensures near { pushes ≤ result }
        ensures least { (n : ℕ) → SomeHas self.now.board n → pushes ≤ n → result ≤ n }
    {
        next_of(self.odd, pushes)
    }

    /// How many more pushes the cap allows after `pushes` of them and the next one.
    pub(crate) fn left(&self, pushes: u32) -> Option<u32>
        ensures { (m : ℕ) → Allows self.now.cap (pushes + suc m) → Allows result m }
    {
        match self.problem.cap() {
            None => None,
            Some(most) => Some(most.saturating_sub(pushes).saturating_sub(1)),
        }
    }
}

// Makes the tables of a plan, in at most `workers` threads. Fails only if out of memory.
fn run_plan<R: Threads + Sync>(
    rt: &R,
    alloc: Global,
    workers: u8,
    plan: &mut Plan,
) -> Result<(), AllocError> {
    let done = run_each(rt, alloc, workers, plan.jobs());
    if !done {
        // memory ran out where several tables were made at once: one after the other takes less
        for job in plan.jobs() {
            job.run(alloc)?;
        }
    }
    Ok(())
}

// Runs the jobs in at most `workers` threads. Returns whether none of them ran out of memory.
fn run_each<R: Threads + Sync>(rt: &R, alloc: Global, workers: u8, jobs: &mut [Job]) -> bool {
    let failed = AtomicBool::new(false);
    for_each_spread(
        rt,
        jobs,
        workers as usize,
        &|_, job: &mut Job| {
            if job.run(alloc).is_err() {
                failed.store(true, Ordering::SeqCst);
            }
        },
    );
    !failed.load(Ordering::SeqCst)
}

/// The number of pushes of a play that needs `more` of them after the first ones, or the greatest number of the type.
pub(crate) fn total_of(pushes: u32, more: u64) -> u32
    ensures near { pushes ≤ result }
    ensures most { result ≤ pushes + more }
{
    pushes.saturating_add(u32::try_from(more).unwrap_or(u32::MAX))
}
