//! The lower bounds that the listing prunes by.
ghost use Rattle.std.specs.Prelude.{◌≡◌, ◌≤◌, IfOk, IsFalse};
ghost use Rattle.grid.specs.Lawful.{box_count};
ghost use Rattle.grid.specs.States.{FitsLevel};
ghost use Rattle.prices.specs.Solving.{NoneWithin};

use grid::{Level, MAX_BOXES, Position};
use prices::{Distances, Matching};
use regions::{Plan, Regions};
use std::alloc::{AllocError, Global};
use std::marker::Model;

/// The numbers of listed states at which the listing makes tables of regions, each with the bytes that a table may
/// take. Many lists end before. More stages, or regions chosen for the listed states, take longer than they save.
const STAGES: [(usize, usize); 2] = [(1_000, 128_000), (3_000, 1_000_000)];

/// A level, the greatest number of pushes that is still wanted, and bounds on the pushes that states need. Contracts
/// see the first two.
#[derive(Drop)]
pub(crate) struct Bounds<'a> {
    level: &'a Level,
    cap: u32,
    regions: Regions,
    // how many of the stages have made their tables
    stages: usize,
}

impl<'a> Model for Bounds<'a> {
    ghost use Rattle.std.specs.Prelude.{◌≡◌};
    ghost use Rattle.shortest.specs.inside.Listing.{BoundsView};

    ghost Value = { BoundsView };

    ghost view = { λ a. record { board = a.level.now; cap = a.cap } };

    ghost invariant = { λ a. a.regions ≡ a.level.now };
}

impl<'a> Bounds<'a> {
    /// The bounds of a level for solutions with at most `cap` pushes, without tables of regions. Fails only if out of
    /// memory.
    pub(crate) fn of(alloc: Global, level: &'a Level, cap: u32) -> Result<Bounds<'a>, AllocError>
        requires { box_count level.now ≤ MAX_BOXES }
        ensures { IfOk result (λ bounds. (bounds.board ≡ level.now) × (bounds.cap ≡ cap)) }
    {
        Ok(Bounds {
            level,
            cap,
            regions: Regions::of_prices(alloc, level)?,
            stages: 0,
        })
    }

    /// Makes the tables of the next stage in place of those before, if the stage begins at `listed` states or fewer.
    /// Fails only if out of memory.
    pub(crate) fn make_tables_at(&mut self, alloc: Global, listed: usize) -> Result<(), AllocError>
        ensures { self.new ≡ self.old }
    {
        let Some((first, bytes)) = STAGES.get(self.stages) else {
            return Ok(());
        };
        if listed < *first {
            return Ok(());
        }
        self.stages += 1;
        let level = self.level;
        let mut plan = self.regions.plan(alloc, level, *bytes)?;
        run_plan(alloc, &mut plan)?;
        self.regions.take(alloc, level, plan)
    }

    /// The level.
    pub(crate) fn level(&self) -> &'a Level
        ensures { result.now ≡ self.now.board }
    {
        self.level
    }

    /// Sets the greatest number of pushes that is still wanted.
    pub(crate) fn set_cap(&mut self, cap: u32)
        ensures { self.new ≡ record { board = self.old.board; cap = cap } }
    {
        self.cap = cap;
    }

    /// The greatest number of pushes that is still wanted.
    pub(crate) fn cap(&self) -> u32
        ensures { result ≡ self.now.cap }
    {
        self.cap
    }

    /// The distances to each goal.
    pub(crate) fn distances(&self) -> &Distances
        ensures { result.now.level ≡ self.now.board }
    {
        self.regions.distances()
    }

    /// A lower bound on the pushes that the state needs, the greatest number if it is lost or no state of the level.
    pub(crate) fn least(&self, state: &Position, matching: &mut Matching) -> u32 {
        if !state.fits(self.level) {
            return u32::MAX;
        }
        match self.regions.lower(state, matching) {
            Some(low) => u32::try_from(low).unwrap_or(u32::MAX),
            None => u32::MAX,
        }
    }

    /// Whether the bounds allow a play from the state that ends solved with at most `left` pushes.
    pub(crate) fn allow(&self, state: &Position, left: u32, matching: &mut Matching) -> bool
        requires { FitsLevel self.now.board state.now }
        ensures { IsFalse result → NoneWithin self.now.board left state.now }
    {
        match self.regions.lower(state, matching) {
            Some(low) => low <= u64::from(left),
            None => false,
        }
    }
}

// Makes the tables of a plan. Fails only if out of memory.
fn run_plan(alloc: Global, plan: &mut Plan) -> Result<(), AllocError> {
    for job in plan.jobs() {
        job.run(alloc)?;
    }
    Ok(())
}
