ghost use Rattle.std.specs.Prelude.{◌≡◌, IfOk, IsTrue};
ghost use Rattle.regions.specs.Regions.{IsRegion};
ghost use Rattle.regions.specs.inside.Tables.{said, waste_in};

use crate::check::passes;
use crate::choosing::RegionChoice;
use crate::filling::fill;
use crate::table::{ENDLESS, RegionTable, byte_at, waste_at};
use grid::{Dir, Level, Position, Square};
use std::alloc::{AllocError, Global};
use std::marker::Model;
use std::sync::Arc;

/// Regions that were chosen for a level, each with the job to make its table, and a toll for each goal.
#[derive(Drop)]
pub struct Plan {
    pub(crate) tolls: Vec<u32>,
    pub(crate) jobs: Vec<Job>,
    /// What a lone box needs under the tolls, by the index of its first distance. Empty until the plan is taken.
    pub(crate) needs: Vec<u32>,
    /// The sum of the tolls. 0 until the plan is taken.
    pub(crate) price: u64,
}

/// A region of a level that the jobs of a plan share: its squares, and the waste that it counts of each push, four for each square in the order of
/// directions. The table, once it is made, has passed the check. Contracts see the level, the waste and the table.
#[derive(Drop)]
pub struct Job {
    pub(crate) level: Arc<Level>,
    pub(crate) squares: Vec<Square>,
    pub(crate) wastes: Vec<u8>,
    pub(crate) table: Option<RegionTable>,
}

impl Model for Job {
    ghost use Rattle.std.specs.Arc.{arc_value};
    ghost use Rattle.std.specs.Prelude.{◌≡◌};
    ghost use Rattle.regions.specs.Regions.{IsRegion};
    ghost use Rattle.regions.specs.inside.Tables.{said, waste_in};
    ghost use Rattle.regions.specs.inside.Views.{JobView};

    ghost Value = { JobView };

    ghost view = { λ a. record { board = arc_value a.level; wastes = a.wastes.items; table = a.table } };

    ghost invariant = { λ a. IsRegion (arc_value a.level) (waste_in a.wastes.items) (said a.table) };
}

impl Plan {
    /// The jobs, one for each region. They are independent of each other: run them in any order, in any threads.
    pub fn jobs(&mut self) -> &mut [Job] {
        self.jobs.as_mut_slice()
    }
}

impl Job {
    /// Makes the table of the region and checks it. A table that does not pass is left out. Takes up to some seconds.
    /// Fails only if out of memory, and then there is no table.
    pub fn run(&mut self, alloc: Global) -> Result<(), AllocError> {
        self.table = None;
        self.table = checked(
            alloc,
            &self.level,
            self.wastes.as_slice(),
            self.squares.as_slice(),
        )?;
        Ok(())
    }

    /// States that the table says nothing that is not so. It does nothing; call it in proofs.
    pub(crate) fn tell(&self)
        ensures { IsRegion self.now.board (waste_in self.now.wastes) (said self.now.table) }
    {
        let _ = &self.table;
    }

    /// Whether the job is of this level.
    pub(crate) fn is_of(&self, level: &Level) -> bool
        ensures { IsTrue result → self.now.board ≡ level.now }
    {
        *self.level == *level
    }

    /// What the region says of a position; 0 without a table.
    pub(crate) fn says(&self, position: &Position) -> u8
        ensures { result ≡ said self.now.table position.now }
    {
        match &self.table {
            Some(table) => table.says(position),
            None => 0,
        }
    }

    /// What the region counts of a push of a box on the square.
    #[inline(always)]
    pub(crate) fn waste(&self, square: Square, dir: Dir) -> u8
        ensures { result ≡ waste_in self.now.wastes square dir }
    {
        waste_at(self.wastes.as_slice(), square, dir)
    }
}

// The table of a region, if it passes the check.
fn checked(
    alloc: Global,
    level: &Level,
    wastes: &[u8],
    squares: &[Square],
) -> Result<Option<RegionTable>, AllocError>
    ensures { IfOk result (λ table. IsRegion level.now (waste_in wastes.now) (said table)) }
{
    let Some(table) = fill(alloc, level, wastes, squares)? else {
        return Ok(None);
    };
    let good = passes(alloc, level, wastes, &table)?;
    if good {
        return Ok(Some(table));
    }
    Ok(None)
}

/// The plan of a choice of regions.
pub(crate) fn plan_of(
    alloc: Global,
    level: &Level,
    choice: RegionChoice,
) -> Result<Plan, AllocError> {
    let RegionChoice {
        tolls,
        wastes,
        owners,
        mut regions,
    } = choice;
    let mut jobs = Vec::new(alloc);
    let shared = Arc::new(alloc, level.copy()?)?;
    for _ in 0..regions.len() {
        let Some(squares) = regions.pop() else {
            break;
        };
        let counted = wastes_of(alloc, wastes.as_slice(), owners.as_slice(), regions.len())?;
        jobs.push(Job {
            level: Arc::try_clone(&shared)?,
            squares,
            wastes: counted,
            table: None,
        })?;
    }
    Ok(Plan {
        tolls,
        jobs,
        needs: Vec::new(alloc),
        price: 0,
    })
}

// The waste that the region with this index counts of each push: none of a push from a square that it does not own.
fn wastes_of(
    alloc: Global,
    wastes: &[u8],
    owners: &[u8],
    region: usize,
) -> Result<Vec<u8>, AllocError> {
    let mut counted = Vec::new(alloc);
    for index in 0..wastes.len() {
        let owner = byte_at(owners, index / 4) as usize;
        let waste = if wastes[index] == ENDLESS || owner > 0 && owner - 1 == region {
            wastes[index]
        } else {
            0
        };
        counted.push(waste)?;
    }
    Ok(counted)
}
