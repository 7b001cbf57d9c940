//! The choice of tolls and regions. It has no contract: the tables that are filled for them are checked.

use crate::fitting::{fitted, ranked};
use crate::rows::MOST_ENTRIES;
use crate::wastes::wastes_of;
use crate::windows::Finder;
use grid::{Level, Position, Square};
use prices::{Distances, Matching};
use std::alloc::{AllocError, Global};

/// The greatest number of regions.
const MOST_REGIONS: usize = 64;

/// A choice of regions.
#[derive(Drop)]
pub(crate) struct RegionChoice {
    /// One for each goal.
    pub(crate) tolls: Vec<u32>,
    /// The waste of each push under these tolls: four for each square, in the order of directions.
    pub(crate) wastes: Vec<u8>,
    /// For each square the number of the region that counts pushes from it, from 1; 0 if none does.
    pub(crate) owners: Vec<u8>,
    /// The squares of each region.
    pub(crate) regions: Vec<Vec<Square>>,
}

/// Chooses regions. Each table takes at most `bytes` bytes, and all together at most [`MOST_ENTRIES`].
pub(crate) fn choose(
    alloc: Global,
    level: &Level,
    distances: &Distances,
    bytes: usize,
) -> Result<RegionChoice, AllocError> {
    let tolls = tolls_of(alloc, level, distances)?;
    let wastes = wastes_of(alloc, level, distances, tolls.as_slice())?;
    let mut finder = Finder::new(alloc, level, wastes.as_slice(), level.boxes(), bytes)?;
    let windows = windows_of(alloc, level, &mut finder)?;
    let regions = affordable(alloc, &finder, windows)?;
    let owners = owners_of(alloc, level, regions.as_slice())?;
    Ok(RegionChoice {
        tolls,
        wastes,
        owners,
        regions,
    })
}

/// The part of a table's bytes that the small tables take by which squares are ranked.
const SMALL: usize = 40;

/// Chooses regions and tolls that suit these positions: windows round the squares where small tables find most in them
/// come first. Each table takes at most `bytes` bytes, and all together at most [`MOST_ENTRIES`].
pub(crate) fn choose_for(
    alloc: Global,
    level: &Level,
    distances: &Distances,
    bytes: usize,
    samples: &[Position],
) -> Result<RegionChoice, AllocError> {
    let tolls = fitted(alloc, distances, samples)?;
    let wastes = wastes_of(alloc, level, distances, tolls.as_slice())?;
    let regions = windows_for(alloc, level, wastes.as_slice(), bytes, samples)?;
    let owners = owners_of(alloc, level, regions.as_slice())?;
    Ok(RegionChoice {
        tolls,
        wastes,
        owners,
        regions,
    })
}

// The windows that suit these positions, as many as the tables may take.
fn windows_for(
    alloc: Global,
    level: &Level,
    wastes: &[u8],
    bytes: usize,
    samples: &[Position],
) -> Result<Vec<Vec<Square>>, AllocError> {
    let order = ranked(alloc, level, wastes, bytes / SMALL, samples)?;
    let mut finder = Finder::new(alloc, level, wastes, level.boxes(), bytes)?;
    let windows = windows_round(alloc, level, &mut finder, order.as_slice())?;
    let regions = affordable(alloc, &finder, windows)?;
    Ok(regions)
}

// Windows round these squares, in this order, and then round others from which a box can come to a goal.
fn windows_round(
    alloc: Global,
    level: &Level,
    finder: &mut Finder,
    order: &[Square],
) -> Result<Vec<Vec<Square>>, AllocError> {
    let mut cover = Cover {
        regions: Vec::new(alloc),
        covered: vec![in alloc; false; level.squares()]?,
    };
    for square in order {
        cover.add(alloc, level, finder, *square)?;
    }
    level.tell();
    for index in 0..level.squares() {
        cover.add(alloc, level, finder, Square(index as u16))?;
    }
    Ok(cover.regions)
}

// The tolls of the matching of the start, which suit it best.
fn tolls_of(alloc: Global, level: &Level, distances: &Distances) -> Result<Vec<u32>, AllocError> {
    let mut matching = Matching::new();
    if let Some(start) = Position::start(level) {
        distances.meet(&start, &mut matching);
    }
    let mut tolls = Vec::with_capacity(alloc, distances.goals())?;
    tolls.extend_from_slice(matching.tolls(distances.goals()))?;
    Ok(tolls)
}

// Rooms behind one square, windows round the goals outside of these, and windows round the other squares from which a
// box can come to a goal. Those with most goals come first.
fn windows_of(
    alloc: Global,
    level: &Level,
    finder: &mut Finder,
) -> Result<Vec<Vec<Square>>, AllocError> {
    let mut cover = Cover {
        regions: finder.rooms(alloc, level)?,
        covered: vec![in alloc; false; level.squares()]?,
    };
    cover.mark_all();
    level.tell();
    for index in 0..level.squares() {
        let square = Square(index as u16);
        if level.is_goal(square) {
            cover.add(alloc, level, finder, square)?;
        }
    }
    for index in 0..level.squares() {
        cover.add(alloc, level, finder, Square(index as u16))?;
    }
    by_goals(alloc, level, cover.regions)
}

/// Regions, and whether each square is in one of them.
#[derive(Drop)]
struct Cover {
    regions: Vec<Vec<Square>>,
    covered: Vec<bool>,
}

impl Cover {
    // Marks the squares of all regions.
    fn mark_all(&mut self) {
        for index in 0..self.regions.len() {
            self.mark(index);
        }
    }

    // Marks the squares of a region.
    fn mark(&mut self, index: usize) {
        if let Some(region) = self.regions.get(index) {
            for square in region.as_slice() {
                if let Some(covered) = self.covered.as_mut_slice().get_mut(square.0 as usize) {
                    *covered = true;
                }
            }
        }
    }

    // Whether a square is in some region.
    fn is_covered(&self, square: Square) -> bool {
        match self.covered.get(square.0 as usize) {
            Some(covered) => *covered,
            None => true,
        }
    }

    // Adds a window round a square that is in no region, if a box on it can come to a goal.
    fn add(
        &mut self,
        alloc: Global,
        level: &Level,
        finder: &mut Finder,
        middle: Square,
    ) -> Result<(), AllocError> {
        if self.regions.len() >= MOST_REGIONS
            || self.is_covered(middle)
            || !finder.is_live(middle)
        {
            return Ok(());
        }
        let window = finder.window(alloc, level, middle)?;
        if !window.is_empty() {
            self.regions.push(window)?;
            let last = self.regions.len().saturating_sub(1);
            self.mark(last);
        }
        Ok(())
    }
}

// The regions, those with most goals first.
fn by_goals(
    alloc: Global,
    level: &Level,
    mut regions: Vec<Vec<Square>>,
) -> Result<Vec<Vec<Square>>, AllocError> {
    let mut sorted = Vec::new(alloc);
    for _ in 0..regions.len() {
        let mut best = 0;
        let mut most = 0;
        for (index, region) in regions.iter().enumerate() {
            let goals = goals_of(level, region.as_slice());
            if index == 0 || goals > most {
                best = index;
                most = goals;
            }
        }
        if best < regions.len() {
            sorted.push(regions.remove(best))?;
        }
    }
    Ok(sorted)
}

// The number of goals on the squares.
fn goals_of(level: &Level, squares: &[Square]) -> usize {
    let mut goals = 0_usize;
    for square in squares {
        goals = goals.saturating_add(usize::from(level.is_goal(*square)));
    }
    goals
}

// The first regions, as many as fit into [`MOST_ENTRIES`].
fn affordable(
    alloc: Global,
    finder: &Finder,
    windows: Vec<Vec<Square>>,
) -> Result<Vec<Vec<Square>>, AllocError> {
    let mut regions = Vec::new(alloc);
    let mut left = MOST_ENTRIES as u64;
    for squares in windows {
        let entries = finder.entries(squares.as_slice());
        if entries <= left && regions.len() < MOST_REGIONS {
            left = left.saturating_sub(entries);
            regions.push(squares)?;
        }
    }
    Ok(regions)
}

// For each square the number of the first region that has it.
fn owners_of(alloc: Global, level: &Level, regions: &[Vec<Square>]) -> Result<Vec<u8>, AllocError> {
    let mut owners = vec![in alloc; 0; level.squares()]?;
    for (index, region) in regions.iter().enumerate() {
        let number = u8::try_from(index).unwrap_or(u8::MAX).saturating_add(1);
        for square in region.as_slice() {
            own(owners.as_mut_slice(), *square, number);
        }
    }
    Ok(owners)
}

// Gives a square to a region, unless another one has it.
fn own(owners: &mut [u8], square: Square, number: u8) {
    if let Some(owner) = owners.get_mut(square.0 as usize) {
        if *owner == 0 {
            *owner = number;
        }
    }
}
