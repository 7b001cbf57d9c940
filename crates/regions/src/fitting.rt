//! Tolls that suit sampled positions, and the squares round which regions find most in these. It has no contract: the
//! tables that are filled for them are checked.

use crate::filling::fill;
use crate::table::ENDLESS;
use crate::windows::Finder;
use grid::{Level, Position, Square};
use prices::{Distances, Matching};
use std::alloc::{AllocError, Global};

/// How many times the tolls are changed.
const ROUNDS: u64 = 100;

/// The greatest number of samples whose matchings give the first tolls.
const FIRST_SAMPLES: usize = 40;

/// Tolls are counted in parts of a push.
const PARTS: u64 = 256;

/// What is added to all tolls, so that none becomes negative.
const BASE: u64 = 1 << 30;

/// The greatest number of squares round which a small region is tried.
const MOST_TRIES: usize = 256;

/// What a region counts as that finds a sample lost.
const LOST: u64 = 20;

/// Tolls that are changed step by step, and the best so far.
#[derive(Drop)]
struct Fit {
    // in parts of a push
    exact: Vec<u64>,
    // in pushes
    whole: Vec<u64>,
    // how many boxes of all samples are nearest to each goal under the tolls
    nearest: Vec<u64>,
    best: Vec<u64>,
    most: u64,
}

/// Tolls under which the boxes of the samples need much, above the tolls.
pub(crate) fn fitted(
    alloc: Global,
    distances: &Distances,
    samples: &[Position],
) -> Result<Vec<u32>, AllocError> {
    let goals = distances.goals();
    let mut fit = Fit {
        exact: vec![in alloc; BASE; goals]?,
        whole: vec![in alloc; 0; goals]?,
        nearest: vec![in alloc; 0; goals]?,
        best: vec![in alloc; 0; goals]?,
        most: 0,
    };
    fit.begin(distances, samples);
    for round in 0..ROUNDS {
        fit.measure(distances, samples);
        fit.change(round, samples.len() as u64);
    }
    fit.tolls(alloc)
}

impl Fit {
    // Adds the average of the tolls of the samples' matchings.
    fn begin(&mut self, distances: &Distances, samples: &[Position]) {
        let stride = samples.len() / FIRST_SAMPLES + 1;
        let used = (samples.len() / stride + 1) as u64;
        let mut matching = Matching::new();
        for sample in samples.iter().step_by(stride) {
            distances.meet(sample, &mut matching);
            for (goal, toll) in matching.tolls(distances.goals()).iter().enumerate() {
                let part = u64::from(*toll).saturating_mul(PARTS) / used;
                add(self.exact.as_mut_slice(), goal, part);
            }
        }
    }

    // Finds the nearest goals of the samples' boxes. Keeps the tolls if they are the best.
    fn measure(&mut self, distances: &Distances, samples: &[Position]) {
        let mut price = 0_u64;
        for goal in 0..self.exact.len() {
            let toll = number_of(self.exact.as_slice(), goal).saturating_add(PARTS / 2) / PARTS;
            put(self.whole.as_mut_slice(), goal, toll);
            put(self.nearest.as_mut_slice(), goal, 0);
            price = price.saturating_add(toll);
        }
        let mut needs = 0_u64;
        for sample in samples {
            for square in sample.boxes() {
                let row = distances.row(*square, sample.player());
                let (need, goal) = nearest(row, self.whole.as_slice());
                needs = needs.saturating_add(need);
                add(self.nearest.as_mut_slice(), goal, 1);
            }
        }
        let value = needs.saturating_sub(price.saturating_mul(samples.len() as u64));
        if value >= self.most {
            self.most = value;
            for goal in 0..self.whole.len() {
                let toll = number_of(self.whole.as_slice(), goal);
                put(self.best.as_mut_slice(), goal, toll);
            }
        }
    }

    // Raises the tolls of goals to which more than one box of a sample is nearest, and lowers the others.
    fn change(&mut self, round: u64, samples: u64) {
        let rate = (40 * PARTS) / round.saturating_add(10);
        for goal in 0..self.exact.len() {
            let boxes = number_of(self.nearest.as_slice(), goal);
            let more = rate.saturating_mul(boxes) / samples.max(1);
            let toll = number_of(self.exact.as_slice(), goal);
            let toll = toll.saturating_add(more).saturating_sub(rate);
            put(self.exact.as_mut_slice(), goal, toll);
        }
    }

    // The best tolls, less what all have in common.
    fn tolls(&self, alloc: Global) -> Result<Vec<u32>, AllocError> {
        let mut least = u64::MAX;
        for toll in self.best.as_slice() {
            least = least.min(*toll);
        }
        let mut tolls = Vec::new(alloc);
        for toll in self.best.as_slice() {
            tolls.push(u32::try_from(toll.saturating_sub(least)).unwrap_or(0))?;
        }
        Ok(tolls)
    }
}

// The least sum of a distance and the toll of its goal, and that goal.
fn nearest(row: &[u32], tolls: &[u64]) -> (u64, usize) {
    let mut need = u64::MAX;
    let mut at = 0;
    for (goal, far) in row.iter().enumerate() {
        let sum = u64::from(*far).saturating_add(number_of(tolls, goal));
        if sum < need {
            need = sum;
            at = goal;
        }
    }
    (need, at)
}

// The number at an index; 0 if there is none.
#[inline(always)]
fn number_of(numbers: &[u64], at: usize) -> u64 {
    match numbers.get(at) {
        Some(number) => *number,
        None => 0,
    }
}

// Changes the number at an index, if there is one.
#[inline(always)]
fn put(numbers: &mut [u64], at: usize, value: u64) {
    if let Some(number) = numbers.get_mut(at) {
        *number = value;
    }
}

// Adds to the number at an index, if there is one.
#[inline(always)]
fn add(numbers: &mut [u64], at: usize, more: u64) {
    if let Some(number) = numbers.get_mut(at) {
        *number = number.saturating_add(more);
    }
}

/// Squares from which a box can come to a goal: first those round which a table of this many bytes finds most in the
/// samples.
pub(crate) fn ranked(
    alloc: Global,
    level: &Level,
    wastes: &[u8],
    bytes: usize,
    samples: &[Position],
) -> Result<Vec<Square>, AllocError> {
    let mut finder = Finder::new(alloc, level, wastes, level.boxes(), bytes)?;
    let live = live_squares(alloc, level, &finder)?;
    let stride = live.len() / MOST_TRIES + 1;
    let mut ranks = Vec::new(alloc);
    for square in live.as_slice().iter().step_by(stride) {
        let window = finder.window(alloc, level, *square)?;
        let found = found_in(alloc, level, wastes, window.as_slice(), samples)?;
        ranks.push((found, *square))?;
    }
    sorted(alloc, ranks)
}

// The squares from which a box can come to a goal, in order.
fn live_squares(alloc: Global, level: &Level, finder: &Finder) -> Result<Vec<Square>, AllocError> {
    level.tell();
    let mut live = Vec::new(alloc);
    for index in 0..level.squares() {
        let square = Square(index as u16);
        if finder.is_live(square) {
            live.push(square)?;
        }
    }
    Ok(live)
}

// How much the table of a region finds in the samples.
fn found_in(
    alloc: Global,
    level: &Level,
    wastes: &[u8],
    squares: &[Square],
    samples: &[Position],
) -> Result<u64, AllocError> {
    let Some(table) = fill(alloc, level, wastes, squares)? else {
        return Ok(0);
    };
    let mut found = 0_u64;
    for sample in samples {
        let entry = table.says(sample);
        let more = if entry == ENDLESS {
            LOST
        } else {
            u64::from(entry)
        };
        found = found.saturating_add(more);
    }
    Ok(found)
}

// The squares, those with the greatest numbers first.
fn sorted(alloc: Global, mut ranks: Vec<(u64, Square)>) -> Result<Vec<Square>, AllocError> {
    let mut squares = Vec::new(alloc);
    for _ in 0..ranks.len() {
        let mut best = 0;
        let mut most = 0;
        for (index, (found, _)) in ranks.iter().enumerate() {
            if index == 0 || *found > most {
                best = index;
                most = *found;
            }
        }
        if best < ranks.len() {
            let (_, square) = ranks.remove(best);
            squares.push(square)?;
        }
    }
    Ok(squares)
}
