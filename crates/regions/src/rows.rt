//! Numbers for the sets of boxes on the seats of a region: a set is a bit for each seat, and its number is the sum of
//! the numbers of its two halves. They have no contract: the rows of a table are checked as they are.

use crate::table::number_at;
use std::alloc::{AllocError, Global};

/// The greatest number of squares of a room behind one square.
pub(crate) const MOST_SQUARES: usize = 60;

/// The greatest number of seats: squares of a region on which a box is seen.
pub(crate) const MOST_SEATS: usize = 32;

/// The greatest number of places of a region: one for each bit of a word.
pub(crate) const MOST_PLACES: usize = 64;

/// The greatest number of entries, a byte each, of the tables of one choice of regions.
pub(crate) const MOST_ENTRIES: usize = 64_000_000;

/// Where the entries of each set begin: the sum of the numbers of its halves.
#[derive(Drop)]
pub(crate) struct Rows {
    pub(crate) high: Vec<u32>,
    pub(crate) low: Vec<u32>,
    /// The number of seats of the low half.
    pub(crate) half: u32,
    /// The number of entries.
    pub(crate) entries: usize,
}

/// The number of sets of at most `boxes` of the seats.
pub(crate) fn sets_within(seats: usize, boxes: usize) -> u64 {
    let mut ways = 1_u64;
    let mut sets = 0_u64;
    for count in 0..boxes.min(seats).saturating_add(1) {
        sets = sets.saturating_add(ways);
        let left = seats.saturating_sub(count) as u64;
        ways = ways.saturating_mul(left) / (count as u64 + 1);
    }
    sets
}

/// The number of entries of a table with this many seats and places, for at most `boxes` boxes.
pub(crate) fn entries_of(seats: usize, places: usize, boxes: usize) -> u64 {
    sets_within(seats, boxes).saturating_mul(places as u64)
}

/// Whether a table has at most this many entries, and not too many seats and places.
pub(crate) fn is_small(seats: usize, places: usize, boxes: usize, entries: usize) -> bool {
    seats <= MOST_SEATS
        && places <= MOST_PLACES
        && entries_of(seats, places, boxes) <= entries as u64
}

/// The rows of the sets of at most `boxes` of the seats, each of `row` entries.
pub(crate) fn rows_of(
    alloc: Global,
    seats: usize,
    boxes: usize,
    row: u32,
) -> Result<Rows, AllocError> {
    let seats = seats.min(MOST_SEATS);
    let half = seats.div_ceil(2);
    let low = low_rows(alloc, half, row)?;
    let mut high = Vec::new(alloc);
    let mut entries = 0_u32;
    for set in 0..1_u32 << (seats - half) {
        high.push(entries)?;
        if let Some(left) = boxes.checked_sub(set.count_ones() as usize) {
            let sets = u32::try_from(sets_within(half, left)).unwrap_or(u32::MAX);
            entries = entries.saturating_add(sets.saturating_mul(row));
        }
    }
    Ok(Rows {
        high,
        low,
        half: half as u32,
        entries: entries as usize,
    })
}

// The rows of the low halves: those of fewer boxes first.
fn low_rows(alloc: Global, half: usize, row: u32) -> Result<Vec<u32>, AllocError> {
    let mut next = [0_u32; 33];
    for count in 1..half.min(32) + 1 {
        let before = u32::try_from(sets_within(half, count - 1)).unwrap_or(u32::MAX);
        next[count] = before.saturating_mul(row);
    }
    let mut low = Vec::new(alloc);
    for set in 0..1_u32 << half.min(16) {
        let start = &mut next[set.count_ones() as usize % 33];
        low.push(*start)?;
        *start = start.saturating_add(row);
    }
    Ok(low)
}

impl Rows {
    /// The index of the first entry of a set.
    #[inline(always)]
    pub(crate) fn start(&self, set: u32) -> usize {
        let high = number_at(self.high.as_slice(), (set >> (self.half % 32)) as usize);
        let low = number_at(
            self.low.as_slice(),
            (set & ((1 << (self.half % 32)) - 1)) as usize,
        );
        (high as usize).saturating_add(low as usize)
    }
}
