//! The table of a region, filled by pulls from the boxes on its goals: the least waste first. It has no contract: the
//! table is checked.

use crate::layout::{Layout, Pull, Site, keys_of, layout_of};
use crate::rows::{MOST_ENTRIES, Rows, is_small, rows_of};
use crate::table::{ENDLESS, RegionTable, byte_at};
use grid::{Level, Square};
use std::alloc::{AllocError, Global};

/// The greatest entry of a table: this many pushes or more.
const MOST: u8 = 254;

/// The end of a list of the queue.
const END: u32 = u32::MAX;

/// Boxes on seats, as bits, and the player's place, and the next entry of the same list.
#[derive(Clone, Copy)]
struct QueuedSet {
    set: u32,
    place: u8,
    next: u32,
}

/// The entries that were found, and a queue: one list for each number of pushes, and one of unused entries.
#[derive(Drop)]
struct Filling {
    layout: Layout,
    rows: Rows,
    boxes: u32,
    bytes: Vec<u8>,
    heads: [u32; 256],
    unused: u32,
    queue: Vec<QueuedSet>,
}

/// The table of a region with these squares, which counts of each push this waste. `None` if it would be too large.
pub(crate) fn fill(
    alloc: Global,
    level: &Level,
    wastes: &[u8],
    squares: &[Square],
) -> Result<Option<RegionTable>, AllocError> {
    let site = Site {
        level,
        wastes,
        squares,
    };
    let layout = layout_of(alloc, &site)?;
    let seats = layout.seats.len();
    if !is_small(seats, layout.spots.len(), level.boxes(), MOST_ENTRIES) {
        return Ok(None);
    }
    let mut filling = begun(alloc, layout, level.boxes())?;
    filling.begin(&site)?;
    filling.spread_all()?;
    Ok(Some(filling.table(alloc)?))
}

// Nothing is found yet.
fn begun(alloc: Global, layout: Layout, boxes: usize) -> Result<Filling, AllocError> {
    let row = u32::try_from(layout.spots.len()).unwrap_or(u32::MAX);
    let rows = rows_of(alloc, layout.seats.len(), boxes, row)?;
    let bytes = vec![in alloc; ENDLESS; rows.entries]?;
    Ok(Filling {
        layout,
        rows,
        boxes: u32::try_from(boxes).unwrap_or(u32::MAX),
        bytes,
        heads: [END; 256],
        unused: END,
        queue: Vec::new(alloc),
    })
}

impl Filling {
    // Boxes on the goals, and nowhere else, need no push, wherever the player is.
    fn begin(&mut self, site: &Site<'_>) -> Result<(), AllocError> {
        let mut home = 0;
        for square in site.squares {
            if site.level.is_goal(*square) {
                home |= self.layout.seat(*square);
            }
        }
        let start = self.rows.start(home);
        for place in 0..self.layout.spots.len() {
            if self.layout.spot(place).seat & home == 0 {
                self.note(home, short(place), 0)?;
            } else {
                self.set(start.saturating_add(place), 0);
            }
        }
        Ok(())
    }

    // The entry at an index.
    #[inline(always)]
    fn entry(&self, at: usize) -> u8 {
        byte_at(self.bytes.as_slice(), at)
    }

    // Sets the entry at an index.
    #[inline(always)]
    fn set(&mut self, at: usize, value: u8) {
        if let Some(byte) = self.bytes.as_mut_slice().get_mut(at) {
            *byte = value;
        }
    }

    // Appends a set and a place to the list of a number of pushes, unless their entry is known.
    #[inline(always)]
    fn note(&mut self, set: u32, place: u8, pushes: u32) -> Result<(), AllocError> {
        if self.entry(self.rows.start(set).saturating_add(place as usize)) != ENDLESS {
            return Ok(());
        }
        let pushes = pushes.min(u32::from(MOST)) as usize;
        let it = QueuedSet {
            set,
            place,
            next: self.heads[pushes],
        };
        let unused = self.unused as usize;
        if unused < self.queue.len() {
            self.heads[pushes] = self.unused;
            self.unused = self.queue[unused].next;
            self.queue[unused] = it;
        } else {
            self.heads[pushes] = u32::try_from(self.queue.len()).unwrap_or(END);
            self.queue.push(it)?;
        }
        Ok(())
    }

    // Takes an entry from the list of a number of pushes.
    fn take(&mut self, pushes: u8) -> Option<QueuedSet> {
        let head = self.heads[pushes as usize];
        if head as usize >= self.queue.len() {
            return None;
        }
        let it = self.queue[head as usize];
        self.heads[pushes as usize] = it.next;
        self.queue[head as usize].next = self.unused;
        self.unused = head;
        Some(it)
    }

    // Empties the queue, by rising numbers of pushes.
    fn spread_all(&mut self) -> Result<(), AllocError> {
        for pushes in 0..MOST + 1 {
            for _ in 0..u64::MAX {
                let Some(it) = self.take(pushes) else {
                    break;
                };
                self.look_at(it.set, it.place, pushes)?;
            }
        }
        Ok(())
    }

    // Enters the number of pushes for the player's area, and appends what is one pull away.
    fn look_at(&mut self, set: u32, place: u8, pushes: u8) -> Result<(), AllocError> {
        let start = self.rows.start(set);
        if self.entry(start.saturating_add(place as usize)) != ENDLESS {
            return Ok(());
        }
        let area = self.area(set, place);
        self.enter(start, area, pushes);
        let mut left = set;
        for _ in 0..32 {
            if left == 0 {
                break;
            }
            self.pull_from(left.trailing_zeros() as usize, set, area, pushes)?;
            left &= left.wrapping_sub(1);
        }
        if set.count_ones() < self.boxes {
            let unseen = self.layout.seats.len();
            self.pull_from(unseen, set, area, pushes)?;
        }
        Ok(())
    }

    // The places that the player reaches from a place, as bits.
    fn area(&self, set: u32, place: u8) -> u64 {
        let free = !self.taken(set);
        let mut area = 1_u64 << (place % 64);
        let mut fresh = area;
        for _ in 0..64 {
            if fresh == 0 {
                break;
            }
            let spot = self.layout.spot(fresh.trailing_zeros() as usize);
            let found = spot.beside & free & !area;
            area |= found;
            fresh = fresh & fresh.wrapping_sub(1) | found;
        }
        area
    }

    // The places with boxes, as bits.
    fn taken(&self, set: u32) -> u64 {
        let mut taken = 0;
        let mut left = set;
        for _ in 0..32 {
            if left == 0 {
                break;
            }
            if let Some(place) = self.layout.seats.get(left.trailing_zeros() as usize) {
                taken |= 1_u64 << (*place % 64);
            }
            left &= left.wrapping_sub(1);
        }
        taken
    }

    // Enters the number of pushes for each place of an area.
    fn enter(&mut self, start: usize, area: u64, pushes: u8) {
        let mut left = area;
        for _ in 0..64 {
            if left == 0 {
                break;
            }
            self.set(start.saturating_add(left.trailing_zeros() as usize), pushes);
            left &= left.wrapping_sub(1);
        }
    }

    // Makes all pulls of the box on a seat; with no such seat, those of boxes that are not seen.
    #[inline(always)]
    fn pull_from(
        &mut self,
        seat: usize,
        set: u32,
        area: u64,
        pushes: u8,
    ) -> Result<(), AllocError> {
        for index in self.first(seat)..self.first(seat.saturating_add(1)) {
            if let Some(pull) = self.layout.pulls.get(index) {
                let pull = *pull;
                self.pull(&pull, set, area, pushes)?;
            }
        }
        Ok(())
    }

    // The index of the first pull of a seat.
    #[inline(always)]
    fn first(&self, seat: usize) -> usize {
        match self.layout.firsts.get(seat) {
            Some(first) => *first,
            None => self.layout.pulls.len(),
        }
    }

    // Makes a pull, if the player can be there and no box is in the way.
    #[inline(always)]
    fn pull(&mut self, pull: &Pull, set: u32, area: u64, pushes: u8) -> Result<(), AllocError> {
        if area >> (pull.from % 64) & 1 == 0 || set & pull.player != 0 {
            return Ok(());
        }
        let before = set ^ pull.left ^ pull.entered;
        self.note(before, pull.to, u32::from(pushes) + u32::from(pull.waste))
    }

    // The table, of what was found.
    fn table(self, alloc: Global) -> Result<RegionTable, AllocError> {
        let Filling {
            layout,
            rows,
            bytes,
            ..
        } = self;
        let keys = keys_of(alloc, &layout, rows.half)?;
        Ok(RegionTable {
            places: layout.places,
            squares: layout.listed,
            keys,
            high_rows: rows.high,
            low_rows: rows.low,
            bytes,
        })
    }
}

// A place as a byte.
fn short(place: usize) -> u8 {
    u8::try_from(place).unwrap_or(u8::MAX)
}
