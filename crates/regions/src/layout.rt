//! The places of a region and the pulls of boxes there. They have no contract: the table that they fill is checked.

use crate::rows::{MOST_PLACES, MOST_SEATS};
use crate::table::{BoxKey, ENDLESS, waste_at};
use crate::wastes::{beside, is_live};
use grid::{Dir, Level, Square};
use std::alloc::{AllocError, Global};

/// A place of a region: its seat as a bit, or 0 if a box there is not seen, and the places beside it as bits.
#[derive(Clone, Copy, Default)]
pub(crate) struct PlaceBits {
    pub(crate) seat: u32,
    pub(crate) beside: u64,
}

/// A pull, which undoes a push: the player's places before and after it, and the seats, as bits, that the box leaves
/// and comes to and that the player comes to. A seat is 0 if a box there is not seen.
#[derive(Clone, Copy)]
pub(crate) struct Pull {
    pub(crate) from: u8,
    pub(crate) to: u8,
    pub(crate) left: u32,
    pub(crate) entered: u32,
    pub(crate) player: u32,
    pub(crate) waste: u8,
}

/// A level, and a region of it that counts these wastes of pushes: four for each square, in the order of the
/// directions.
#[derive(Clone, Copy)]
pub(crate) struct Site<'a> {
    pub(crate) level: &'a Level,
    pub(crate) wastes: &'a [u8],
    pub(crate) squares: &'a [Square],
}

/// The places of a region, its seats and its pulls.
#[derive(Drop)]
pub(crate) struct Layout {
    /// The place of each square of the level, as in the table.
    pub(crate) places: Vec<u8>,
    /// The squares with a place other than 0: the seats first, in order.
    pub(crate) listed: Vec<Square>,
    /// By place.
    pub(crate) spots: Vec<PlaceBits>,
    /// For each seat, in order, the place of its square.
    pub(crate) seats: Vec<u8>,
    /// The pulls of boxes from the first seat, then from the second and so on, then those of boxes that are not seen.
    pub(crate) pulls: Vec<Pull>,
    /// For each seat, the index of its first pull; then that of the first pull of a box that is not seen.
    pub(crate) firsts: Vec<usize>,
}

/// The places and pulls of a region.
pub(crate) fn layout_of(alloc: Global, site: &Site<'_>) -> Result<Layout, AllocError> {
    let mut layout = Layout {
        places: vec![in alloc; 0; site.level.squares()]?,
        listed: Vec::new(alloc),
        spots: vec![in alloc; PlaceBits::default(); 1]?,
        seats: Vec::new(alloc),
        pulls: Vec::new(alloc),
        firsts: Vec::new(alloc),
    };
    layout.fill(alloc, site)?;
    Ok(layout)
}

/// The key of each square of the level, with this number of seats in the low half.
pub(crate) fn keys_of(
    alloc: Global,
    layout: &Layout,
    half: u32,
) -> Result<Vec<BoxKey>, AllocError> {
    let mut keys = Vec::with_capacity(alloc, layout.places.len())?;
    for place in layout.places.as_slice() {
        let seat = layout.spot(*place as usize).seat;
        let half = half % 32;
        keys.push(BoxKey {
            high: seat >> half,
            low: seat & ((1 << half) - 1),
        })?;
    }
    Ok(keys)
}

impl Layout {
    /// Lists the places and pulls of a region, where none are listed yet.
    fn fill(&mut self, alloc: Global, site: &Site<'_>) -> Result<(), AllocError> {
        self.seat_all(site)?;
        self.place_components(alloc, site.level)?;
        let listed = self.listed.clone()?;
        for square in listed.as_slice() {
            self.connect(site.level, *square);
        }
        for square in listed.as_slice() {
            self.list_pulls_from(site, *square)?;
        }
        let unseen = self.pulls.len();
        self.firsts.push(unseen)?;
        for square in listed.as_slice() {
            self.list_pulls_into_sight(site, *square)?;
        }
        Ok(())
    }

    /// The spot of a place.
    #[inline(always)]
    pub(crate) fn spot(&self, place: usize) -> PlaceBits {
        match self.spots.get(place) {
            Some(spot) => *spot,
            None => PlaceBits { seat: 0, beside: 0 },
        }
    }

    /// The place of a square.
    #[inline(always)]
    fn place(&self, square: Square) -> u8 {
        match self.places.get(square.0 as usize) {
            Some(place) => *place,
            None => 0,
        }
    }

    // The seat of a square.
    pub(crate) fn seat(&self, square: Square) -> u32 {
        self.spot(self.place(square) as usize).seat
    }

    // Gives each live square of the region a seat with a place of its own.
    fn seat_all(&mut self, site: &Site<'_>) -> Result<(), AllocError> {
        for square in site.squares {
            let seats = self.seats.len();
            if seats < MOST_SEATS && is_live(site.level, site.wastes, *square) {
                let place = self.new_place(1 << (seats % 32))?;
                self.seats.push(place)?;
                self.put(*square, place)?;
            }
        }
        Ok(())
    }

    // Gives each component of the level without the seats a place: 0 to the first one, and to those for which no place
    // is left.
    fn place_components(&mut self, alloc: Global, level: &Level) -> Result<(), AllocError> {
        let components = self.components(alloc, level)?;
        for component in components.iter().skip(1) {
            if self.spots.len() >= MOST_PLACES {
                break;
            }
            let place = self.new_place(0)?;
            for square in component.as_slice() {
                self.put(*square, place)?;
            }
        }
        Ok(())
    }

    // Adds a place. Returns its number.
    fn new_place(&mut self, seat: u32) -> Result<u8, AllocError> {
        let place = u8::try_from(self.spots.len()).unwrap_or(u8::MAX);
        self.spots.push(PlaceBits { seat, beside: 0 })?;
        Ok(place)
    }

    // Puts a square on a place other than 0.
    fn put(&mut self, square: Square, place: u8) -> Result<(), AllocError> {
        if let Some(it) = self.places.as_mut_slice().get_mut(square.0 as usize) {
            *it = place;
        }
        self.listed.push(square)?;
        Ok(())
    }

    // The squares of each component of the level without the seats.
    fn components(&self, alloc: Global, level: &Level) -> Result<Vec<Vec<Square>>, AllocError> {
        level.tell();
        let mut seen = vec![in alloc; false; level.squares()]?;
        let mut components = Vec::new(alloc);
        for index in 0..level.squares() {
            let first = Square(index as u16);
            if level.in_room(first) && self.seat(first) == 0 && mark(seen.as_mut_slice(), first) {
                components.push(self.component(alloc, level, first, seen.as_mut_slice())?)?;
            }
        }
        Ok(components)
    }

    // The squares that the player reaches from a square without crossing a seat. Marks them.
    fn component(
        &self,
        alloc: Global,
        level: &Level,
        first: Square,
        seen: &mut [bool],
    ) -> Result<Vec<Square>, AllocError> {
        let mut squares = Vec::new(alloc);
        squares.push(first)?;
        for head in 0..level.squares() {
            let Some(from) = squares.get(head).copied() else {
                break;
            };
            for dir in Dir::ALL {
                if let Some(to) = beside(level, from, dir) {
                    if self.seat(to) == 0 && mark(seen, to) {
                        squares.push(to)?;
                    }
                }
            }
        }
        Ok(squares)
    }

    // Connects the place of a square with those beside it.
    fn connect(&mut self, level: &Level, square: Square) {
        let place = self.place(square) as usize;
        for dir in Dir::ALL {
            if let Some(next) = beside(level, square, dir) {
                let other = self.place(next) as usize;
                self.link(place, other);
                self.link(other, place);
            }
        }
    }

    // Enters a place beside another.
    fn link(&mut self, place: usize, other: usize) {
        if let Some(spot) = self.spots.as_mut_slice().get_mut(place) {
            spot.beside |= 1 << (other % 64);
        }
    }

    // Lists the pulls of a box from a square, if it has a seat.
    fn list_pulls_from(&mut self, site: &Site<'_>, square: Square) -> Result<(), AllocError> {
        if self.seat(square) == 0 {
            return Ok(());
        }
        let first = self.pulls.len();
        self.firsts.push(first)?;
        for dir in Dir::ALL {
            if let Some(from) = beside(site.level, square, dir.opposite()) {
                self.list_pull(site, from, dir)?;
            }
        }
        Ok(())
    }

    // Lists the pulls of boxes that are not seen to a square, if it has a seat.
    fn list_pulls_into_sight(&mut self, site: &Site<'_>, square: Square) -> Result<(), AllocError> {
        if self.seat(square) == 0 {
            return Ok(());
        }
        for dir in Dir::ALL {
            if let Some(to) = beside(site.level, square, dir) {
                if self.seat(to) == 0 {
                    self.list_pull(site, square, dir)?;
                }
            }
        }
        Ok(())
    }

    // Lists the pull that undoes a push of a box from a square, unless the box can come to no goal after the push.
    fn list_pull(&mut self, site: &Site<'_>, square: Square, dir: Dir) -> Result<(), AllocError> {
        let Some(player) = beside(site.level, square, dir.opposite()) else {
            return Ok(());
        };
        let Some(to) = beside(site.level, square, dir) else {
            return Ok(());
        };
        let waste = waste_at(site.wastes, square, dir);
        if waste == ENDLESS {
            return Ok(());
        }
        let pull = Pull {
            from: self.place(square),
            to: self.place(player),
            left: self.seat(to),
            entered: self.seat(square),
            player: self.seat(player),
            waste,
        };
        self.pulls.push(pull)?;
        Ok(())
    }
}

// Marks a square. Returns whether it was not marked before.
fn mark(marks: &mut [bool], square: Square) -> bool {
    let Some(mark) = marks.get_mut(square.0 as usize) else {
        return false;
    };
    let is_new = !*mark;
    *mark = true;
    is_new
}
