//! The single steps that the check of a table looks at, listed once for all sets of boxes. The lists are made without
//! any contract: that all steps are listed is checked.
ghost use Rattle.std.specs.Prelude.{◌≡◌, ◌≢◌, ◌<◌, ℕ, IsTrue, true, length};
ghost use Rattle.std.specs.Int.RustNames.{bit_and};
ghost use Rattle.grid.specs.declared.dir.Dir.{Dir};
ghost use Rattle.grid.specs.Squares.{contains};
ghost use Rattle.regions.specs.Regions.{endless};
ghost use Rattle.regions.specs.inside.Listing.{AreListed, EntryListed, Has, HasOwnBit, PushListed};
ghost use Rattle.regions.specs.inside.Listing.{SeatListed, WalkListed, WalksListed, bit_of, box_in, push_in, walk_in};
ghost use Rattle.regions.specs.inside.Tables.{waste_in};

use crate::table::{BoxKey, ENDLESS, RegionTable, waste_at};
use crate::wastes::beside;
use grid::{Dir, Level, Position, Square};
use std::alloc::{AllocError, Global};

/// A step of the player between two places, and the bits of their seats.
#[derive(Clone, Copy, PartialEq, Eq)]
pub(crate) struct WalkStep {
    pub(crate) from: u8,
    pub(crate) to: u8,
    pub(crate) seats: u64,
}

/// A push: the places of the player and of the box before it, the waste, the bits of the seats that are free before
/// it, the bit of the box's seat, and the keys of the squares that the box leaves and comes to. A bit is 0 where no box
/// is seen.
#[derive(Clone, Copy, PartialEq, Eq)]
pub(crate) struct PushStep {
    pub(crate) player: u8,
    pub(crate) place: u8,
    pub(crate) waste: u8,
    pub(crate) free: u64,
    pub(crate) seat: u64,
    pub(crate) left: BoxKey,
    pub(crate) entered: BoxKey,
}

/// What is looked at: a table of a level, the waste of pushes that it counts, the squares where a box is seen, and the
/// bits of all squares.
#[derive(Clone, Copy)]
pub(crate) struct Look<'a> {
    pub(crate) level: &'a Level,
    pub(crate) wastes: &'a [u8],
    pub(crate) table: &'a RegionTable,
    pub(crate) seats: &'a Position,
    pub(crate) bits: &'a [u64],
}

/// The steps within a region and to and from the outside: those of the player, pushes of boxes that are seen, and
/// pushes of other boxes to squares where they are seen.
#[derive(Drop)]
pub(crate) struct Steps {
    pub(crate) walks: Vec<WalkStep>,
    pub(crate) pushes: Vec<PushStep>,
    pub(crate) entries: Vec<PushStep>,
}

/// A bit for each seat, by square; 0 elsewhere.
pub(crate) fn bits_of(
    alloc: Global,
    squares: usize,
    seats: &[Square],
) -> Result<Vec<u64>, AllocError> {
    let mut bits = vec![in alloc; 0; squares]?;
    for (index, seat) in seats.iter().enumerate() {
        if let Some(bit) = bits.as_mut_slice().get_mut(seat.0 as usize) {
            *bit = 1 << (index % 64);
        }
    }
    Ok(bits)
}

/// Lists the steps.
pub(crate) fn steps_of(alloc: Global, look: &Look<'_>) -> Result<Steps, AllocError> {
    let mut steps = Steps {
        walks: Vec::new(alloc),
        pushes: Vec::new(alloc),
        entries: Vec::new(alloc),
    };
    for square in look.table.squares.as_slice() {
        for dir in Dir::ALL {
            steps.list_walk(look, *square, dir)?;
        }
    }
    for square in look.seats.boxes() {
        for dir in Dir::ALL {
            steps.list_push(look, *square, dir)?;
            steps.list_entry(look, *square, dir)?;
        }
    }
    Ok(steps)
}

impl Steps {
    // Lists a step of the player, unless it or the step back is listed.
    fn list_walk(&mut self, look: &Look<'_>, square: Square, dir: Dir) -> Result<(), AllocError> {
        if let Some(next) = beside(look.level, square, dir) {
            if !is_walk_listed(look, self.walks.as_slice(), square, next) {
                self.walks.push(walk_of(look, square, next))?;
            }
        }
        Ok(())
    }

    // Lists a push of a box on the square, unless the box can come to no goal afterwards.
    fn list_push(&mut self, look: &Look<'_>, square: Square, dir: Dir) -> Result<(), AllocError> {
        if let Some(player) = beside(look.level, square, dir.opposite()) {
            if let Some(to) = beside(look.level, square, dir) {
                let push = push_of(look, player, square, to, dir);
                if push.waste != ENDLESS {
                    self.pushes.push(push)?;
                }
            }
        }
        Ok(())
    }

    // Lists a push to the square of a box that is not seen before it.
    fn list_entry(&mut self, look: &Look<'_>, to: Square, dir: Dir) -> Result<(), AllocError> {
        if let Some(square) = beside(look.level, to, dir.opposite()) {
            if let Some(player) = beside(look.level, square, dir.opposite()) {
                let push = push_of(look, player, square, to, dir);
                if push.waste != ENDLESS && !look.table.is_seat(square) {
                    self.entries.push(push)?;
                }
            }
        }
        Ok(())
    }
}

/// The bit of a square; 0 if no box is seen there.
#[inline(always)]
pub(crate) fn bit_of(bits: &[u64], square: Square) -> u64
    ensures { result ≡ bit_of bits.now square }
{
    bit_at(bits, square.0 as usize)
}

/// Whether the set has a box on the square.
#[inline(always)]
pub(crate) fn has_box(bits: &[u64], set: u64, square: Square) -> bool
    ensures { result ≡ box_in bits.now set square }
{
    set & bit_of(bits, square) != 0
}

// The step of the player between two squares.
fn walk_of(look: &Look<'_>, square: Square, to: Square) -> WalkStep
    ensures { result ≡ walk_in look.now square to }
{
    WalkStep {
        from: look.table.place(square),
        to: look.table.place(to),
        seats: bit_of(look.bits, square) | bit_of(look.bits, to),
    }
}

// The push of a box on a square to the next.
fn push_of(look: &Look<'_>, player: Square, square: Square, to: Square, dir: Dir) -> PushStep
    ensures { result ≡ push_in look.now player square to dir }
{
    PushStep {
        player: look.table.place(player),
        place: look.table.place(square),
        waste: waste_at(look.wastes, square, dir),
        free: bit_of(look.bits, player) | bit_of(look.bits, to),
        seat: bit_of(look.bits, square),
        left: look.table.key(square),
        entered: look.table.key(to),
    }
}

/// Whether all steps are listed.
pub(crate) fn are_listed(look: &Look<'_>, steps: &Steps) -> bool
    ensures { IsTrue result → AreListed look.now steps.now }
{
    let walks = are_walks_listed(look, steps.walks.as_slice(), look.table.squares.as_slice());
    let seats = are_seats_listed(look, steps, look.seats.boxes());
    walks & seats
}

// Whether each step of the player from these squares is listed.
fn are_walks_listed(look: &Look<'_>, walks: &[WalkStep], squares: &[Square]) -> bool
    ensures { IsTrue result → (z : ℕ) → contains squares.now z ≡ true → (d : Dir) →
        WalksListed look.now walks.now z d }
{
    let [first, rest @ ..] = squares else {
        return true;
    };
    are_walks_listed_from(look, walks, *first) && are_walks_listed(look, walks, rest)
}

// Whether each step of the player from the square is listed.
fn are_walks_listed_from(look: &Look<'_>, walks: &[WalkStep], square: Square) -> bool
    ensures { IsTrue result → (d : Dir) → WalksListed look.now walks.now square d }
{
    if look.level.is_wall(square) {
        return true;
    }
    let down = is_walk_listed_to(look, walks, square, Dir::D);
    let left = is_walk_listed_to(look, walks, square, Dir::L);
    let right = is_walk_listed_to(look, walks, square, Dir::R);
    let up = is_walk_listed_to(look, walks, square, Dir::U);
    down & left & right & up
}

// Whether the step of the player from the square in a direction is listed.
fn is_walk_listed_to(look: &Look<'_>, walks: &[WalkStep], square: Square, dir: Dir) -> bool
    requires { square < length look.now.level.now.cells }
    ensures { IsTrue result → WalksListed look.now walks.now square dir }
{
    let to = look.level.next(square, dir);
    look.level.is_wall(to) || is_walk_listed(look, walks, square, to)
}

// Whether the step of the player between two squares, or the step back, is listed.
fn is_walk_listed(look: &Look<'_>, walks: &[WalkStep], square: Square, to: Square) -> bool
    ensures { IsTrue result → WalkListed look.now walks.now square to }
{
    has_walk(walks, &walk_of(look, square, to)) || has_walk(walks, &walk_of(look, to, square))
}

// Whether the step is in the list.
fn has_walk(walks: &[WalkStep], wanted: &WalkStep) -> bool
    ensures { IsTrue result → Has walks.now wanted.now }
{
    for walk in walks {
        if *walk == *wanted {
            return true;
        }
    }
    false
}

// Whether the pushes from these seats, and to them, are listed.
fn are_seats_listed(look: &Look<'_>, steps: &Steps, seats: &[Square]) -> bool
    ensures { IsTrue result → (q : ℕ) → contains seats.now q ≡ true → (d : Dir) → SeatListed look.now steps.now q d }
{
    let [first, rest @ ..] = seats else {
        return true;
    };
    is_seat_listed(look, steps, *first) && are_seats_listed(look, steps, rest)
}

// Whether the pushes from a seat, and to it, are listed.
fn is_seat_listed(look: &Look<'_>, steps: &Steps, seat: Square) -> bool
    ensures { IsTrue result → (d : Dir) → SeatListed look.now steps.now seat d }
{
    if look.level.is_wall(seat) {
        return false;
    }
    let down = is_seat_listed_to(look, steps, seat, Dir::D);
    let left = is_seat_listed_to(look, steps, seat, Dir::L);
    let right = is_seat_listed_to(look, steps, seat, Dir::R);
    let up = is_seat_listed_to(look, steps, seat, Dir::U);
    down & left & right & up
}

// Whether the push from a seat in a direction, and that to it, is listed.
fn is_seat_listed_to(look: &Look<'_>, steps: &Steps, seat: Square, dir: Dir) -> bool
    requires { seat < length look.now.level.now.cells }
    ensures { IsTrue result → SeatListed look.now steps.now seat dir }
{
    let from = is_push_listed(look, steps.pushes.as_slice(), seat, dir);
    let to = is_entry_listed(look, steps.entries.as_slice(), seat, dir);
    from & to
}

// Whether the push of a box on the square is listed.
fn is_push_listed(look: &Look<'_>, pushes: &[PushStep], square: Square, dir: Dir) -> bool
    requires { square < length look.now.level.now.cells }
    ensures { IsTrue result → PushListed look.now pushes.now square dir }
{
    let player = look.level.next(square, dir.opposite());
    let to = look.level.next(square, dir);
    look.level.is_wall(player)
        || look.level.is_wall(to)
        || is_listed(look, pushes, player, square, to, dir)
}

// Whether the push to the square of a box that is not seen is listed.
fn is_entry_listed(look: &Look<'_>, entries: &[PushStep], to: Square, dir: Dir) -> bool
    requires { to < length look.now.level.now.cells }
    ensures { IsTrue result → EntryListed look.now entries.now to dir }
{
    let square = look.level.next(to, dir.opposite());
    if look.level.is_wall(square) {
        return true;
    }
    if look.table.is_seat(square) {
        return true;
    }
    let player = look.level.next(square, dir.opposite());
    look.level.is_wall(player) || is_listed(look, entries, player, square, to, dir)
}

// Whether the push is in the list, or its box can come to no goal afterwards.
fn is_listed(
    look: &Look<'_>,
    pushes: &[PushStep],
    player: Square,
    square: Square,
    to: Square,
    dir: Dir,
) -> bool
    ensures { IsTrue result → waste_in look.now.wastes.now square dir < endless →
        Has pushes.now (push_in look.now player square to dir) }
{
    let waste = waste_at(look.wastes, square, dir);
    waste == ENDLESS || has_push(pushes, &push_of(look, player, square, to, dir))
}

// Whether the push is in the list.
fn has_push(pushes: &[PushStep], wanted: &PushStep) -> bool
    ensures { IsTrue result → Has pushes.now wanted.now }
{
    for push in pushes {
        if *push == *wanted {
            return true;
        }
    }
    false
}

/// Whether no square has a bit of one of these seats, except the seat.
pub(crate) fn are_apart(bits: &[u64], seats: &[Square]) -> bool
    ensures { IsTrue result → (x : ℕ) → contains seats.now x ≡ true → HasOwnBit bits.now x }
{
    let [first, rest @ ..] = seats else {
        return true;
    };
    is_apart(bits, *first) && are_apart(bits, rest)
}

// Whether no other square has a bit of the seat.
fn is_apart(bits: &[u64], seat: Square) -> bool
    ensures { IsTrue result → HasOwnBit bits.now seat }
{
    for index in 0..bits.len() {
        if !are_disjoint(bits, seat, index) {
            return false;
        }
    }
    true
}

// Whether the square with the index has no bit of the seat, or is the seat.
fn are_disjoint(bits: &[u64], seat: Square, index: usize) -> bool
    ensures { IsTrue result → seat ≢ index → bit_and (bit_of bits.now seat) (bit_of bits.now index) ≡ 0 }
{
    seat.0 as usize == index || bit_of(bits, seat) & bit_at(bits, index) == 0
}

// The bit at an index; 0 if there is none.
#[inline(always)]
fn bit_at(bits: &[u64], at: usize) -> u64
    ensures { result ≡ bit_of bits.now at }
{
    bits.get(at).copied().unwrap_or(0)
}
