//! The proved check that makes a table a lower bound: one set of boxes at a time.
ghost use Rattle.std.specs.Prelude.{◌≡◌, ◌<◌, ◌≤◌, ℕ, IfOk, IsTrue, true, length};
ghost use Rattle.grid.specs.Board.{is_goal};
ghost use Rattle.grid.specs.Squares.{contains};
ghost use Rattle.regions.specs.Regions.{IsRegion};
ghost use Rattle.regions.specs.inside.Checks.{HasSteps, IsListedAt, SetPasses, SetsPass};
ghost use Rattle.regions.specs.inside.Listing.{AreListed, HasOwnBit, box_in};
ghost use Rattle.regions.specs.inside.Tables.{byte_for, says, waste_in};

use crate::listing::{Look, Steps, are_apart, are_listed, bit_of, bits_of, has_box, steps_of};
use crate::steps::{BoxSet, entries_pay, pushes_pay, walks_keep};
use crate::table::RegionTable;
use grid::{Level, Position, Square};
use std::alloc::{AllocError, Global};

/// Whether the table passes the check, if a push wastes what `wastes` states. Fails only if out of memory.
pub(crate) fn passes(
    alloc: Global,
    level: &Level,
    wastes: &[u8],
    table: &RegionTable,
) -> Result<bool, AllocError>
    ensures { IfOk result (λ yes. IsTrue yes → IsRegion level.now (waste_in wastes.now) (says table.now)) }
{
    let listed = seats_of(alloc, level, table)?;
    let Some(seats) = Position::of(listed.as_slice(), Square(0)) else {
        return Ok(false);
    };
    let bits = bits_of(alloc, level.squares(), seats.boxes())?;
    let look = Look {
        level,
        wastes,
        table,
        seats: &seats,
        bits: bits.as_slice(),
    };
    let steps = steps_of(alloc, &look)?;
    let all = all_pass(&look, &steps);
    Ok(all)
}

// The squares where a box is seen. Which these are is checked.
fn seats_of(alloc: Global, level: &Level, table: &RegionTable) -> Result<Vec<Square>, AllocError> {
    level.tell();
    let mut seats = Vec::new(alloc);
    for index in 0..level.squares() {
        let square = Square(index as u16);
        if table.is_seat(square) {
            seats.push(square)?;
        }
    }
    Ok(seats)
}

// Whether all squares and steps are listed, and all sets of boxes pass.
fn all_pass(look: &Look<'_>, steps: &Steps) -> bool
    ensures { IsTrue result → IsRegion look.now.level.now (waste_in look.now.wastes.now) (says look.now.table.now) }
{
    look.level.tell();
    if !are_squares_listed(look.level, look.table, look.seats) {
        return false;
    }
    let seats = look.seats.boxes();
    if !are_apart(look.bits, seats) {
        return false;
    }
    if !are_listed(look, steps) {
        return false;
    }
    sets_pass(look, steps, seats, 0, 0, 0, look.level.boxes())
}

// Whether the squares with a place other than 0 and those where a box is seen are listed.
fn are_squares_listed(level: &Level, table: &RegionTable, seats: &Position) -> bool
    ensures { IsTrue result → HasSteps level.now table.now seats.now.boxes }
{
    level.tell();
    for index in 0..level.squares() {
        if !is_listed(table, seats, Square(index as u16)) {
            return false;
        }
    }
    true
}

// Whether the square is listed, if its place is not 0, or a box on it is seen.
fn is_listed(table: &RegionTable, seats: &Position, square: Square) -> bool
    ensures { IsTrue result → IsListedAt table.now seats.now.boxes square }
{
    let seen = !table.is_seat(square) || seats.contains(square);
    let within = table.place(square) == 0 || is_among(table.squares.as_slice(), square);
    seen & within
}

// Whether the square is one of these.
fn is_among(squares: &[Square], square: Square) -> bool
    ensures { result ≡ contains squares.now square }
{
    let mut found = false;
    for other in squares {
        found |= *other == square;
    }
    found
}

// Whether all sets of boxes pass that have these bits, except on the rest of the seats, where they have at most `left`
// boxes.
fn sets_pass(
    look: &Look<'_>,
    steps: &Steps,
    rest: &[Square],
    bits: u64,
    high: u32,
    low: u32,
    left: usize,
) -> bool
    requires apart { (x : ℕ) → contains rest.now x ≡ true → HasOwnBit look.now.bits.now x }
    requires listed { AreListed look.now steps.now }
    ensures { IsTrue result → SetsPass look.now.level.now look.now.table.now (waste_in look.now.wastes.now)
        look.now.seats.now.boxes rest.now (box_in look.now.bits.now bits) high low left }
{
    let [first, others @ ..] = rest else {
        return set_passes(
            look,
            steps,
            &BoxSet {
                bits,
                high,
                low,
                left,
            },
        );
    };
    let own = bit_of(look.bits, *first);
    if own == 0 {
        return false;
    }
    if bits & own != 0 {
        return false;
    }
    if !sets_pass(look, steps, others, bits, high, low, left) {
        return false;
    }
    if left == 0 {
        return true;
    }
    let key = look.table.key(*first);
    let Some(high_with) = high.checked_add(key.high) else {
        return false;
    };
    let Some(low_with) = low.checked_add(key.low) else {
        return false;
    };
    sets_pass(
        look,
        steps,
        others,
        bits | own,
        high_with,
        low_with,
        left - 1,
    )
}

// Whether a set of boxes passes.
fn set_passes(look: &Look<'_>, steps: &Steps, set: &BoxSet) -> bool
    requires { AreListed look.now steps.now }
    ensures { IsTrue result → SetPasses look.now.level.now look.now.table.now (waste_in look.now.wastes.now)
        look.now.seats.now.boxes (box_in look.now.bits.now set.now.bits) set.now.high set.now.low set.now.left }
{
    let row = look.table.row(set.high as usize, set.low as usize);
    if !walks_keep(look.table, steps.walks.as_slice(), set.bits, row) {
        return false;
    }
    if !pushes_pay(look.table, steps.pushes.as_slice(), set, row) {
        return false;
    }
    if !entries_pay(look.table, steps.entries.as_slice(), set, row) {
        return false;
    }
    home_passes(look, set.bits, row)
}

// Whether the row says 0 if the set is that of a solved position.
fn home_passes(look: &Look<'_>, set: u64, row: usize) -> bool
    requires { row ≤ 8589934590 }
    ensures { IsTrue result → ((q : ℕ) → contains look.now.seats.now.boxes q ≡ true →
        box_in look.now.bits.now set q ≡ is_goal look.now.level.now q) → (p : ℕ) →
        p < length look.now.level.now.cells → byte_for look.now.table.now row p ≡ 0 }
{
    !is_home(look, look.seats.boxes(), set) || is_nothing(look, row)
}

// Whether the seats with goals are those with boxes.
fn is_home(look: &Look<'_>, seats: &[Square], set: u64) -> bool
    ensures { ((q : ℕ) → contains seats.now q ≡ true → box_in look.now.bits.now set q ≡ is_goal look.now.level.now q)
        → IsTrue result }
{
    let [first, rest @ ..] = seats else {
        return true;
    };
    let boxed = has_box(look.bits, set, *first);
    let goal = look.level.is_goal(*first);
    boxed == goal && is_home(look, rest, set)
}

// Whether the row says 0, wherever the player is.
fn is_nothing(look: &Look<'_>, row: usize) -> bool
    requires { row ≤ 8589934590 }
    ensures { IsTrue result → (p : ℕ) → p < length look.now.level.now.cells → byte_for look.now.table.now row p ≡ 0 }
{
    look.level.tell();
    for index in 0..look.level.squares() {
        if look.table.entry(row, Square(index as u16)) != 0 {
            return false;
        }
    }
    true
}
