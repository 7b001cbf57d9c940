//! What the check of a table looks at for one set of boxes: the steps that are listed.
ghost use Rattle.std.specs.Prelude.{◌≡◌, ◌≢◌, ◌≤◌, ℕ, IsTrue, Some, slice_get};
ghost use Rattle.std.specs.Int.RustNames.{bit_and};
ghost use Rattle.regions.specs.declared.listing.PushStep.{PushStep};
ghost use Rattle.regions.specs.declared.listing.WalkStep.{WalkStep};
ghost use Rattle.regions.specs.Regions.{IsLeft};
ghost use Rattle.regions.specs.inside.Listing.{PaysFor, WalkKeeps};
ghost use Rattle.regions.specs.inside.Tables.{row_of};

use crate::listing::{PushStep, WalkStep};
use crate::table::{ENDLESS, RegionTable};

/// A set of boxes: the bits of its seats, the sums of its keys, and how many boxes there may be besides.
#[derive(Clone, Copy)]
pub(crate) struct BoxSet {
    pub(crate) bits: u64,
    pub(crate) high: u32,
    pub(crate) low: u32,
    pub(crate) left: usize,
}

/// Whether no step of the player changes what the row says.
pub(crate) fn walks_keep(table: &RegionTable, walks: &[WalkStep], bits: u64, row: usize) -> bool
    requires { row ≤ 8589934590 }
    ensures { IsTrue result → (i : ℕ) (w : WalkStep) → slice_get walks.now i ≡ Some w →
        WalkKeeps table.now bits row w }
{
    for walk in walks {
        if !walk_keeps(table, walk, bits, row) {
            return false;
        }
    }
    true
}

// Whether a step of the player changes nothing, or a box is in the way.
#[inline(always)]
fn walk_keeps(table: &RegionTable, walk: &WalkStep, bits: u64, row: usize) -> bool
    requires { row ≤ 8589934590 }
    ensures { IsTrue result → WalkKeeps table.now bits row walk.now }
{
    bits & walk.seats != 0 || table.byte(row, walk.from) == table.byte(row, walk.to)
}

/// Whether what is left after each of the pushes of boxes of the set pays for what was before it.
pub(crate) fn pushes_pay(table: &RegionTable, pushes: &[PushStep], set: &BoxSet, row: usize) -> bool
    requires row { row ≡ row_of table.now set.now.high set.now.low }
    requires few { row ≤ 8589934590 }
    ensures { IsTrue result → (i : ℕ) (p : PushStep) → slice_get pushes.now i ≡ Some p →
        bit_and set.now.bits p.seat ≢ 0 → PaysFor table.now set.now.bits set.now.high set.now.low p }
{
    for push in pushes {
        if !seat_pays(table, push, set, row) {
            return false;
        }
    }
    true
}

/// Whether what is left after each push of another box to a seat pays for what was before it, if there is another box.
pub(crate) fn entries_pay(
    table: &RegionTable,
    entries: &[PushStep],
    set: &BoxSet,
    row: usize,
) -> bool
    requires row { row ≡ row_of table.now set.now.high set.now.low }
    requires few { row ≤ 8589934590 }
    ensures { IsTrue result → 1 ≤ set.now.left → (i : ℕ) (p : PushStep) → slice_get entries.now i ≡ Some p →
        PaysFor table.now set.now.bits set.now.high set.now.low p }
{
    if set.left == 0 {
        return true;
    }
    for push in entries {
        if !pays(table, push, set, row) {
            return false;
        }
    }
    true
}

// Whether a push pays, or a box is in the way, or the seat has no box.
#[inline(always)]
fn seat_pays(table: &RegionTable, push: &PushStep, set: &BoxSet, row: usize) -> bool
    requires row { row ≡ row_of table.now set.now.high set.now.low }
    requires few { row ≤ 8589934590 }
    ensures { IsTrue result → bit_and set.now.bits push.now.seat ≢ 0 →
        PaysFor table.now set.now.bits set.now.high set.now.low push.now }
{
    set.bits & push.seat == 0 || pays(table, push, set, row)
}

// Whether a push pays, or a box is in the way.
#[inline(always)]
fn pays(table: &RegionTable, push: &PushStep, set: &BoxSet, row: usize) -> bool
    requires row { row ≡ row_of table.now set.now.high set.now.low }
    requires few { row ≤ 8589934590 }
    ensures { IsTrue result → PaysFor table.now set.now.bits set.now.high set.now.low push.now }
{
    if set.bits & push.free != 0 {
        return true;
    }
    let before = table.byte(row, push.player);
    if is_covered(before, push.waste) {
        return true;
    }
    let high = set.high.saturating_sub(push.left.high) as usize + push.entered.high as usize;
    let low = set.low.saturating_sub(push.left.low) as usize + push.entered.low as usize;
    let after = table.byte(table.row(high, low), push.place);
    is_left(before, push.waste, after)
}

// Whether the waste of a push pays for what was before it.
#[inline(always)]
fn is_covered(before: u8, waste: u8) -> bool
    ensures { IsTrue result → (after : ℕ) → IsLeft before waste after }
{
    before <= waste && before < ENDLESS
}

// Whether what is left after a push with this waste pays for what was before it.
#[inline(always)]
fn is_left(before: u8, waste: u8, after: u8) -> bool
    ensures { IsTrue result → IsLeft before waste after }
{
    if before == ENDLESS {
        return after == ENDLESS;
    }
    u32::from(before) <= u32::from(waste) + u32::from(after)
}
