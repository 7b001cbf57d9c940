//! Deals the successors of a parcel to the shares before any book is locked, so that the book of a share can skip the
//! successors of the others.
ghost use Rattle.std.specs.Prelude.{◌≡◌, ℕ, ◌+◌, ◌*◌, ◌<◌, ◌≤◌, [], ◌∷◌, length, slice_set, slice_index_or};
ghost use Rattle.successors.specs.inside.Dealt.{IsDealt};

use crate::limits::MAX_SHARES;
use crate::sums::share_by;

/// More successors than this are not dealt. Each share has a row of this many places.
pub(crate) const MOST_DEALT: usize = 64;

/// The number of places in the rows of all shares.
pub(crate) const ROWS: usize = MOST_DEALT * MAX_SHARES as usize;

/// The places of successors, those of each share in a row of its own.
#[derive(Drop)]
pub(crate) struct Deal {
    // the number of shares, or 0 if nothing is dealt
    pub(crate) shares: u8,
    // the number of successors of each share
    pub(crate) lens: [u8; MAX_SHARES as usize],
    // for each share a row that begins with the places of its successors, in their order
    pub(crate) rows: [u8; ROWS],
}

impl Deal {
    /// A deal of no successors to no shares.
    pub(crate) fn none() -> Deal
        ensures { result.shares ≡ 0 }
    {
        Deal {
            shares: 0,
            rows: [0; ROWS],
            lens: [0; MAX_SHARES as usize],
        }
    }

    /// Deals successors with these sums to `shares` shares, unless there are too many successors or shares.
    pub(crate) fn deal(&mut self, shares: u8, sums: &[u32])
        ensures { IsDealt self.new.shares self.new.rows self.new.lens sums.now }
    {
        self.shares = 0;
        if shares < 2 || shares > MAX_SHARES || sums.len() > MOST_DEALT {
            return;
        }
        deal_all(shares, sums, &mut self.rows, &mut self.lens);
        self.shares = shares;
    }
}

// Puts the place of each successor into the row of its share. The number of shares is a constant in each branch, so
// that powers of two need no division.
fn deal_all(shares: u8, sums: &[u32], rows: &mut [u8; ROWS], lens: &mut [u8; MAX_SHARES as usize])
    requires some { 0 < shares }
    requires shares { shares ≤ MAX_SHARES }
    requires few { length sums.now ≤ MOST_DEALT }
    ensures { IsDealt shares rows.new lens.new sums.now }
{
    match shares {
        2 => deal_both(sums, rows, lens),
        4 => deal_each(4, sums, rows, lens),
        8 => deal_each(8, sums, rows, lens),
        16 => deal_each(16, sums, rows, lens),
        _ => deal_each(shares, sums, rows, lens),
    }
}

// Puts the place of each successor into the row of one of two shares. It counts the successors of each share in a local
// variable, so that no count waits for the one before it to be written and read.
fn deal_both(sums: &[u32], rows: &mut [u8; ROWS], lens: &mut [u8; MAX_SHARES as usize])
    requires few { length sums.now ≤ MOST_DEALT }
    ensures { IsDealt 2 rows.new lens.new sums.now }
{
    let mut evens: usize = 0;
    let mut odds: usize = 0;
    for (place, sum) in sums.iter().enumerate() {
        let share = share_by(*sum, 2) as usize;
        let len = len_of(share, evens, odds);
        rows[share * MOST_DEALT + len] = place as u8;
        evens += 1 - share;
        odds += share;
    }
    *lens = [0; MAX_SHARES as usize];
    lens[0] = evens as u8;
    lens[1] = odds as u8;
}

// The number of places of one of two shares.
#[inline(always)]
fn len_of(share: usize, evens: usize, odds: usize) -> usize
    requires { share < 2 }
    ensures { result ≡ slice_index_or (evens ∷ odds ∷ []) share 0 }
{
    if share == 0 { evens } else { odds }
}

// Puts the place of each successor into the row of its share, one after the other. No branch depends on a sum, since
// the processor could not predict it.
#[inline(always)]
fn deal_each(shares: u8, sums: &[u32], rows: &mut [u8; ROWS], lens: &mut [u8; MAX_SHARES as usize])
    requires some { 0 < shares }
    requires shares { shares ≤ MAX_SHARES }
    requires few { length sums.now ≤ MOST_DEALT }
    ensures { IsDealt shares rows.new lens.new sums.now }
{
    *lens = [0; MAX_SHARES as usize];
    for (place, sum) in sums.iter().enumerate() {
        put(share_by(*sum, shares), place as u8, rows, lens);
    }
}

// Appends a place to the row of a share.
#[inline(always)]
fn put(share: u8, place: u8, rows: &mut [u8; ROWS], lens: &mut [u8; MAX_SHARES as usize])
    requires share { share < MAX_SHARES }
    requires room { slice_index_or lens.old share 0 < MOST_DEALT }
    ensures rows { rows.new ≡ slice_set rows.old (share * MOST_DEALT + slice_index_or lens.old share 0) place }
    ensures lens { lens.new ≡ slice_set lens.old share (slice_index_or lens.old share 0 + 1) }
{
    let len = lens[share as usize];
    rows[share as usize * MOST_DEALT + len as usize] = place;
    lens[share as usize] = len + 1;
}
