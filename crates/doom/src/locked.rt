ghost use Rattle.std.specs.Prelude.{◌≡◌, ℕ, ◌*◌, ◌+◌, ◌<◌, ◌≤◌, ◌↔◌, ◌&&◌, not, IfSome, IsTrue, true, false, length};
ghost use Rattle.std.specs.List.{list_any};
ghost use Rattle.grid.specs.Board.{is_wall};
ghost use Rattle.grid.specs.Masks.{has_bit, word_count};
ghost use Rattle.grid.specs.Squares.{Squares, contains, insert, remove};
ghost use Rattle.area.specs.Words.{squares_of, word_bit};
ghost use Rattle.doom.specs.inside.Locking.{AreWithin, HaveRoom, IsGroup, IsHeldBy, IsLargest, IsLook, IsPass};
ghost use Rattle.doom.specs.inside.Locking.{TellsLocked};
ghost use Rattle.doom.specs.inside.LockedOn.{TellsLockedOn};

use crate::holds::Holds;
use crate::small::{is_locked_few, keep_held_few};
use area::Scratch;
use area::bits::{after, before, has};
use grid::{Level, Square, WORD_BITS};

/// Whether some boxes are locked: each is held on both axes, by walls, dead squares or another of them beside it, and
/// at least one is off goal.
pub(crate) fn any_locked(
    level: &Level,
    holds: &Holds,
    boxes: &[Square],
    scratch: &mut Scratch,
) -> bool
    requires inside { (q : ℕ) → contains boxes.now q ≡ true → q < length level.now.cells }
    requires holds { HaveRoom holds.now (word_count (length level.now.cells)) }
    requires room { scratch.old.size ≡ length level.now.cells }
    ensures locked { TellsLocked holds.now level.now.cols boxes.now result }
    ensures kept { scratch.new ≡ scratch.old }
{
    has_locked(holds, level.cols(), boxes, scratch.boxes_aside(boxes))
}

/// `any_locked` for the boxes connected to the one on the square.
pub(crate) fn any_locked_with(
    level: &Level,
    holds: &Holds,
    boxes: &[Square],
    square: Square,
    scratch: &mut Scratch,
) -> bool
    requires clear { (q : ℕ) → contains boxes.now q ≡ true → is_wall level.now q ≡ false }
    requires there { contains boxes.now square ≡ true }
    requires holds { HaveRoom holds.now (word_count (length level.now.cells)) }
    requires room { scratch.old.size ≡ length level.now.cells }
    ensures locked { (group : Squares) × IsGroup level.now boxes.now square group ×
        TellsLocked holds.now level.now.cols group result }
    ensures kept { scratch.new ≡ scratch.old }
{
    let members = scratch.group_aside(level, boxes, square);
    has_locked(holds, level.cols(), boxes, members)
}

// Whether some squares of the set, all of which are boxes, are locked. Reduces the set to its largest subset each of
// whose squares is held.
pub(crate) fn has_locked(holds: &Holds, cols: usize, boxes: &[Square], members: &mut [u64]) -> bool
    requires holds { HaveRoom holds.now (length members.old) }
    requires among { AreWithin (squares_of members.old) boxes.now }
    requires inside { (q : ℕ) → contains boxes.now q ≡ true → q < WORD_BITS * length members.old }
    ensures locked { TellsLocked holds.now cols (squares_of members.old) result }
    ensures left { IsLargest holds.now cols (squares_of members.old) (squares_of members.new) }
{
    keep_held(holds, cols, boxes, members);
    has_other(boxes, members, holds.goals.as_words())
}

/// Whether some boxes are locked after one of them moved. It stops once nothing holds the moved box, and so may miss
/// boxes that are locked without it. `None` for grids of many words or columns.
#[inline(always)]
pub(crate) fn is_locked_on(
    holds: &Holds,
    cols: usize,
    boxes: &[u64],
    from: Square,
    to: Square,
) -> Option<bool>
    requires holds { HaveRoom holds.now (length boxes.now) }
    requires from { from < WORD_BITS * length boxes.now }
    requires to { to < WORD_BITS * length boxes.now }
    ensures { IfSome result (TellsLockedOn holds.now cols (insert (remove (squares_of boxes.now) from) to) to) }
{
    if cols >= WORD_BITS {
        return None;
    }
    match boxes.len() {
        1 => Some(is_locked_few::<1>(holds, cols, boxes, from, to)),
        2 => Some(is_locked_few::<2>(holds, cols, boxes, from, to)),
        3 => Some(is_locked_few::<3>(holds, cols, boxes, from, to)),
        4 => Some(is_locked_few::<4>(holds, cols, boxes, from, to)),
        _ => None,
    }
}

// Reduces the set to its largest subset each of whose squares is held.
fn keep_held(holds: &Holds, cols: usize, boxes: &[Square], members: &mut [u64])
    requires holds { HaveRoom holds.now (length members.old) }
    requires among { AreWithin (squares_of members.old) boxes.now }
    requires inside { (q : ℕ) → contains boxes.now q ≡ true → q < WORD_BITS * length members.old }
    ensures { IsLargest holds.now cols (squares_of members.old) (squares_of members.new) }
{
    if cols >= WORD_BITS {
        return keep_held_many(holds, cols, boxes, members);
    }
    match members.len() {
        1 => keep_held_few::<1>(holds, cols, members),
        2 => keep_held_few::<2>(holds, cols, members),
        3 => keep_held_few::<3>(holds, cols, members),
        4 => keep_held_few::<4>(holds, cols, members),
        _ => keep_held_many(holds, cols, boxes, members),
    }
}

// `keep_held` for any number of words.
fn keep_held_many(holds: &Holds, cols: usize, boxes: &[Square], members: &mut [u64])
    requires holds { HaveRoom holds.now (length members.old) }
    requires among { AreWithin (squares_of members.old) boxes.now }
    requires inside { (q : ℕ) → contains boxes.now q ≡ true → q < WORD_BITS * length members.old }
    ensures { IsLargest holds.now cols (squares_of members.old) (squares_of members.new) }
{
    while peel(holds, cols, boxes, members) {}
}

// Whether there are far more words than boxes, so that it is faster to visit the words of the boxes only.
#[inline(always)]
fn are_few(boxes: &[Square], words: &[u64]) -> bool {
    boxes.len() < words.len() / 2
}

// Removes the squares that nothing holds, and returns whether it removed any. It visits each word that has a box.
fn peel(holds: &Holds, cols: usize, boxes: &[Square], members: &mut [u64]) -> bool
    requires holds { HaveRoom holds.now (length members.old) }
    requires among { AreWithin (squares_of members.old) boxes.now }
    requires inside { (q : ℕ) → contains boxes.now q ≡ true → q < WORD_BITS * length members.old }
    ensures { IsPass holds.now cols members.old members.new result }
{
    if are_few(boxes, members) {
        peel_boxes(holds, cols, boxes, members)
    } else {
        peel_words(holds, cols, members)
    }
}

// `peel` by the word of each box.
fn peel_boxes(holds: &Holds, cols: usize, boxes: &[Square], members: &mut [u64]) -> bool
    requires holds { HaveRoom holds.now (length members.old) }
    requires among { AreWithin (squares_of members.old) boxes.now }
    requires inside { (q : ℕ) → contains boxes.now q ≡ true → q < WORD_BITS * length members.old }
    ensures { IsPass holds.now cols members.old members.new result }
{
    let mut went = false;
    for square in boxes {
        went |= peel_word(holds, cols, members, square.0 as usize / WORD_BITS);
    }
    went
}

// One pass of `peel` over all words.
pub(crate) fn peel_words(holds: &Holds, cols: usize, members: &mut [u64]) -> bool
    requires holds { HaveRoom holds.now (length members.old) }
    ensures { IsPass holds.now cols members.old members.new result }
{
    let mut went = false;
    for index in 0..members.len() {
        went |= peel_word(holds, cols, members, index);
    }
    went
}

// Removes from one word the squares that nothing holds, and returns whether it removed any. Most words of large rooms
// are empty.
#[inline(always)]
pub(crate) fn peel_word(holds: &Holds, cols: usize, members: &mut [u64], index: usize) -> bool
    requires index { index < length members.old }
    requires holds { HaveRoom holds.now (length members.old) }
    ensures { IsLook holds.now cols index members.old members.new result }
{
    let old = members[index];
    if old == 0 {
        return false;
    }
    let across = held(holds.across.as_words(), members, index, 1);
    let along = held(holds.along.as_words(), members, index, cols);
    let kept = (old & across) & along;
    members[index] = kept;
    kept != old
}

// For each square of a word, whether a box there is held on an axis: by walls or dead squares, or by a member `by`
// squares before or after it.
#[inline(always)]
pub(crate) fn held(fast: &[u64], members: &[u64], index: usize, by: usize) -> u64
    requires index { index < length members.now }
    requires room { length members.now ≤ length fast.now }
    ensures { (j : ℕ) → j < WORD_BITS → (word_bit result j ≡ true) ↔
        IsHeldBy fast.now by (squares_of members.now) (WORD_BITS * index + j) }
{
    (fast[index] | before(members, index, by)) | after(members, index, by)
}

// Whether a square of `members`, all of which are boxes, is not in `others`.
fn has_other(boxes: &[Square], members: &[u64], others: &[u64]) -> bool
    requires room { length members.now ≤ length others.now }
    requires among { AreWithin (squares_of members.now) boxes.now }
    ensures { IsTrue result ↔ ((q : ℕ) × (has_bit members.now q ≡ true) × (has_bit others.now q ≡ false)) }
{
    if are_few(boxes, members) {
        is_other_box(boxes, members, others)
    } else {
        is_other_word(members, others)
    }
}

// `has_other` by each box.
fn is_other_box(boxes: &[Square], members: &[u64], others: &[u64]) -> bool
    ensures { result ≡ list_any (λ q. has_bit members.now q && not (has_bit others.now q)) boxes.now }
{
    boxes
        .iter()
        .any(|square| has(members, *square) && !has(others, *square))
}

// `has_other` by each word.
pub(crate) fn is_other_word(members: &[u64], others: &[u64]) -> bool
    requires { length members.now ≤ length others.now }
    ensures { IsTrue result ↔ ((q : ℕ) × (has_bit members.now q ≡ true) × (has_bit others.now q ≡ false)) }
{
    for index in 0..members.len() {
        if (members[index] & !others[index]) != 0 {
            return true;
        }
    }
    false
}
