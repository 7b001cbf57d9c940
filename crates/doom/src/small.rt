//! Locked boxes in grids of few words, where sets of squares fit in registers.
ghost use Rattle.std.specs.Prelude.{◌≡◌, ◌*◌, ◌<◌, ◌≤◌, length};
ghost use Rattle.grid.specs.Squares.{insert, remove};
ghost use Rattle.area.specs.Words.{squares_of};
ghost use Rattle.doom.specs.inside.Locking.{HaveRoom, IsLargest, IsPass};
ghost use Rattle.doom.specs.inside.LockedOn.{TellsLockedOn};

use crate::holds::Holds;
use crate::locked::{is_other_word, peel_word, peel_words};
use area::bits::{has, put, take_out};
use grid::{Square, WORD_BITS};

/// The greatest number of words of a small grid.
pub(crate) const MOST_WORDS: usize = 4;

/// Reduces a set of `W` words to its largest subset each of whose squares is held, in a grid with fewer than
/// `WORD_BITS` columns.
#[inline(always)]
pub(crate) fn keep_held_few<const W: usize>(holds: &Holds, cols: usize, members: &mut [u64])
    requires few { W ≤ MOST_WORDS }
    requires narrow { cols < WORD_BITS }
    requires words { length members.old ≡ W }
    requires holds { HaveRoom holds.now W }
    ensures { IsLargest holds.now cols (squares_of members.old) (squares_of members.new) }
{
    let mut left = [0; W];
    left.copy_from_slice(members);
    // the remainder shows the compiler that squares above and below are in the same word or the next one
    while peel_few(holds, cols % WORD_BITS, &mut left) {}
    members.copy_from_slice(&left);
}

// Removes the squares that nothing holds, and returns whether it removed any. For one or two words there is no loop, so
// that the words stay in registers.
#[inline(always)]
fn peel_few<const W: usize>(holds: &Holds, cols: usize, members: &mut [u64; W]) -> bool
    requires holds { HaveRoom holds.now W }
    ensures { IsPass holds.now cols members.old members.new result }
{
    if W == 1 {
        return peel_word(holds, cols, members, 0);
    }
    if W == 2 {
        let first = peel_word(holds, cols, members, 0);
        let second = peel_word(holds, cols, members, 1);
        return first | second;
    }
    peel_words(holds, cols, members)
}

/// Whether some boxes are locked after one of them moved, in a grid of `W` words with fewer than `WORD_BITS` columns.
/// It stops once nothing holds the moved box, and so may miss boxes that are locked without it.
#[inline(always)]
pub(crate) fn is_locked_few<const W: usize>(
    holds: &Holds,
    cols: usize,
    boxes: &[u64],
    from: Square,
    to: Square,
) -> bool
    requires few { W ≤ MOST_WORDS }
    requires narrow { cols < WORD_BITS }
    requires words { length boxes.now ≡ W }
    requires holds { HaveRoom holds.now W }
    requires from { from < WORD_BITS * W }
    requires to { to < WORD_BITS * W }
    ensures { TellsLockedOn holds.now cols (insert (remove (squares_of boxes.now) from) to) to result }
{
    let mut left = [0; W];
    left.copy_from_slice(boxes);
    take_out(from, &mut left);
    put(to, &mut left);
    'passes: loop {
        let went = peel_few(holds, cols % WORD_BITS, &mut left);
        if !has(&left, to) {
            return false;
        }
        if !went {
            return is_other_word(&left, holds.goals.as_words());
        }
    }
}
