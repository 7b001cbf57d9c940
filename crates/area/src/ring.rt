//! The eight squares round one that a box is pushed onto, as bits of three rows: do steps on them still connect
//! what the box separates?
ghost use Rattle.std.specs.Prelude.{◌≡◌, ℕ, ◌<◌, length};
ghost use Rattle.area.specs.Words.{word_bit};
ghost use Rattle.area.specs.inside.Detours.{across};
ghost use Rattle.area.specs.inside.RingBits.{IsFlank, IsRing, IsTurned, joins};

use crate::bits::after;
use grid::{Dir, Square, WORD_BITS};

/// Which squares a set contains of one, the middle, and the eight round it: the lowest three bits of a word for
/// each of three rows, left to right.
#[derive(Clone, Copy, PartialEq, Eq)]
pub(crate) struct Ring {
    pub(crate) above: u64,
    pub(crate) beside: u64,
    pub(crate) below: u64,
}

/// Which squares a set contains on one side of a push onto the middle: the one beside the square that the box comes
/// from, the one beside the middle, and the one after that in the push's direction.
#[derive(Clone, Copy, PartialEq, Eq)]
pub(crate) struct Flank {
    pub(crate) corner: bool,
    pub(crate) beside: bool,
    pub(crate) front: bool,
}

/// A ring as a push onto the middle meets it: a flank on each side, left or above first, and whether the set
/// contains the square beyond the middle, and the middle.
#[derive(Clone, Copy, PartialEq, Eq)]
pub(crate) struct Turned {
    pub(crate) one: Flank,
    pub(crate) other: Flank,
    pub(crate) beyond: bool,
    pub(crate) middle: bool,
}

// With at most this number of columns, one word holds all three rows.
const NEAR_COLS: usize = 30;

/// The ring of a square that is not at the grid's edge.
#[inline(always)]
pub(crate) fn ring_of(words: &[u64], cols: usize, square: Square) -> Ring
    requires some { 0 < length words.now }
    requires inner { cols < square }
    ensures { IsRing cols words.now square result }
{
    let first = square.0 as usize - cols - 1;
    let above = after(words, 0, first);
    if cols <= NEAR_COLS {
        return Ring {
            above,
            beside: above >> cols,
            below: above >> (2 * cols),
        };
    }
    Ring {
        above,
        beside: after(words, 0, first + cols),
        below: after(words, 0, first + 2 * cols),
    }
}

/// A direction at right angles to another.
#[inline(always)]
pub(crate) fn across(dir: Dir) -> Dir
    ensures { result ≡ across dir }
{
    match dir {
        Dir::D | Dir::U => Dir::R,
        Dir::L | Dir::R => Dir::D,
    }
}

/// The ring as a push in a direction meets it.
#[inline(always)]
pub(crate) fn turn(ring: &Ring, dir: Dir) -> Turned
    ensures { IsTurned ring.now dir result }
{
    let Ring {
        above,
        beside,
        below,
    } = *ring;
    let middle = has_bit(beside, 1);
    match dir {
        Dir::D => Turned {
            one: column(above, beside, below, 0),
            other: column(above, beside, below, 2),
            beyond: has_bit(below, 1),
            middle,
        },
        Dir::L => Turned {
            one: row(above, 2, 0),
            other: row(below, 2, 0),
            beyond: has_bit(beside, 0),
            middle,
        },
        Dir::R => Turned {
            one: row(above, 0, 2),
            other: row(below, 0, 2),
            beyond: has_bit(beside, 2),
            middle,
        },
        Dir::U => Turned {
            one: column(below, beside, above, 0),
            other: column(below, beside, above, 2),
            beyond: has_bit(above, 1),
            middle,
        },
    }
}

// The flank whose corner, side and front are bit `index` of three rows.
#[inline(always)]
fn column(behind: u64, beside: u64, ahead: u64, index: usize) -> Flank
    requires { index < WORD_BITS }
    ensures { IsFlank (word_bit behind index) (word_bit beside index) (word_bit ahead index) result }
{
    Flank {
        corner: has_bit(behind, index),
        beside: has_bit(beside, index),
        front: has_bit(ahead, index),
    }
}

// The flank whose corner, side and front are the bits `behind`, 1 and `ahead` of a row.
#[inline(always)]
fn row(word: u64, behind: usize, ahead: usize) -> Flank
    requires behind { behind < WORD_BITS }
    requires ahead { ahead < WORD_BITS }
    ensures { IsFlank (word_bit word behind) (word_bit word 1) (word_bit word ahead) result }
{
    Flank {
        corner: has_bit(word, behind),
        beside: has_bit(word, 1),
        front: has_bit(word, ahead),
    }
}

/// Whether a push onto the middle leaves the squares of the set beside it connected with the square that the box
/// comes from: by steps on the squares round the middle, or because the set does not contain the middle.
#[inline(always)]
pub(crate) fn joins_round(view: &Turned) -> bool
    ensures { result ≡ joins view.now }
{
    let Turned {
        one,
        other,
        beyond,
        middle,
    } = *view;
    // three steps on one side lead past the middle
    let first = (one.corner & one.beside) & one.front;
    let second = (other.corner & other.beside) & other.front;
    // five lead round it, along all squares beside it
    let round = ((first & other.front) | (second & one.front)) & beyond;
    // or each square beside the middle is entered from the one before it
    let sides = (one.corner | !one.beside) & (other.corner | !other.beside);
    let each = sides & ((!beyond | first) | second);
    (round | each) | !middle
}

// Whether a word has a bit.
#[inline(always)]
fn has_bit(word: u64, index: usize) -> bool
    requires { index < WORD_BITS }
    ensures { result ≡ word_bit word index }
{
    ((word >> index) & 1) == 1
}
