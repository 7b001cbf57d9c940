//! What the last flood says about the player's walks after a push, from the squares round the one ahead.
ghost use Rattle.std.specs.Prelude.{◌≡◌, ℕ, ◌<◌, true, IsTrue, length};
ghost use Rattle.grid.specs.Board.{next, opposite};
ghost use Rattle.grid.specs.Squares.{contains};
ghost use Rattle.area.specs.inside.Detours.{IsKnown, GainsNothing, StaysJoined};
ghost use Rattle.area.specs.inside.RingBits.{IsAround};

use crate::ring::{Ring, across, joins_round, ring_of, turn};
use crate::scratch::Scratch;
use grid::{Dir, Level, Square};

/// What is known about the player's walks after a push. `false` means that it is not known.
#[derive(Clone, Copy, PartialEq, Eq)]
pub(crate) struct Sight {
    /// All that the last flood reached beside the square ahead stays connected, by steps round that square.
    pub(crate) is_joined: bool,
    /// Nothing free is beside the box's square except what the last flood reached, and the square ahead.
    pub(crate) is_known: bool,
}

// Nothing is known.
const UNSEEN: Sight = Sight {
    is_joined: false,
    is_known: false,
};

/// What the last flood says about a push in the player's room. About other pushes nothing is known, since squares
/// at the grid's edge do not have eight squares round them.
pub(crate) fn look_ahead(
    level: &Level,
    square: Square,
    push_dir: Dir,
    ahead: Square,
    scratch: &Scratch,
) -> Sight
    requires inside { square < length level.now.cells }
    requires ahead { ahead ≡ next level.now square push_dir }
    requires room { scratch.now.size ≡ length level.now.cells }
    requires behind { contains scratch.now.reached (next level.now square (opposite push_dir)) ≡ true }
    requires reached { (q : ℕ) → contains scratch.now.reached q ≡ true → q < length level.now.cells }
    ensures joined { IsTrue result.is_joined → StaysJoined level.now scratch.now.reached ahead square }
    ensures known { IsTrue result.is_known → GainsNothing level.now scratch.now.boxes scratch.now.reached ahead square }
{
    if !level.in_room(ahead) {
        return UNSEEN;
    }
    level.tell();
    let ring = ring_of(scratch.reached.as_words(), level.cols(), ahead);
    look(level, square, push_dir, &ring, scratch)
}

// `look_ahead`, given the ring round the square ahead.
#[inline(always)]
fn look(level: &Level, square: Square, push_dir: Dir, ring: &Ring, scratch: &Scratch) -> Sight
    requires inside { square < length level.now.cells }
    requires around { IsAround level.now scratch.now.reached (next level.now square push_dir) ring.now }
    requires behind { contains scratch.now.reached (next level.now square (opposite push_dir)) ≡ true }
    requires reached { (q : ℕ) → contains scratch.now.reached q ≡ true → q < length level.now.cells }
    requires within { next level.now square push_dir < length level.now.cells }
    ensures joined { IsTrue result.is_joined →
        StaysJoined level.now scratch.now.reached (next level.now square push_dir) square }
    ensures known { IsTrue result.is_known →
        GainsNothing level.now scratch.now.boxes scratch.now.reached (next level.now square push_dir) square }
{
    level.tell();
    let view = turn(ring, push_dir);
    let side = across(push_dir);
    let this = is_known(level, square, side, view.other.corner, scratch);
    let that = is_known(level, square, side.opposite(), view.one.corner, scratch);
    Sight {
        is_joined: joins_round(&view),
        is_known: this & that,
    }
}

// Whether the square beside a square in a direction is not free or was reached by the last flood. `is_reached`
// implies the latter.
#[inline(always)]
fn is_known(level: &Level, square: Square, dir: Dir, is_reached: bool, scratch: &Scratch) -> bool
    requires inside { square < length level.now.cells }
    requires reached { IsTrue is_reached → contains scratch.now.reached (next level.now square dir) ≡ true }
    ensures { IsTrue result → (but : ℕ) → IsKnown level.now scratch.now.boxes scratch.now.reached but square dir }
{
    if is_reached {
        return true;
    }
    let beside = level.next(square, dir);
    level.is_wall(beside) || scratch.has_box(beside)
}
