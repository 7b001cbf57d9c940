//! Origins of positions in one word each, which keeps books and layers small.
ghost use Rattle.std.specs.Prelude.{◌≡◌, ◌<◌, None, Some};
ghost use Rattle.std.specs.Ordering.{is_lt};
ghost use Rattle.grid.specs.Board.{push_cmp, dir_number};
ghost use Rattle.grid.specs.declared.square.Push.{Push};
ghost use Rattle.store.specs.FoundView.{origin_in};
ghost use Rattle.store.specs.Entries.{Origin as Parted, origin_cmp};
ghost use Rattle.store.specs.inside.Packed.{dir_at};

use grid::{Dir, Push, Square};
use std::cmp::Ordering;
use std::marker::Model;

/// The number of directions.
const DIRECTIONS: u64 = 4;

/// The number of values of a square's number.
const SQUARES: u64 = u16::MAX as u64 + 1;

/// An origin's rank is below this number. So rank and push fit into a word, and that word is not `NO_ORIGIN`.
pub const MOST_RANKS: u64 = u64::MAX / (SQUARES * DIRECTIONS);

/// The word of a closed position that has no origin.
const NO_ORIGIN: u64 = u64::MAX;

/// A parent's rank and a push in one word: the rank, then the square, then the direction. So the order of words is that
/// of origins.
#[derive(Clone, Copy)]
pub struct Origin(u64);

impl Model for Origin {
    ghost use Rattle.grid.specs.declared.square.Push.{Push};
    ghost use Rattle.store.specs.Entries.{Origin as Parted};

    ghost Value = { Parted Push };

    ghost use Rattle.std.specs.Prelude.{◌<◌};
    ghost use Rattle.store.specs.declared.origin.TheConstants.{NO_ORIGIN};
    ghost use Rattle.store.specs.inside.Packed.{parted, packed, packed_parted};

    ghost view = { λ a. parted a.0 };

    ghost invariant = { λ a. a.0 < NO_ORIGIN };

    ghost inverse = { λ o. record { 0 = packed o } };

    ghost inverse_ok = { λ a h i. record { 0 = packed_parted a.0 i } };
}

impl Origin {
    /// The origin with a rank and a push.
    pub(crate) fn new(rank: u64, push: Push) -> Origin
        requires { rank < MOST_RANKS }
        ensures { result ≡ (rank, push) }
    {
        let Push { square, dir } = push;
        let place = rank * SQUARES + u64::from(square.0);
        Origin(place * DIRECTIONS + number_of(dir))
    }

    /// The least origin.
    pub fn lowest() -> Origin
        ensures { result ≡ origin_in None }
    {
        Origin::new(
            0,
            Push {
                square: Square(0),
                dir: Dir::D,
            },
        )
    }

    /// The rank and the push.
    pub fn parts(self) -> (u64, Push)
        ensures { result ≡ self }
    {
        let place = self.0 / DIRECTIONS;
        let push = Push {
            square: Square((place % SQUARES) as u16),
            dir: dir_of(self.0 % DIRECTIONS),
        };
        (place / SQUARES, push)
    }

    /// Compares two origins: by the rank, then by the push.
    pub(crate) fn compare(self, other: Origin) -> Ordering
        ensures { result ≡ origin_cmp push_cmp self other }
    {
        self.0.cmp(&other.0)
    }

    /// Whether this origin comes before another one.
    pub fn is_before(self, other: Origin) -> bool
        ensures { result ≡ is_lt (origin_cmp push_cmp self other) }
    {
        self.0 < other.0
    }
}

/// The origin of a closed position, if it has one, in one word.
#[derive(Clone, Copy)]
pub(crate) struct ClosedOrigin(u64);

impl Model for ClosedOrigin {
    ghost use Rattle.std.specs.Prelude.{Option};
    ghost use Rattle.grid.specs.declared.square.Push.{Push};
    ghost use Rattle.store.specs.Entries.{Origin as Parted};

    ghost Value = { Option (Parted Push) };

    ghost use Rattle.store.specs.inside.Packed.{closed_parted, closed_packed, closed_packed_parted};

    ghost view = { λ a. closed_parted a.0 };

    ghost inverse = { λ o. record { 0 = closed_packed o } };

    ghost inverse_ok = { λ a h i. record { 0 = closed_packed_parted a.0 i } };
}

impl ClosedOrigin {
    /// An origin, or none.
    pub(crate) fn of(origin: Option<Origin>) -> ClosedOrigin
        ensures { result ≡ origin }
    {
        match origin {
            Some(Origin(word)) => ClosedOrigin(word),
            None => ClosedOrigin(NO_ORIGIN),
        }
    }

    /// The origin, if there is one.
    pub(crate) fn get(self) -> Option<Origin>
        ensures { result ≡ self }
    {
        if self.0 == NO_ORIGIN {
            None
        } else {
            Some(Origin(self.0))
        }
    }

    /// The origin, or the least origin if there is none. An open position has one.
    pub(crate) fn opened(self) -> Origin
        ensures { result ≡ origin_in self }
    {
        match self.get() {
            Some(origin) => origin,
            None => Origin::lowest(),
        }
    }

    /// Whether an origin comes before this one. If there is none here, the result has no meaning.
    pub(crate) fn exceeds(self, origin: Origin) -> bool
        ensures { (known : Parted Push) → self ≡ Some known → result ≡ is_lt (origin_cmp push_cmp origin known) }
    {
        match self.get() {
            Some(known) => origin.is_before(known),
            None => false,
        }
    }
}

// The number of a direction, in the order `d`, `l`, `r`, `u`.
fn number_of(dir: Dir) -> u64
    ensures { result ≡ dir_number dir }
{
    match dir {
        Dir::D => 0,
        Dir::L => 1,
        Dir::R => 2,
        Dir::U => 3,
    }
}

// The direction with a number in this order.
fn dir_of(number: u64) -> Dir
    ensures { result ≡ dir_at number }
{
    match number {
        0 => Dir::D,
        1 => Dir::L,
        2 => Dir::R,
        _ => Dir::U,
    }
}
