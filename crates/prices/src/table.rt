//! The pushes that bring a lone box to each goal, by the side of the box on which the player is.
ghost use Rattle.std.specs.Prelude.{◌≡◌, ◌≤◌, drop, length, take};
ghost use Rattle.prices.specs.inside.Tables.{has_number, row_by, row_in, row_start, sides_of, spot_of};

use grid::Square;

/// The squares on one side of a box that cuts the room: those with a number from `from` to `to - 1`. The distances of
/// the box, with the player there, begin at `row`.
#[derive(Clone, Copy)]
pub(crate) struct Side {
    pub(crate) from: u32,
    pub(crate) to: u32,
    pub(crate) row: u32,
}

/// A square: its number for the player, and the sides of a box on it, from the index `first` on. If the player is on
/// none of these sides, the distances begin at `row`.
#[derive(Clone, Copy, Default)]
pub(crate) struct Spot {
    pub(crate) number: u32,
    pub(crate) first: u32,
    pub(crate) count: u32,
    pub(crate) row: u32,
}

/// The distances of lone boxes: for each square and side, one for each goal, in the order of the goals.
#[derive(Drop)]
pub(crate) struct DistanceTable {
    pub(crate) goals: Vec<Square>,
    pub(crate) spots: Vec<Spot>,
    pub(crate) sides: Vec<Side>,
    pub(crate) far: Vec<u32>,
}

impl Side {
    /// Whether the number is one of this side.
    #[inline(always)]
    pub(crate) fn has(self, number: u32) -> bool
        ensures { result ≡ has_number self number }
    {
        self.from <= number && number < self.to
    }
}

impl DistanceTable {
    /// The entry of a square; an empty one if there is none.
    #[inline(always)]
    pub(crate) fn spot(&self, square: Square) -> Spot
        ensures { result ≡ spot_of self.now.spots.items square }
    {
        spot_of(self.spots.as_slice(), square)
    }

    /// The sides of a box on the square.
    #[inline(always)]
    pub(crate) fn sides(&self, square: Square) -> &[Side]
        ensures { result.now ≡ sides_of self.now.spots.items self.now.sides.items square }
    {
        let spot = self.spot(square);
        part(
            self.sides.as_slice(),
            spot.first as usize,
            spot.count as usize,
        )
    }

    /// The index of the distances of a box on the square, with the player on another.
    #[inline(always)]
    pub(crate) fn row_start(&self, square: Square, player: Square) -> u32
        ensures { result ≡ row_start self.now.spots.items self.now.sides.items square player }
    {
        row_by(
            self.sides(square),
            self.spot(player).number,
            self.spot(square).row,
        )
    }

    /// The number of distances of the table: up to the end of the last square's.
    pub(crate) fn rows_end(&self) -> usize {
        match self.spots.as_slice().last() {
            Some(spot) => (spot.row as usize).saturating_add(self.goals.len()),
            None => 0,
        }
    }

    /// The distances from an index on, one for each goal; fewer if the table ends before.
    #[inline(always)]
    pub(crate) fn row_at(&self, start: u32) -> &[u32]
        ensures value { result.now ≡ take (length self.now.goals.items) (drop start self.now.far.items) }
        ensures bound { length result.now ≤ length self.now.goals.items }
    {
        part(self.far.as_slice(), start as usize, self.goals.len())
    }

    /// The distances of a box on the square, with the player on another.
    #[inline(always)]
    pub(crate) fn row(&self, square: Square, player: Square) -> &[u32]
        ensures { result.now ≡ row_in self.now square player }
    {
        self.row_at(self.row_start(square, player))
    }
}

// The entry at an index; an empty one if there is none.
#[inline(always)]
fn spot_of(spots: &[Spot], square: Square) -> Spot
    ensures { result ≡ spot_of spots.now square }
{
    match spots.get(square.0 as usize) {
        Some(spot) => *spot,
        None => Spot {
            number: 0,
            first: 0,
            count: 0,
            row: 0,
        },
    }
}

// The index of the distances of the first side that has the number; `other` if none has it.
#[inline(always)]
fn row_by(sides: &[Side], number: u32, other: u32) -> u32
    ensures { result ≡ row_by sides.now number other }
{
    for side in sides {
        if side.has(number) {
            return side.row;
        }
    }
    other
}

/// The elements from an index on, at most `count`.
#[inline(always)]
pub(crate) fn part<T>(xs: &[T], from: usize, count: usize) -> &[T]
    ensures value { result.now ≡ take count (drop from xs.now) }
    ensures bound { length result.now ≤ count }
{
    let rest = &xs[from.min(xs.len())..];
    &rest[..count.min(rest.len())]
}
