//! The table of a region: what the boxes within it waste at least.
ghost use Rattle.std.specs.Prelude.{◌≡◌, ◌≤◌, ◌+◌, ◌*◌, length, slice_index_or};
ghost use Rattle.grid.specs.Board.{dir_number};
ghost use Rattle.prices.specs.Prices.{sum_over};
ghost use Rattle.regions.specs.inside.Tables.{byte_in, byte_for, high_of, is_seat, key_of, low_of, place_of, row_of};
ghost use Rattle.regions.specs.inside.Tables.{says, waste_in};

use grid::{Dir, MAX_BOXES, Position, Square};

/// The entry of boxes that can never all come to goals, and the waste of a push after which its box can come to no
/// goal.
pub(crate) const ENDLESS: u8 = u8::MAX;

/// What a box on a square adds to the two numbers of a set of boxes.
#[derive(Clone, Copy, Default, PartialEq, Eq)]
pub(crate) struct BoxKey {
    pub(crate) high: u32,
    pub(crate) low: u32,
}

/// The number of pushes that the boxes of a region must waste, by the set of boxes and the place of the player. A set
/// has two numbers, the sums of its keys. Its row begins at the sum of their entries in `high_rows` and `low_rows`. An
/// entry is at the row's begin and the player's place; there is none past the end, which reads as 0. 254 stands for
/// that many pushes or more.
#[derive(Drop)]
pub(crate) struct RegionTable {
    /// The place of each square of the level. A square where a box is seen has a place of its own. The others share it
    /// with those that the player reaches from there without crossing such a square.
    pub(crate) places: Vec<u8>,
    /// The squares with a place other than 0.
    pub(crate) squares: Vec<Square>,
    /// The key of each square of the level: both numbers are 0 where a box isn't seen.
    pub(crate) keys: Vec<BoxKey>,
    pub(crate) high_rows: Vec<u32>,
    pub(crate) low_rows: Vec<u32>,
    pub(crate) bytes: Vec<u8>,
}

impl RegionTable {
    /// The key of a square.
    #[inline(always)]
    pub(crate) fn key(&self, square: Square) -> BoxKey
        ensures { result ≡ key_of self.now square }
    {
        match self.keys.get(square.0 as usize) {
            Some(key) => *key,
            None => BoxKey { high: 0, low: 0 },
        }
    }

    /// Whether a box on the square is seen.
    #[inline(always)]
    pub(crate) fn is_seat(&self, square: Square) -> bool
        ensures { result ≡ is_seat self.now square }
    {
        let key = self.key(square);
        !(key.high == 0 && key.low == 0)
    }

    /// The place of a square.
    #[inline(always)]
    pub(crate) fn place(&self, square: Square) -> u8
        ensures { result ≡ place_of self.now square }
    {
        byte_at(self.places.as_slice(), square.0 as usize)
    }

    /// Where the row of a set begins, by its two numbers.
    #[inline(always)]
    pub(crate) fn row(&self, high: usize, low: usize) -> usize
        ensures value { result ≡ row_of self.now high low }
        ensures most { result ≤ 8589934590 }
    {
        let first = number_at(self.high_rows.as_slice(), high);
        let second = number_at(self.low_rows.as_slice(), low);
        first as usize + second as usize
    }

    /// The entry of a row, with the player on the square.
    #[inline(always)]
    pub(crate) fn entry(&self, row: usize, player: Square) -> u8
        requires { row ≤ 8589934590 }
        ensures { result ≡ byte_for self.now row player }
    {
        self.byte(row, self.place(player))
    }

    /// The entry of a row, with the player on the place.
    #[inline(always)]
    pub(crate) fn byte(&self, row: usize, place: u8) -> u8
        requires { row ≤ 8589934590 }
        ensures { result ≡ byte_in self.now row place }
    {
        byte_at(self.bytes.as_slice(), row + place as usize)
    }

    /// What the table says of a position.
    pub(crate) fn says(&self, position: &Position) -> u8
        ensures { result ≡ says self.now position.now }
    {
        let (high, low) = self.numbers(position.boxes());
        self.entry(self.row(high, low), position.player())
    }

    // The two numbers of a set of boxes.
    fn numbers(&self, boxes: &[Square]) -> (usize, usize)
        requires { length boxes.now ≤ MAX_BOXES }
        ensures high { result.0 ≡ sum_over (high_of self.now) boxes.now }
        ensures low { result.1 ≡ sum_over (low_of self.now) boxes.now }
    {
        let mut high = 0;
        let mut low = 0;
        for square in boxes {
            let key = self.key(*square);
            high += key.high as usize;
            low += key.low as usize;
        }
        (high, low)
    }
}

/// The waste of a push of a box on the square, from a list with four numbers for each square.
#[inline(always)]
pub(crate) fn waste_at(wastes: &[u8], square: Square, dir: Dir) -> u8
    ensures { result ≡ waste_in wastes.now square dir }
{
    byte_at(wastes, 4 * square.0 as usize + number_of(dir))
}

// The direction's index among the four.
#[inline(always)]
fn number_of(dir: Dir) -> usize
    ensures value { result ≡ dir_number dir }
    ensures few { result ≤ 3 }
{
    dir as usize
}

/// The byte at an index; 0 if there is none.
#[inline(always)]
pub(crate) fn byte_at(bytes: &[u8], at: usize) -> u8
    ensures { result ≡ slice_index_or bytes.now at 0 }
{
    match bytes.get(at) {
        Some(byte) => *byte,
        None => 0,
    }
}

/// The number at an index; 0 if there is none.
#[inline(always)]
pub(crate) fn number_at(numbers: &[u32], at: usize) -> u32
    ensures { result ≡ slice_index_or numbers.now at 0 }
{
    match numbers.get(at) {
        Some(number) => *number,
        None => 0,
    }
}
