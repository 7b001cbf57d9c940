//! Positions in as few bytes as their boxes and their grid need: the keys of maps.
ghost use Rattle.std.specs.Prelude.{◌≡◌, ◌+◌, ◌-◌, ◌*◌, ◌/◌, ◌%◌, ◌<◌, ◌≤◌, ◌==◌, ◌&&◌, ◌∷◌, [], ◌++◌};
ghost use Rattle.std.specs.Prelude.{Some, drop, length, nat_eq, replicate, slice_get, take, true};
ghost use Rattle.grid.specs.Rising.{is_rising};
ghost use Rattle.std.specs.Cmp.Lexicographic.{pointwise};
ghost use Rattle.store.specs.Entries.{same_scene};
ghost use Rattle.store.specs.inside.KeyRows.{Suits, high_bytes, joined_bytes, key_digest, low_bytes, zero_padded};

use arrayvec::ArrayVec;
use grid::{MAX_BOXES, Position, Square};
use std::hash::{FoldHasher, Hash, Hasher};
use std::marker::Model;

/// The number of values of a byte. On grids with no more squares a square's number is its low byte.
pub(crate) const BYTE_SQUARES: usize = 256;

/// The length of a short row.
const SHORT: usize = 4;

/// A position of fewer than `N` boxes. One row has the low bytes of the player's square and of the boxes' squares, in
/// rising order. The other has their high bytes, or is empty if they are all 0. Zeros fill the rows.
#[derive(Drop)]
pub(crate) struct Key<const N: usize, const M: usize> {
    pub(crate) boxes: u8,
    pub(crate) low: [u8; N],
    pub(crate) high: [u8; M],
}

impl<const N: usize, const M: usize> Model for Key<N, M> {
    ghost use Rattle.std.specs.Prelude.{◌+◌, ◌≤◌};
    ghost use Rattle.grid.specs.Board.{Scene};
    ghost use Rattle.grid.specs.declared.limits.TheConstants.{MAX_BOXES};
    ghost use Rattle.store.specs.inside.KeyRows.{IsKey, key_scene};

    ghost Value = { Scene };

    ghost view = { λ a. key_scene a.boxes a.low a.high };

    ghost invariant = { λ a. ((N ≤ MAX_BOXES + 1) × (M ≤ MAX_BOXES + 1)) × IsKey N M a.boxes a.low a.high };
}

impl<const N: usize, const M: usize> Key<N, M> {
    /// The key of a position.
    #[inline(always)]
    pub(crate) fn of(position: &Position) -> Key<N, M>
        requires width { (N ≤ MAX_BOXES + 1) × (M ≤ MAX_BOXES + 1) }
        requires suits { Suits N M position.now }
        ensures { result ≡ position.now }
    {
        let boxes = position.boxes();
        let player = position.player();
        let mut low = [0; N];
        let mut high = [0; M];
        write_rows(&mut low, &mut high, boxes, player);
        Key {
            boxes: boxes.len() as u8,
            low,
            high,
        }
    }

    /// An equal key.
    #[inline(always)]
    pub(crate) fn copy(&self) -> Key<N, M>
        ensures { result ≡ self.now }
    {
        Key {
            boxes: self.boxes,
            low: self.low,
            high: self.high,
        }
    }

    /// The number that the key passes to a hasher: a hash of its whole rows, since a hasher's work grows with the
    /// number of writes.
    #[inline(always)]
    pub(crate) fn digest(&self) -> u64
        ensures { result ≡ key_digest N M self.now }
    {
        let mut hasher = FoldHasher::default();
        hasher.write(&self.low);
        if M == 0 {
            return hasher.finish();
        }
        hasher.write(&self.high);
        hasher.finish()
    }

    /// The position.
    #[tactic(auto, using(crate::proofs::Bytes::one_more))]
    pub(crate) fn position(&self) -> Position
        ensures { result ≡ self.now }
    {
        let mut boxes: ArrayVec<Square, MAX_BOXES> = ArrayVec::new();
        for index in 0..self.len() {
            boxes.push(self.box_at(index));
        }
        Position::of_rising(boxes.as_slice(), self.player())
    }

    /// The number of boxes.
    pub(crate) fn len(&self) -> usize
        ensures len { result ≡ length self.now.boxes }
        ensures few { result ≤ MAX_BOXES }
        ensures rising { is_rising self.now.boxes ≡ true }
    {
        self.boxes as usize
    }

    /// The square of the box with an index in rising order.
    fn box_at(&self, index: usize) -> Square
        requires { index < length self.now.boxes }
        ensures { slice_get self.now.boxes index ≡ Some result }
    {
        square_at(&self.low, &self.high, index + 1)
    }

    /// Writes the squares of the boxes and then the player's square to a row of length `N`, and returns their number.
    /// It writes the whole row, so that the compiler can vectorize the loop.
    #[inline(always)]
    pub(crate) fn write_squares(&self, row: &mut [Square]) -> usize
        requires { length row.old ≡ N }
        ensures squares { take result row.new ≡ self.now.boxes ++ self.now.player ∷ [] }
        ensures capacity { (result ≤ N) × (length row.new ≡ N) }
    {
        let count = self.len();
        write_boxes(row, &self.low, &self.high);
        let player = self.player();
        row[count] = player;
        count + 1
    }

    /// The player's square.
    pub(crate) fn player(&self) -> Square
        ensures { result ≡ self.now.player }
    {
        square_at(&self.low, &self.high, 0)
    }
}

// Writes the low bytes of squares to the beginning of a row of zeros, and the high bytes to that of another one, unless
// it is empty.
#[inline(always)]
fn write_rows(low: &mut [u8], high: &mut [u8], boxes: &[Square], player: Square)
    requires low { low.old ≡ replicate (length low.old) 0 }
    requires high { high.old ≡ replicate (length high.old) 0 }
    requires capacity { length boxes.now < length low.old }
    requires high_room { 0 < length high.old → length boxes.now < length high.old }
    ensures low { low.new ≡ zero_padded (length low.old) (low_bytes (player ∷ boxes.now)) }
    ensures high { high.new ≡ zero_padded (length high.old) (high_bytes (player ∷ boxes.now)) }
{
    if low.len() == SHORT && high.len() == SHORT {
        write_short(low, high, boxes, player);
        return;
    }
    write_low(low, boxes, player);
    write_high(high, boxes, player);
}

// Writes the low and the high bytes of squares to two rows of `SHORT` zeros. The loop's bound repeats this length, so
// that the compiler does not vectorize the loop.
#[inline(always)]
fn write_short(low: &mut [u8], high: &mut [u8], boxes: &[Square], player: Square)
    requires low { low.old ≡ zero_padded SHORT [] }
    requires high { high.old ≡ zero_padded SHORT [] }
    requires capacity { length boxes.now < SHORT }
    ensures low { low.new ≡ zero_padded SHORT (low_bytes (player ∷ boxes.now)) }
    ensures high { high.new ≡ zero_padded SHORT (high_bytes (player ∷ boxes.now)) }
{
    let first = low_byte(player);
    let first_high = high_byte(player);
    low[0] = first;
    high[0] = first_high;
    for index in 0..boxes.len().min(SHORT - 1) {
        let square = boxes[index];
        let byte = low_byte(square);
        let most = high_byte(square);
        low[index + 1] = byte;
        high[index + 1] = most;
    }
}

// Writes the low bytes of squares to the beginning of a row of zeros.
#[inline(always)]
fn write_low(row: &mut [u8], boxes: &[Square], player: Square)
    requires zeros { row.old ≡ replicate (length row.old) 0 }
    requires capacity { length boxes.now < length row.old }
    ensures { row.new ≡ zero_padded (length row.old) (low_bytes (player ∷ boxes.now)) }
{
    let first = low_byte(player);
    row[0] = first;
    for (index, square) in boxes.iter().enumerate() {
        let byte = low_byte(*square);
        row[index + 1] = byte;
    }
}

// Writes the high bytes of squares to the beginning of a row of zeros, unless it is empty.
#[inline(always)]
fn write_high(row: &mut [u8], boxes: &[Square], player: Square)
    requires zeros { row.old ≡ replicate (length row.old) 0 }
    requires capacity { 0 < length row.old → length boxes.now < length row.old }
    ensures { row.new ≡ zero_padded (length row.old) (high_bytes (player ∷ boxes.now)) }
{
    if row.len() <= boxes.len() {
        return;
    }
    let first = high_byte(player);
    row[0] = first;
    for (index, square) in boxes.iter().enumerate() {
        let byte = high_byte(*square);
        row[index + 1] = byte;
    }
}

// Writes the squares of two rows of bytes to a row of squares, except the first one, which is the player's.
#[inline(always)]
fn write_boxes(row: &mut [Square], low: &[u8], high: &[u8])
    requires some { 0 < length low.now }
    requires capacity { length row.old ≡ length low.now }
    ensures squares { take (length low.now - 1) row.new ≡
        take (length low.now - 1) (drop 1 (joined_bytes low.now high.now)) }
    ensures capacity { length row.new ≡ length row.old }
{
    for index in 0..low.len() - 1 {
        let square = square_at(low, high, index + 1);
        row[index] = square;
    }
}

// The square at an index of the rows.
#[inline(always)]
fn square_at(low: &[u8], high: &[u8], index: usize) -> Square
    requires { index < length low.now }
    ensures { slice_get (joined_bytes low.now high.now) index ≡ Some result }
{
    let least = byte_at(low, index);
    if index >= high.len() {
        return square_of(least, 0);
    }
    let most = byte_at(high, index);
    square_of(least, most)
}

fn byte_at(bytes: &[u8], index: usize) -> u8
    requires { index < length bytes.now }
    ensures { slice_get bytes.now index ≡ Some result }
{
    bytes[index]
}

fn low_byte(square: Square) -> u8
    ensures { result ≡ square % 256 }
{
    (square.0 % 256) as u8
}

fn high_byte(square: Square) -> u8
    ensures { result ≡ square / 256 }
{
    (square.0 / 256) as u8
}

// The square with these bytes.
fn square_of(low: u8, high: u8) -> Square
    ensures { result ≡ low + 256 * high }
{
    Square(u16::from(low) + 256 * u16::from(high))
}

impl<const N: usize, const M: usize> PartialEq for Key<N, M> {
    ghost use Rattle.std.proofs.Common.{rules};
    ghost use Rattle.std.specs.Cmp.Rules.{comparing};
    ghost use Rattle.store.specs.Entries.{same_scene};

    ghost eq = { same_scene };

    ghost laws = { Prim.search (comparing, rules) };

    /// Whether the keys are those of one position.
    #[inline(always)]
    fn eq(&self, other: &Key<N, M>) -> bool
        ensures { result ≡ same_scene self.now other.now }
    {
        same_rows(
            self.boxes,
            &self.low,
            &self.high,
            other.boxes,
            &other.low,
            &other.high,
        )
    }
}

impl<const N: usize, const M: usize> Eq for Key<N, M> {
    ghost use Rattle.std.proofs.Common.{rules};
    ghost use Rattle.std.specs.Cmp.Rules.{comparing};

    ghost laws = { Prim.search (comparing, rules) };
}

/// Whether two keys have the same fields.
#[inline(always)]
pub(crate) fn same_rows(
    boxes: u8,
    low: &[u8],
    high: &[u8],
    other_boxes: u8,
    other_low: &[u8],
    other_high: &[u8],
) -> bool
    ensures { result ≡ (((boxes == other_boxes) && pointwise nat_eq low.now other_low.now) && pointwise nat_eq high.now
        other_high.now) }
{
    let same_low = same_bytes(low, other_low);
    let same_high = same_bytes(high, other_high);
    (boxes == other_boxes) & same_low & same_high
}

// Whether two rows are equal. A map compares keys only if their hashes are equal, and then most keys are. So this reads
// all bytes in a loop that the compiler can vectorize.
#[inline(always)]
fn same_bytes(bytes: &[u8], others: &[u8]) -> bool
    ensures { result ≡ pointwise nat_eq bytes.now others.now }
{
    if bytes.len() != others.len() {
        return false;
    }
    let mut same = true;
    for (index, byte) in bytes.iter().enumerate() {
        same &= *byte == others[index];
    }
    same
}

impl<const N: usize, const M: usize> Hash for Key<N, M> {
    ghost use Rattle.store.specs.inside.KeyRows.{key_input, keys_alike};

    ghost hash_input = { key_input N M };

    ghost respects_eq = { keys_alike N M };

    // A hasher gets only the digest, so that it can be made before the look-up.
    #[inline(always)]
    fn hash<H: Hasher>(&self, state: &mut H) {
        state.write_u64(self.digest());
    }
}
