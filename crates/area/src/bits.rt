//! Sets of squares as bits of words: bit i of word k is the square `WORD_BITS * k + i`.
//!
//! For the crates above, which combine whole words of sets. A program uses [`SquareSet`](crate::SquareSet).
ghost use Rattle.std.specs.Prelude.{◌≡◌, ℕ, ◌+◌, ◌-◌, ◌*◌, ◌<◌, ◌≤◌, ◌==◌, ◌||◌, ◌&&◌, not, true, false, length};
ghost use Rattle.std.specs.Prelude.{slice_index};
ghost use Rattle.std.specs.Int.{trailing_zeros, w64};
ghost use Rattle.grid.specs.Masks.{has_bit};
ghost use Rattle.grid.specs.Squares.{contains};
ghost use Rattle.area.specs.inside.Detours.{IsLeastWith};
ghost use Rattle.area.specs.Words.{squares_of, word_bit};

use grid::{MAX_SQUARES, Square, WORD_BITS};

/// Whether the set contains the square. Squares past the last word are not in it.
#[inline(always)]
pub fn has(words: &[u64], square: Square) -> bool
    ensures { result ≡ has_bit words.now square }
{
    let index = square.0 as usize / WORD_BITS;
    index < words.len() && ((words[index] >> (square.0 as usize % WORD_BITS)) & 1) == 1
}

/// Inserts a square, whose word must be there.
#[inline(always)]
pub fn put(square: Square, words: &mut [u64])
    requires { square < WORD_BITS * length words.old }
    ensures { (q : ℕ) → has_bit words.new q ≡ (has_bit words.old q || square == q) }
{
    words[square.0 as usize / WORD_BITS] |= 1 << (square.0 as usize % WORD_BITS);
}

/// Removes a square, whose word must be there.
#[inline(always)]
pub fn take_out(square: Square, words: &mut [u64])
    requires { square < WORD_BITS * length words.old }
    ensures { (q : ℕ) → has_bit words.new q ≡ (has_bit words.old q && not (square == q)) }
{
    words[square.0 as usize / WORD_BITS] &= !(1 << (square.0 as usize % WORD_BITS));
}

// Makes the set contain exactly these squares.
pub(crate) fn put_all(squares: &[Square], words: &mut [u64])
    requires { (q : ℕ) → contains squares.now q ≡ true → q < WORD_BITS * length words.old }
    ensures { (q : ℕ) → has_bit words.new q ≡ contains squares.now q }
{
    words.fill(0);
    for square in squares {
        put(*square, words);
    }
}

// Replaces a set by the squares of its words that it does not contain.
pub(crate) fn turn_over(words: &mut [u64])
    ensures { (q : ℕ) → q < WORD_BITS * length words.old → has_bit words.new q ≡ not (has_bit words.old q) }
{
    for index in 0..words.len() {
        words[index] = !words[index];
    }
}

// The least square of a set that is not empty.
pub(crate) fn least_of(words: &[u64]) -> Square
    requires some { (q : ℕ) × (has_bit words.now q ≡ true) }
    requires small { WORD_BITS * length words.now ≤ MAX_SQUARES + WORD_BITS }
    ensures reached { has_bit words.now result ≡ true }
    ensures least { (q : ℕ) → has_bit words.now q ≡ true → result ≤ q }
{
    for (index, word) in words.iter().enumerate() {
        if *word != 0 {
            return first_of(index, *word);
        }
    }
    unreachable!()
}

// The least of the squares of the set except `but`, and of the square `more`.
pub(crate) fn least_but(words: &[u64], but: Square, more: Square) -> Square
    requires small { WORD_BITS * length words.now ≤ MAX_SQUARES + WORD_BITS }
    ensures { IsLeastWith (squares_of words.now) but more result }
{
    for (index, word) in words.iter().enumerate() {
        let rest = without(index, *word, but);
        if rest != 0 {
            let first = first_of(index, rest);
            return if first < more { first } else { more };
        }
    }
    more
}

// The square of the lowest bit of the word at an index.
#[inline(always)]
fn first_of(index: usize, word: u64) -> Square
    requires some { 0 < word }
    requires small { WORD_BITS * index ≤ MAX_SQUARES }
    ensures { result ≡ WORD_BITS * index + trailing_zeros w64 word }
{
    Square((index * WORD_BITS) as u16 + word.trailing_zeros() as u16)
}

// The word at an index without the bit of a square.
#[inline(always)]
fn without(index: usize, word: u64, square: Square) -> u64
    ensures { (j : ℕ) → j < WORD_BITS → word_bit result j ≡ (word_bit word j && not (WORD_BITS * index + j == square)) }
{
    if index == square.0 as usize / WORD_BITS {
        word & !(1 << (square.0 as usize % WORD_BITS))
    } else {
        word
    }
}

/// For each square of the word at an index, a bit: whether the set contains the square `by` numbers before it. The
/// bit is 0 if there is no such number.
#[inline(always)]
pub fn before(words: &[u64], index: usize, by: usize) -> u64
    requires { index < length words.now }
    ensures there { (i j : ℕ) → j < WORD_BITS → i + by ≡ WORD_BITS * index + j →
        word_bit result j ≡ has_bit words.now i }
    ensures none { (j : ℕ) → j < WORD_BITS → WORD_BITS * index + j < by → word_bit result j ≡ false }
{
    let far = by / WORD_BITS;
    let near = by % WORD_BITS;
    let here = word_before(words, index, far);
    let low = word_before(words, index, far + 1);
    slid_up(here, low, near)
}

/// For each square of the word at an index, a bit: whether the set contains the square `by` numbers after it.
#[inline(always)]
pub fn after(words: &[u64], index: usize, by: usize) -> u64
    requires { index < length words.now }
    ensures { (i j : ℕ) → j < WORD_BITS → i ≡ WORD_BITS * index + j + by → word_bit result j ≡ has_bit words.now i }
{
    let far = by / WORD_BITS;
    let near = by % WORD_BITS;
    let here = word_at(words, index + far);
    let high = word_at(words, index + far + 1);
    slid_down(here, high, near)
}

// `before` for a `by` below the number of a word's bits.
#[inline(always)]
pub(crate) fn just_before(words: &[u64], index: usize, by: usize) -> u64
    requires inside { index < length words.now }
    requires near { by < WORD_BITS }
    ensures there { (i j : ℕ) → j < WORD_BITS → i + by ≡ WORD_BITS * index + j →
        word_bit result j ≡ has_bit words.now i }
    ensures none { (j : ℕ) → j < WORD_BITS → WORD_BITS * index + j < by → word_bit result j ≡ false }
{
    let low = word_before(words, index, 1);
    slid_up(words[index], low, by)
}

// `after` for a `by` below the number of a word's bits.
#[inline(always)]
pub(crate) fn just_after(words: &[u64], index: usize, by: usize) -> u64
    requires inside { index < length words.now }
    requires near { by < WORD_BITS }
    ensures { (i j : ℕ) → j < WORD_BITS → i ≡ WORD_BITS * index + j + by → word_bit result j ≡ has_bit words.now i }
{
    let high = word_at(words, index + 1);
    slid_down(words[index], high, by)
}

// The word `far` words before the one at an index, or 0 if there is none.
#[inline(always)]
fn word_before(words: &[u64], index: usize, far: usize) -> u64
    requires { index < length words.now }
    ensures there { far ≤ index → result ≡ slice_index words.now (index - far) }
    ensures none { index < far → result ≡ 0 }
{
    if far <= index { words[index - far] } else { 0 }
}

// The word at an index, or 0 past the end.
#[inline(always)]
fn word_at(words: &[u64], index: usize) -> u64
    ensures { result ≡ slice_index words.now index }
{
    if index < words.len() { words[index] } else { 0 }
}

// The upper word of two neighbours, `here` above `low`, after both were shifted up by `near` bits.
#[inline(always)]
fn slid_up(here: u64, low: u64, near: usize) -> u64
    requires { near < WORD_BITS }
    ensures here { (i j : ℕ) → j < WORD_BITS → i + near ≡ j → word_bit result j ≡ word_bit here i }
    ensures low { (i j : ℕ) → i < WORD_BITS → i + near ≡ j + WORD_BITS → word_bit result j ≡ word_bit low i }
{
    (here << near) | ((low >> 1) >> (WORD_BITS - 1 - near))
}

// The lower word of two neighbours, `here` below `high`, after both were shifted down by `near` bits.
#[inline(always)]
fn slid_down(here: u64, high: u64, near: usize) -> u64
    requires { near < WORD_BITS }
    ensures here { (i j : ℕ) → i < WORD_BITS → i ≡ j + near → word_bit result j ≡ word_bit here i }
    ensures high { (i j : ℕ) → j < WORD_BITS → i + WORD_BITS ≡ j + near → word_bit result j ≡ word_bit high i }
{
    (here >> near) | ((high << 1) << (WORD_BITS - 1 - near))
}
