//! Floods over the free squares of the player's room. No square of a level's room is at the grid's edge. So two
//! squares whose numbers differ by one, or by the number of columns, are adjacent if one of them is in the room,
//! and one set of free squares serves steps in all four directions.
ghost use Rattle.std.specs.Prelude.{◌≡◌, ℕ, ◌*◌, ◌+◌, ◌<◌, ◌≤◌, ◌&&◌, ◌↔◌, not, true, length};
ghost use Rattle.grid.specs.Masks.{has_bit, word_count};
ghost use Rattle.area.specs.Words.{word_bit};
ghost use Rattle.area.specs.inside.RoomFloods.{AreUnused, IsBeside, IsFlooded, IsRound, IsVisit, IsWidened, PassesOver};

use crate::bits::{after, before, just_after, just_before};
use crate::fill::{fill, fill_once};
use crate::set::SquareSet;
use grid::{Level, WORD_BITS};

// Adds to a set all squares of the player's room that steps round the barred ones lead to. Overwrites the set of these.
pub(crate) fn grow_in_room(level: &Level, barred: &mut SquareSet, reached: &mut SquareSet)
    requires barred { length barred.old ≡ word_count (length level.now.cells) }
    requires room { length reached.old ≡ word_count (length level.now.cells) }
    ensures flooded { IsFlooded level.now barred.old reached.old reached.new }
    ensures barred { length barred.new ≡ length barred.old }
    ensures room { length reached.new ≡ length reached.old }
{
    grow_words(level, barred.as_words_mut(), reached.as_words_mut());
}

// `grow_in_room` on words.
fn grow_words(level: &Level, barred: &mut [u64], reached: &mut [u64])
    requires barred { length barred.old ≡ word_count (length level.now.cells) }
    requires room { length reached.old ≡ word_count (length level.now.cells) }
    ensures { IsFlooded level.now barred.old reached.old reached.new }
{
    level.tell();
    let room = level.room_mask();
    let cols = level.cols();
    leave_clear(room, barred);
    widen(cols, barred, reached);
}

// Replaces a set by the squares of another that it does not contain.
fn leave_clear(squares: &[u64], words: &mut [u64])
    requires { length squares.now ≡ length words.old }
    ensures { (q : ℕ) → has_bit words.new q ≡ (has_bit squares.now q && not (has_bit words.old q)) }
{
    for index in 0..words.len() {
        words[index] = squares[index] & !words[index];
    }
}

// Adds to a set all free numbers that a chain of free numbers connects with it. Skips the words after the last one
// that is not 0.
fn widen(cols: usize, free: &[u64], reached: &mut [u64])
    requires columns { 1 ≤ cols }
    requires room { length reached.old ≡ length free.now }
    ensures widened { IsWidened cols free.now reached.old reached.new }
    ensures whole { PassesOver cols free.now (has_bit reached.new) }
{
    if cols < WORD_BITS {
        match used(free, reached) {
            1 => return widen_first::<1>(cols, free, reached),
            2 => return widen_first::<2>(cols, free, reached),
            _ => (),
        }
    }
    widen_many(cols, free, reached);
}

// The number of words up to the last one that is not 0 in one of two sets.
fn used(free: &[u64], reached: &[u64]) -> usize
    requires room { length reached.now ≡ length free.now }
    ensures bound { result ≤ length free.now }
    ensures rest { AreUnused result free.now reached.now }
{
    let mut words = free.len();
    while words > 0 {
        if free[words - 1] != 0 {
            return words;
        }
        if reached[words - 1] != 0 {
            return words;
        }
        words -= 1;
    }
    words
}

// `widen` for sets whose words after the first `W` are 0.
fn widen_first<const W: usize>(cols: usize, free: &[u64], reached: &mut [u64])
    requires columns { 1 ≤ cols }
    requires near { cols < WORD_BITS }
    requires few { W ≤ 2 }
    requires room { length reached.old ≡ length free.now }
    requires words { W ≤ length free.now }
    requires rest { AreUnused W free.now reached.old }
    ensures widened { IsWidened cols free.now reached.old reached.new }
    ensures whole { PassesOver cols free.now (has_bit reached.new) }
{
    widen_few::<W>(cols, &free[..W], &mut reached[..W]);
}

// `widen` for `W` words, which stay in registers.
fn widen_few<const W: usize>(cols: usize, free: &[u64], reached: &mut [u64])
    requires columns { 1 ≤ cols }
    requires near { cols < WORD_BITS }
    requires few { W ≤ 2 }
    requires words { length free.now ≡ W }
    requires room { length reached.old ≡ W }
    ensures widened { IsWidened cols free.now reached.old reached.new }
    ensures whole { PassesOver cols free.now (has_bit reached.new) }
{
    let mut clear = [0; W];
    let mut words = [0; W];
    clear.copy_from_slice(free);
    words.copy_from_slice(reached);
    while round(cols, &clear, &mut words) {}
    reached.copy_from_slice(&words);
}

// Visits each word once; returns whether one grew. The visits are written out, since the compiler keeps some loops
// of two iterations, and then the words leave their registers.
#[inline(always)]
fn round<const W: usize>(cols: usize, free: &[u64; W], words: &mut [u64; W]) -> bool
    requires columns { 1 ≤ cols }
    requires near { cols < WORD_BITS }
    requires few { W ≤ 2 }
    ensures { IsRound cols free.now words.old words.new result }
{
    if W == 0 {
        return false;
    }
    let first = visit_few(cols, free, words, 0);
    if W == 1 {
        return first;
    }
    let second = visit_few(cols, free, words, 1);
    first | second
}

// Adds to one word the free numbers beside the set, and some of those that steps within the word lead to from
// there. Returns whether the word grew.
#[inline(always)]
fn visit_few(cols: usize, free: &[u64], words: &mut [u64], index: usize) -> bool
    requires columns { 1 ≤ cols }
    requires near { cols < WORD_BITS }
    requires inside { index < length free.now }
    requires room { length words.old ≡ length free.now }
    ensures { IsVisit cols free.now index words.old words.new result }
{
    let old = words[index];
    let clear = free[index];
    let first = old | (just_beside(cols, words, index) & clear);
    let new = fill_once(first, clear, cols % WORD_BITS);
    words[index] = new;
    new != old
}

// For each number of a word, whether the set contains one beside it.
#[inline(always)]
fn just_beside(cols: usize, words: &[u64], index: usize) -> u64
    requires near { cols < WORD_BITS }
    requires inside { index < length words.now }
    ensures { (j : ℕ) → j < WORD_BITS → (word_bit result j ≡ true) ↔
        ((p : ℕ) × IsBeside cols p (WORD_BITS * index + j) × (has_bit words.now p ≡ true)) }
{
    (just_before(words, index, 1) | just_after(words, index, 1))
        | (just_before(words, index, cols) | just_after(words, index, cols))
}

// `just_beside` for any number of columns.
#[inline(always)]
fn beside(cols: usize, words: &[u64], index: usize) -> u64
    requires inside { index < length words.now }
    ensures { (j : ℕ) → j < WORD_BITS → (word_bit result j ≡ true) ↔
        ((p : ℕ) × IsBeside cols p (WORD_BITS * index + j) × (has_bit words.now p ≡ true)) }
{
    (just_before(words, index, 1) | just_after(words, index, 1))
        | (before(words, index, cols) | after(words, index, cols))
}

// `widen` by visits to words. After a word that grew it goes back to the first word that the new numbers
// lead into. So each word before `index` is full.
fn widen_many(cols: usize, free: &[u64], reached: &mut [u64])
    requires columns { 1 ≤ cols }
    requires room { length reached.old ≡ length free.now }
    ensures widened { IsWidened cols free.now reached.old reached.new }
    ensures whole { PassesOver cols free.now (has_bit reached.new) }
{
    let back = cols / WORD_BITS + 1;
    let mut index = 0;
    while index < free.len() {
        if visit(cols, free, reached, index) {
            index = index.saturating_sub(back);
        } else {
            index += 1;
        }
    }
}

// Adds to one word the free numbers beside the set, and those that steps within the word lead to from there.
// Returns whether the word grew.
#[inline(always)]
fn visit(cols: usize, free: &[u64], words: &mut [u64], index: usize) -> bool
    requires columns { 1 ≤ cols }
    requires inside { index < length free.now }
    requires room { length words.old ≡ length free.now }
    ensures { IsVisit cols free.now index words.old words.new result }
{
    let old = words[index];
    let clear = free[index];
    if (old | clear) == old {
        return false;
    }
    let first = old | (beside(cols, words, index) & clear);
    if first == old {
        return false;
    }
    words[index] = fill(first, clear, cols);
    true
}
