ghost use Rattle.std.specs.Prelude.{◌≡◌, ◌≢◌, ℕ, ◌*◌, ◌<◌, ◌≤◌, ◌↔◌, ◌==◌, ◌||◌, ◌&&◌, not, true, false, IsTrue, IfOk};
ghost use Rattle.std.specs.Prelude.{length};
ghost use Rattle.std.specs.Borrow.{Lends, sem, Array, u64 as word};
ghost use Rattle.grid.specs.Masks.{has_bit, word_count};
ghost use Rattle.grid.specs.Squares.{contains};
ghost use Rattle.area.specs.contracts.set.SquareSet.{the_row};
ghost use Rattle.area.specs.inside.Written.{written_over};

use crate::bits::{has, put, put_all, take_out, turn_over};
use grid::{Square, WORD_BITS};
use std::alloc::{AllocError, Global};
use std::marker::Model;

/// A set of squares of a grid, with a fixed capacity: one bit a square.
///
/// Contracts see its words of bits as a list, and `has_bit` says whether the set contains a square.
#[derive(Drop)]
pub struct SquareSet {
    words: Vec<u64>,
}

impl Model for SquareSet {
    ghost use Rattle.std.specs.Prelude.{ℕ, List};

    ghost Value = { List ℕ };

    ghost view = { λ a. a.words.items };
}

impl SquareSet {
    /// The empty set, with capacity for the squares below `squares`.
    ///
    /// # Errors
    ///
    /// [`AllocError`] if memory runs out.
    pub fn none(alloc: Global, squares: usize) -> Result<SquareSet, AllocError>
        ensures size { IfOk result (λ set. length set ≡ word_count squares) }
        ensures none { IfOk result (λ set. (q : ℕ) → has_bit set q ≡ false) }
    {
        Ok(SquareSet {
            words: vec![in alloc; 0; squares.div_ceil(WORD_BITS)]?,
        })
    }

    /// Whether the set contains the square.
    #[inline(always)]
    pub fn has(&self, square: Square) -> bool
        ensures { result ≡ has_bit self.now square }
    {
        has(self.as_words(), square)
    }

    /// Inserts a square, which must be within the capacity.
    #[inline(always)]
    pub fn put(&mut self, square: Square)
        requires { square < WORD_BITS * length self.old }
        ensures put { (q : ℕ) → has_bit self.new q ≡ (has_bit self.old q || square == q) }
        ensures size { length self.new ≡ length self.old }
    {
        put(square, self.as_words_mut());
    }

    /// Makes the set contain exactly these squares, which must be within the capacity.
    pub fn put_all(&mut self, squares: &[Square])
        requires { (q : ℕ) → contains squares.now q ≡ true → q < WORD_BITS * length self.old }
        ensures put { (q : ℕ) → has_bit self.new q ≡ contains squares.now q }
        ensures size { length self.new ≡ length self.old }
    {
        put_all(squares, self.as_words_mut());
    }

    /// Removes all squares.
    #[inline(always)]
    pub fn clear(&mut self)
        ensures none { (q : ℕ) → has_bit self.new q ≡ false }
        ensures size { length self.new ≡ length self.old }
    {
        self.as_words_mut().fill(0);
    }

    // Removes a square.
    #[inline(always)]
    fn take_out(&mut self, square: Square)
        requires { square < WORD_BITS * length self.old }
        ensures out { (q : ℕ) → has_bit self.new q ≡ (has_bit self.old q && not (square == q)) }
        ensures size { length self.new ≡ length self.old }
    {
        take_out(square, self.as_words_mut());
    }

    // Replaces the set by the squares of its words that it does not contain.
    pub(crate) fn turn_over(&mut self)
        ensures turned { (q : ℕ) → q < WORD_BITS * length self.old → has_bit self.new q ≡ not (has_bit self.old q) }
        ensures size { length self.new ≡ length self.old }
    {
        turn_over(self.as_words_mut());
    }

    // Makes the set equal to another of the same capacity.
    #[inline(always)]
    pub(crate) fn copy_from(&mut self, other: &SquareSet)
        requires { length self.old ≡ length other.now }
        ensures { self.new ≡ other.now }
    {
        self.as_words_mut().copy_from_slice(other.as_words());
    }

    // Makes the set equal to another of the same capacity, without one square.
    #[inline(always)]
    pub(crate) fn copy_without(&mut self, other: &SquareSet, but: Square)
        requires room { length self.old ≡ length other.now }
        requires inside { but < WORD_BITS * length other.now }
        ensures out { (q : ℕ) → has_bit self.new q ≡ (has_bit other.now q && not (but == q)) }
        ensures size { length self.new ≡ length self.old }
    {
        self.copy_from(other);
        self.take_out(but);
    }

    // Makes the set equal to another of the same capacity, without one square, or empty if `keep` is `false`.
    #[inline(always)]
    pub(crate) fn copy_if(&mut self, keep: bool, other: &SquareSet, but: Square)
        requires room { length self.old ≡ length other.now }
        requires inside { but < WORD_BITS * length other.now }
        ensures kept { (q : ℕ) → has_bit self.new q ≡ true →
            IsTrue keep × ((has_bit other.now q && not (but == q)) ≡ true) }
        ensures size { length self.new ≡ length self.old }
    {
        if keep {
            return self.copy_without(other, but);
        }
        self.clear();
    }

    /// The words of bits: bit i of word k is the square `WORD_BITS * k + i`.
    #[inline(always)]
    pub fn as_words(&self) -> &[u64]
        ensures { result.now ≡ self.now }
    {
        self.words.as_slice()
    }

    // The words of bits, for writing.
    #[inline(always)]
    pub(crate) fn as_words_mut(&mut self) -> &mut [u64]
        ensures* writes_back { sem 𝓛 (Lends the_row (Array word 0) self.entry result (written_over self.old)) }
        ensures words { result.now ≡ self.old }
    {
        self.words.as_mut_slice()
    }
}
