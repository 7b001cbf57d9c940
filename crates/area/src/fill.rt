//! What steps within one word add to it: bit j is a square's, bit j + 1 the one to its right, and bit j + `cols` the
//! one below it.
ghost use Rattle.std.specs.Prelude.{◌<◌};
ghost use Rattle.area.specs.inside.Flooding.{IsGrown, PassesDown, PassesOn, PassesUp};

use grid::WORD_BITS;

// Adds to a word the free bits that steps within it lead to.
#[inline(always)]
pub(crate) fn fill(word: u64, free: u64, cols: usize) -> u64
    ensures { IsGrown word result (λ test. PassesOn test cols free) }
{
    let mut word = word;
    loop {
        let next = fill_once(word, free, cols);
        if next == word {
            return word;
        }
        word = next;
    }
}

// Adds to a word the runs to the right of its squares and two steps to the left, and then a step down and one up.
// In a room about as high as wide, going along the rows alone takes more iterations.
#[inline(always)]
pub(crate) fn fill_once(word: u64, free: u64, cols: usize) -> u64
    ensures { IsGrown word result (λ test. PassesOn test cols free) }
{
    let right = run_up(word, free);
    let left = step_down(right, free, 1);
    let row = step_down(left, free, 1);
    let down = step_up(row, free, cols);
    step_down(down, free, cols)
}

// Adds to a word the runs of free bits above its own: a sum carries along each run.
#[inline(always)]
fn run_up(word: u64, free: u64) -> u64
    ensures { IsGrown word result (λ test. PassesUp test 1 free) }
{
    word | (free & !free.wrapping_add(word))
}

// Adds to a word the free bits that are `by` above its own.
#[inline(always)]
fn step_up(word: u64, free: u64, by: usize) -> u64
    ensures { IsGrown word result (λ test. PassesUp test by free) }
{
    if by < WORD_BITS {
        word | ((word << by) & free)
    } else {
        word
    }
}

// Adds to a word the free bits that are `by` below its own.
#[inline(always)]
fn step_down(word: u64, free: u64, by: usize) -> u64
    ensures { IsGrown word result (λ test. PassesDown test by free) }
{
    if by < WORD_BITS {
        word | ((word >> by) & free)
    } else {
        word
    }
}
