//! The parity of a level's solutions. Each push changes the sum of the rows and columns of the boxes by one, and in the
//! end the boxes are on the goals. So all solutions have an even number of pushes, or all have an odd one.
ghost use Rattle.std.specs.Prelude.{◌≡◌, ◌≤◌, ℕ};
ghost use Rattle.prover.specs.Parity.{AreOdd, is_odd};
ghost use Rattle.prover.specs.inside.Turning.{differ, is_odd_square, turns_parity};

use grid::{Level, Square};

/// Whether the solutions of a level have an odd number of pushes. It says nothing of a level without solutions.
pub(crate) fn are_odd(level: &Level) -> bool
    ensures { AreOdd level.now result }
{
    level.tell();
    let mut odd = false;
    for index in 0..level.squares() {
        odd = differ(odd, turns_parity(level, Square(index as u16)));
    }
    odd
}

/// The least number from `pushes` on that is odd, or even. `u32::MAX` stays.
pub(crate) fn next_of(odd: bool, pushes: u32) -> u32
    ensures near { pushes ≤ result }
    ensures least { (n : ℕ) → is_odd n ≡ odd → pushes ≤ n → result ≤ n }
{
    let is_odd = pushes % 2 == 1;
    if is_odd == odd {
        return pushes;
    }
    pushes.saturating_add(1)
}

// Whether a square counts for the parity: row and column have an odd sum, and it has a box or a goal, but not both.
fn turns_parity(level: &Level, square: Square) -> bool
    ensures { result ≡ turns_parity level.now square }
{
    differ(level.has_box(square), level.is_goal(square)) && is_odd_square(level, square)
}

// Whether exactly one of the two is true.
fn differ(a: bool, b: bool) -> bool
    ensures { result ≡ differ a b }
{
    a != b
}

// Whether the sum of the row and the column of a square is odd.
fn is_odd_square(level: &Level, square: Square) -> bool
    ensures { result ≡ is_odd_square level.now square }
{
    level.tell();
    let place = square.0 as usize;
    (place / level.cols() + place % level.cols()) % 2 == 1
}
