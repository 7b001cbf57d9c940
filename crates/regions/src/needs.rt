//! What boxes need under tolls.
ghost use Rattle.std.specs.Prelude.{◌≡◌, ◌+◌, ◌<◌, ◌≤◌, ℕ, IfOk, IsTrue, length, slice_index_or};
ghost use Rattle.prices.specs.declared.pulls.TheConstants.{NEVER};
ghost use Rattle.prices.specs.Prices.{goals_of, total_need};
ghost use Rattle.prices.specs.inside.Sums.{greatest};
ghost use Rattle.prices.specs.inside.Tables.{far_in};
ghost use Rattle.regions.specs.Regions.{CanCome};
ghost use Rattle.regions.specs.inside.Needs.{AreNeeds, least_to, need_from, need_in, need_under, price_of, sum_to};

use crate::table::number_at;
use grid::{MAX_BOXES, Position, Square};
use prices::{Distances, NEVER};
use std::alloc::{AllocError, Global};

/// What a lone box needs, with the player on the second square.
pub(crate) fn need(distances: &Distances, tolls: &[u32], square: Square, player: Square) -> u64
    ensures value { result ≡ need_under distances.now tolls.now square player }
    ensures most { result ≤ greatest }
{
    distances.tell();
    least_sum(distances.row(square, player), tolls, distances.goals())
}

// The least sum of the two numbers at one of the first `count` indexes, at most the greatest number of 32 bits.
fn least_sum(numbers: &[u32], others: &[u32], count: usize) -> u64
    ensures value { result ≡
        least_to (λ i. slice_index_or numbers.now i 0 + slice_index_or others.now i 0) greatest count }
    ensures most { result ≤ greatest }
{
    let mut least = u64::from(u32::MAX);
    for place in 0..count {
        let sum = u64::from(number_at(numbers, place)) + u64::from(number_at(others, place));
        least = least.min(sum);
    }
    least
}

/// The sum of the tolls of all goals, which are at most [`MAX_BOXES`].
pub(crate) fn price(distances: &Distances, tolls: &[u32]) -> u64
    requires { length (goals_of distances.now.level) ≤ MAX_BOXES }
    ensures { result ≡ price_of distances.now tolls.now }
{
    distances.tell();
    first_sum(tolls, distances.goals())
}

// The sum of the first `count` numbers.
fn first_sum(numbers: &[u32], count: usize) -> u64
    requires { count ≤ MAX_BOXES }
    ensures { result ≡ sum_to (λ i. slice_index_or numbers.now i 0) count }
{
    let mut sum = 0;
    for place in 0..count {
        sum += u64::from(number_at(numbers, place));
    }
    sum
}

/// What a lone box needs under the tolls, by the index of its first distance; 0 at the indexes where no row begins.
pub(crate) fn needs_of(
    alloc: Global,
    distances: &Distances,
    tolls: &[u32],
) -> Result<Vec<u32>, AllocError>
    ensures { IfOk result (λ needs. AreNeeds distances.now tolls.now needs.items) }
{
    let mut needs = Vec::with_capacity(alloc, distances.count())?;
    for start in 0..distances.count() {
        needs.push(need_from(distances, tolls, start))?;
    }
    Ok(needs)
}

// At most the need of a lone box whose first distance has this index.
fn need_from(distances: &Distances, tolls: &[u32], start: usize) -> u32
    ensures { result ≤ need_from distances.now tolls.now start }
{
    let goals = distances.goals();
    // the rows begin at the multiples of their length
    if start % goals.max(1) != 0 {
        return 0;
    }
    least_sum(distances.row_at(start), tolls, goals) as u32
}

/// What all boxes of a position need, by the needs of each.
pub(crate) fn total_need(distances: &Distances, needs: &[u32], position: &Position) -> u64
    ensures { result ≡ total_need (need_in distances.now needs.now) position.now }
{
    let mut total = 0;
    for square in position.boxes() {
        let start = distances.row_start(*square, position.player());
        total += u64::from(number_at(needs, start));
    }
    total
}

/// Whether a lone box can come to some goal, with the player on the second square.
pub(crate) fn can_come(distances: &Distances, square: Square, player: Square) -> bool
    ensures { CanCome distances.now.level (far_in distances.now.table) square player → IsTrue result }
{
    distances.tell();
    has_less(distances.row(square, player), distances.goals())
}

// Whether one of the first `count` numbers is less than `NEVER`.
fn has_less(numbers: &[u32], count: usize) -> bool
    ensures { (i : ℕ) → i < count → slice_index_or numbers.now i 0 < NEVER → IsTrue result }
{
    for place in 0..count {
        if number_at(numbers, place) < NEVER {
            return true;
        }
    }
    false
}
